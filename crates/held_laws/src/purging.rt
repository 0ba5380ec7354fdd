//! Slices of settled tuples that leave the store.
ghost use Rattle.std.specs.Prelude.{◌≡◌, ◌≤◌, ◌<◌, ◌-◌, true, ℕ, drop};
ghost use Rattle.std.specs.List.{Contains};
ghost use Rattle.stream_base.specs.declared.kept.Kept.{Kept};
ghost use Rattle.stream_base.specs.Limits.{Definitions};
ghost use Rattle.stream_base.specs.Model.Changes.{Moment};
ghost use Rattle.stream_base.specs.Model.Slices.{is_settled, runs_of};
ghost use Rattle.slice_lists.specs.Runs.{IsAligned};
ghost use Rattle.window_laws.specs.Settled.{without_first};
ghost use Rattle.agg_store.specs.Stored.{IsSliced, IsStore, Stored, tuples_of};
ghost use Rattle.key_parts.specs.Held.{IsHeld};
ghost use Rattle.key_parts.specs.Moves.{AreLists, IsPurge};
ghost use Rattle.held_laws.specs.Dropped.{IsDropped};
ghost use Rattle.held_laws.specs.Settling.{IsSettledUpTo};

/// The slices of a store are those of its tuples under all marks of the key, though the store lacks
/// the marks before what was dropped.
pub fn slices_are_those_of_the_key()
    ensures { (d : Definitions) (m : Moment) (n : ℕ) (s : Stored) → IsHeld d m n s → IsStore s
        → s.slices ≡ runs_of d.windows m.marks (tuples_of s) }
{}

/// No slice has tuples on both sides of a time up to which and no further tuples are settled.
pub fn slices_part_where_tuples_are_settled()
    ensures { (d : Definitions) (m : Moment) (n time : ℕ) (s : Stored) → IsHeld d m n s → IsStore s
        → IsSettledUpTo d (without_first n m) time → IsAligned s.slices time }
{}

/// Where the slices before a time are dropped, at or before the watermark minus the lateness, and
/// each tuple before it is settled, the store goes on to hold the key, of whose tuples it then
/// lacks more.
pub fn settled_slices_may_leave()
    ensures { (d : Definitions) (m : Moment) (n next time : ℕ) (before after : Stored)
        → IsHeld d m n before → AreLists m next → IsStore before → time ≤ m.water - d.lateness
        → ((x : Kept) → Contains (drop n m.kept) x → x.time < time
        → is_settled d (without_first n m) x ≡ true)
        → IsDropped time before after → IsSliced d.windows after
        → (more : ℕ) × IsPurge d m n before time more after }
{}
