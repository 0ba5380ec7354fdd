//! Up to which time the tuples that a store holds are settled.
ghost use Rattle.std.specs.Prelude.{◌≡◌, ◌≤◌, ◌<◌, ◌+◌, false, ℕ, drop};
ghost use Rattle.std.specs.List.{Contains, list_all};
ghost use Rattle.stream_base.specs.declared.def.Def.{Def};
ghost use Rattle.stream_base.specs.declared.kept.Kept.{Kept};
ghost use Rattle.stream_base.specs.Limits.{Definitions};
ghost use Rattle.stream_base.specs.Model.Changes.{Moment};
ghost use Rattle.stream_base.specs.Model.Slices.{is_settled, is_settled_in, unsettled};
ghost use Rattle.stream_base.specs.Kinds.{is_events};
ghost use Rattle.window_laws.specs.After.{at_water, with_mark, with_tuple};
ghost use Rattle.window_laws.specs.Settled.{MayLeave, without_first};
ghost use Rattle.slice_lists.specs.Touched.{slices_from};
ghost use Rattle.agg_store.specs.Stored.{IsStore, Stored};
ghost use Rattle.key_parts.specs.Held.{IsHeld};
ghost use Rattle.key_parts.specs.Moves.{IsMarkStep, IsPutStep};
ghost use Rattle.held_laws.specs.Settling.{EachSettlesUpTo, IsLeast, IsSettledUpTo, NoneSettled};

/// Where settled tuples have left, the others are settled as they were with them.
pub fn what_is_left_is_settled_as_before()
    ensures in_window { (d : Definitions) (m : Moment) (n : ℕ) (w : Def) (x : Kept)
        → MayLeave d m n → Contains d.windows w → Contains (drop n m.kept) x
        → is_settled_in d.lateness m x w ≡ is_settled_in d.lateness (without_first n m) x w }
    ensures in_all { (d : Definitions) (m : Moment) (n : ℕ) (x : Kept)
        → MayLeave d m n → Contains (drop n m.kept) x
        → is_settled d m x ≡ is_settled d (without_first n m) x }
    ensures unsettled { (d : Definitions) (m : Moment) (n : ℕ)
        → MayLeave d m n → unsettled d m ≡ unsettled d (without_first n m) }
{}

/// What is left of a key at a watermark is settled up to the least of the watermark minus the
/// lateness and of the times up to which it is settled in each window, where some window doesn't
/// count events.
pub fn tuples_are_settled_up_to_the_least_time()
    ensures { (d : Definitions) (m : Moment) (n water : ℕ) (times : ℕ → ℕ) (time : ℕ)
        → MayLeave d m n → list_all (λ w. is_events w.kind) d.windows ≡ false
        → EachSettlesUpTo d (at_water (without_first n m) water) times
        → IsLeast d water times time
        → IsSettledUpTo d (at_water (without_first n m) water) time }
{}

/// No tuple is settled in a store whose slices begin at or behind the time up to which tuples are
/// settled. That stays so where a tuple comes, and where a mark comes behind the watermark minus the
/// lateness; and it was so under each watermark before.
pub fn store_goes_on_without_settled_tuples()
    ensures from { (d : Definitions) (m : Moment) (n time : ℕ) (s after : Stored)
        → IsHeld d m n s → IsStore s → IsSettledUpTo d (without_first n m) time
        → after.slices ≡ slices_from time s.slices → NoneSettled d m after }
    ensures tuple { (d : Definitions) (m : Moment) (n : ℕ) (before : Stored) (x : Kept) (more : ℕ)
        (after : Stored) → IsPutStep d m n before x more after → NoneSettled d m before
        → NoneSettled d (with_tuple m x) after }
    ensures mark { (d : Definitions) (m : Moment) (n : ℕ) (before : Stored) (time : ℕ)
        (after : Stored) → IsMarkStep d m n before time after → m.water < time + d.lateness
        → NoneSettled d m before → NoneSettled d (with_mark m time) after }
    ensures earlier { (d : Definitions) (m : Moment) (n water : ℕ) (s : Stored)
        → IsHeld d m n s → water ≤ m.water → NoneSettled d m s
        → NoneSettled d (at_water m water) s }
{}
