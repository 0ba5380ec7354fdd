//! What a store holds of a key it goes on to hold.
ghost use Rattle.std.specs.Prelude.{◌≡◌, ◌≤◌, [], ℕ, All};
ghost use Rattle.stream_base.specs.declared.kept.Kept.{Kept};
ghost use Rattle.stream_base.specs.Limits.{Definitions};
ghost use Rattle.stream_base.specs.Kinds.{IsKindWithin};
ghost use Rattle.stream_base.specs.Model.Changes.{Moment};
ghost use Rattle.stream_base.specs.Model.Moments.{moment};
ghost use Rattle.window_laws.specs.After.{at_water, with_mark, with_tuple};
ghost use Rattle.agg_store.specs.Stored.{IsSliced, Stored};
ghost use Rattle.key_parts.specs.Held.{IsHeld};
ghost use Rattle.key_parts.specs.Moves.{IsMarkStep, IsPutStep};

/// A store with no slices and no marks, of which nothing was dropped, holds a key with no tuples
/// and no marks.
pub fn fresh_store_holds_a_fresh_key()
    ensures { (d : Definitions) (water : ℕ) (s : Stored) → All (λ w. IsKindWithin w.kind) d.windows
        → s.slices ≡ [] → s.marks ≡ [] → s.dropped ≡ 0 → IsSliced d.windows s
        → IsHeld d (moment [] [] water) 0 s }
{}

/// The store goes on to hold a key where a tuple comes, which it has taken in or which is settled
/// at once, where a mark comes that it has taken in, and where the watermark moves.
pub fn store_goes_on_to_hold()
    ensures tuple { (d : Definitions) (m : Moment) (n : ℕ) (before : Stored) (x : Kept) (more : ℕ)
        (after : Stored) → IsPutStep d m n before x more after
        → IsHeld d (with_tuple m x) more after }
    ensures mark { (d : Definitions) (m : Moment) (n : ℕ) (before : Stored) (time : ℕ)
        (after : Stored) → IsMarkStep d m n before time after
        → IsHeld d (with_mark m time) n after }
    ensures move_on { (d : Definitions) (m : Moment) (n : ℕ) (s : Stored) (water : ℕ)
        → IsHeld d m n s → m.water ≤ water → IsHeld d (at_water m water) n s }
{}
