//! What a late tuple changes of tumbling and sliding windows.
ghost use Rattle.std.specs.Prelude.{◌≡◌, true, [], List, ℕ};
ghost use Rattle.stream_base.specs.declared.def.Def.{Def};
ghost use Rattle.stream_base.specs.declared.kept.Kept.{Kept};
ghost use Rattle.stream_base.specs.Kinds.{IsKindWithin, is_timed};
ghost use Rattle.stream_base.specs.Model.Changes.{Moment, emissions, retractions};
ghost use Rattle.window_laws.specs.After.{with_tuple};
ghost use Rattle.window_laws.specs.Late.{changes_of_late};

/// A tuple retracts no interval, and emits or updates exactly the complete intervals that hold it:
/// an update tells what the interval showed without the tuple.
pub fn late_tuple_changes_the_intervals_that_hold_it()
    ensures gone { (window : ℕ) (key : List ℕ) (def : Def) (m : Moment) (x : Kept)
        → is_timed def.kind ≡ true → IsKindWithin def.kind
        → retractions key m (with_tuple m x) (window, def) ≡ [] }
    ensures come { (window : ℕ) (key : List ℕ) (def : Def) (m : Moment) (x : Kept)
        → is_timed def.kind ≡ true → IsKindWithin def.kind
        → emissions key m (with_tuple m x) (window, def) ≡ changes_of_late window key def m x }
{}
