//! Settled tuples that leave: they change no result to come.
ghost use Rattle.std.specs.Prelude.{◌≡◌, ◌≤◌, ◌<◌, ◌+◌, false, List, ℕ, All, length};
ghost use Rattle.std.specs.List.{Contains};
ghost use Rattle.stream_base.specs.declared.def.Def.{Def};
ghost use Rattle.stream_base.specs.declared.kept.Kept.{Kept};
ghost use Rattle.stream_base.specs.declared.limits.TheConstants.{FINAL};
ghost use Rattle.stream_base.specs.Laws.{completions};
ghost use Rattle.stream_base.specs.Limits.{Definitions};
ghost use Rattle.stream_base.specs.Kinds.{IsKindWithin, is_events};
ghost use Rattle.stream_base.specs.Model.Changes.{Moment, emissions, retractions};
ghost use Rattle.stream_base.specs.Model.Journal.{put_in_order};
ghost use Rattle.window_laws.specs.After.{at_water, with_mark, with_tuple};
ghost use Rattle.window_laws.specs.Positions.{AreKept};
ghost use Rattle.window_laws.specs.Settled.{MayLeave, settled, without_first};

/// Where so many first tuples are settled and have left, each window that doesn't count events
/// changes as it would with them: where the watermark moves, and where a tuple or a mark comes that
/// isn't late.
pub fn what_left_changes_no_result()
    ensures move_on { (d : Definitions) (m : Moment) (n window : ℕ) (key : List ℕ) (w : Def)
        (new : ℕ)
        → MayLeave d m n → Contains d.windows w → is_events w.kind ≡ false
        → completions key m new (window, w) ≡ completions key (without_first n m) new (window, w) }
    ensures tuple_gone { (d : Definitions) (m : Moment) (n window : ℕ) (key : List ℕ) (w : Def)
        (y : Kept) → MayLeave d m n → Contains d.windows w → is_events w.kind ≡ false
        → AreKept (put_in_order m.kept y) → m.water ≤ y.time + d.lateness
        → retractions key m (with_tuple m y) (window, w)
        ≡ retractions key (without_first n m) (with_tuple (without_first n m) y) (window, w) }
    ensures tuple_come { (d : Definitions) (m : Moment) (n window : ℕ) (key : List ℕ) (w : Def)
        (y : Kept) → MayLeave d m n → Contains d.windows w → is_events w.kind ≡ false
        → AreKept (put_in_order m.kept y) → m.water ≤ y.time + d.lateness
        → emissions key m (with_tuple m y) (window, w)
        ≡ emissions key (without_first n m) (with_tuple (without_first n m) y) (window, w) }
    ensures mark_gone { (d : Definitions) (m : Moment) (n window : ℕ) (key : List ℕ) (w : Def)
        (time : ℕ) → MayLeave d m n → Contains d.windows w → is_events w.kind ≡ false
        → time < FINAL → m.water ≤ time + d.lateness
        → retractions key m (with_mark m time) (window, w)
        ≡ retractions key (without_first n m) (with_mark (without_first n m) time) (window, w) }
    ensures mark_come { (d : Definitions) (m : Moment) (n window : ℕ) (key : List ℕ) (w : Def)
        (time : ℕ) → MayLeave d m n → Contains d.windows w → is_events w.kind ≡ false
        → time < FINAL → m.water ≤ time + d.lateness
        → emissions key m (with_mark m time) (window, w)
        ≡ emissions key (without_first n m) (with_mark (without_first n m) time) (window, w) }
{}

/// The settled tuples may leave; what may leave still may after each further event; and a tuple
/// that isn't late comes behind what left.
pub fn what_may_leave_still_may()
    ensures settled { (d : Definitions) (m : Moment) → All (λ w. IsKindWithin w.kind) d.windows
        → AreKept m.kept → MayLeave d m (length (settled d m)) }
    ensures move_on { (d : Definitions) (m : Moment) (n water : ℕ)
        → MayLeave d m n → m.water ≤ water → MayLeave d (at_water m water) n }
    ensures mark { (d : Definitions) (m : Moment) (n time : ℕ) → MayLeave d m n
        → time < FINAL → m.water ≤ time + d.lateness → MayLeave d (with_mark m time) n }
    ensures tuple { (d : Definitions) (m : Moment) (n : ℕ) (w : Def) (y : Kept)
        → MayLeave d m n → Contains d.windows w → is_events w.kind ≡ false
        → AreKept (put_in_order m.kept y) → m.water ≤ y.time + d.lateness
        → MayLeave d (with_tuple m y) n }
    ensures enters_behind { (d : Definitions) (m : Moment) (n : ℕ) (w : Def) (y : Kept)
        → MayLeave d m n → Contains d.windows w → is_events w.kind ≡ false
        → AreKept (put_in_order m.kept y) → m.water ≤ y.time + d.lateness
        → with_tuple (without_first n m) y ≡ without_first n (with_tuple m y) }
{}
