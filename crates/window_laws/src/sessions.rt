//! Sessions: what becomes of them where a tuple comes.
ghost use Rattle.std.specs.Prelude.{◌≡◌, ◌≤◌, List, ℕ};
ghost use Rattle.stream_base.specs.declared.def.Def.{Def};
ghost use Rattle.stream_base.specs.declared.kept.Kept.{Kept};
ghost use Rattle.stream_base.specs.declared.kind.Kind.TheVariants.{Session};
ghost use Rattle.stream_base.specs.Laws.{TimesDoNotFall};
ghost use Rattle.stream_base.specs.Kinds.{IsKindWithin};
ghost use Rattle.stream_base.specs.Model.Changes.{Moment, emissions, retractions};
ghost use Rattle.stream_base.specs.Model.Journal.{put_in_order};
ghost use Rattle.stream_base.specs.Model.Windows.{sessions};
ghost use Rattle.window_laws.specs.After.{with_tuple};
ghost use Rattle.window_laws.specs.Sessions.{AreChangesOfNear, IsPutInSessions};

/// A tuple and the sessions less than the gap away from it, at most two, become one session; all
/// others stay.
pub fn tuple_joins_the_sessions_near_it()
    ensures { (gap : ℕ) (kept : List Kept) (x : Kept) → 1 ≤ gap → TimesDoNotFall kept
        → IsPutInSessions gap x (sessions gap kept) (sessions gap (put_in_order kept x)) }
{}

/// A tuple's changes of a session window are those between the complete sessions near it and the
/// one that they become with it, if that is complete.
pub fn tuple_changes_the_sessions_near_it()
    ensures { (window : ℕ) (key : List ℕ) (gap : ℕ) (def : Def) (m : Moment) (x : Kept)
        → def.kind ≡ Session gap → IsKindWithin def.kind → TimesDoNotFall m.kept
        → AreChangesOfNear window key def.func gap m x
        (retractions key m (with_tuple m x) (window, def))
        (emissions key m (with_tuple m x) (window, def)) }
{}
