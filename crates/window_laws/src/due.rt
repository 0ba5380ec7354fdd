//! Which keys a move of the watermark concerns.
ghost use Rattle.std.specs.Prelude.{◌≡◌, ◌<◌, ◌≤◌, ◌+◌, ◌-◌, ◌*◌, ◌/◌, true, [], max, List, ℕ, All, fold, map, min};
ghost use Rattle.std.specs.List.{Contains};
ghost use Rattle.stream_base.specs.declared.def.Def.{Def};
ghost use Rattle.stream_base.specs.declared.kept.Kept.{Kept};
ghost use Rattle.stream_base.specs.declared.kind.Kind.TheVariants.{Events, Marks, Session};
ghost use Rattle.stream_base.specs.declared.limits.TheConstants.{FINAL};
ghost use Rattle.stream_base.specs.Laws.{TimesDoNotFall};
ghost use Rattle.stream_base.specs.Kinds.{IsKindWithin, is_timed, length_of};
ghost use Rattle.stream_base.specs.Model.Changes.{Moment};
ghost use Rattle.stream_base.specs.Model.Windows.{Instance, sessions};
ghost use Rattle.window_laws.specs.After.{at_water};
ghost use Rattle.window_laws.specs.Counts.{upper};
ghost use Rattle.window_laws.specs.Due.{completed_of, first_open, next_bound, time_of_number};
ghost use Rattle.window_laws.specs.Positions.{AreKept};
ghost use Rattle.window_laws.specs.Stretches.{last_mark, next_mark};
ghost use Rattle.window_laws.specs.Walk.{IsFirstFrom, next_start_of};

/// A key of which nothing is due up to the new watermark changes nothing, and may be moved there
/// later: what a further watermark then completes is the same.
pub fn key_with_nothing_due_waits()
    ensures nothing { (windows : List Def) (key : List ℕ) (m : Moment) (new : ℕ)
        → new < next_bound windows m → completed_of windows key m new ≡ [] }
    ensures later { (windows : List Def) (key : List ℕ) (m : Moment) (new further : ℕ)
        → m.water ≤ new → new < next_bound windows m
        → completed_of windows key (at_water m new) further ≡ completed_of windows key m further }
{}

/// The next bound of a key is the least of its windows' own, and a window's own is the bound of its
/// first instance that isn't complete.
pub fn next_bound_is_that_of_a_first_instance()
    ensures { (windows : List Def) (m : Moment)
        → All (λ w. IsKindWithin w.kind) windows → TimesDoNotFall m.kept
        → next_bound windows m ≡ fold min FINAL (map (first_open m) windows) }
{}

/// The next bound of a tumbling or sliding window: the end of the first interval from its next
/// start on that holds the first tuple from there, and the final time where there is no such tuple.
pub fn next_bound_of_intervals()
    ensures some { (w : Def) (m : Moment) (x : Kept) → is_timed w.kind ≡ true → IsKindWithin w.kind
        → IsFirstFrom m.kept (next_start_of w.kind m.water) x → first_open m w
        ≡ max (next_start_of w.kind m.water) (next_start_of w.kind x.time) + length_of w.kind }
    ensures none { (w : Def) (m : Moment) → is_timed w.kind ≡ true → IsKindWithin w.kind
        → All (λ x. x.time < next_start_of w.kind m.water) m.kept → first_open m w ≡ FINAL }
{}

/// The next bound of a window of event counts: the time of the tuple that fills the next instance,
/// and the final time where there are too few.
pub fn next_bound_of_counts()
    ensures { (count : ℕ) (w : Def) (m : Moment)
        → w.kind ≡ Events count → 1 ≤ count → TimesDoNotFall m.kept → first_open m w
        ≡ time_of_number m.kept ((upper m.water m.kept / count + 1) * count) }
{}

/// The next bound of a session window: the end of the session that holds the first tuple which lies
/// less than the gap before the watermark or behind it, and the final time where there is none.
pub fn next_bound_of_sessions()
    ensures some { (gap : ℕ) (w : Def) (m : Moment) (x : Kept) (i : Instance)
        → w.kind ≡ Session gap → 1 ≤ gap → TimesDoNotFall m.kept
        → IsFirstFrom m.kept (m.water + 1 - gap) x → Contains (sessions gap m.kept) i
        → i.low ≤ x.time → x.time < i.high → first_open m w ≡ i.high }
    ensures none { (gap : ℕ) (w : Def) (m : Moment)
        → w.kind ≡ Session gap → 1 ≤ gap → TimesDoNotFall m.kept
        → All (λ x. x.time < m.water + 1 - gap) m.kept → first_open m w ≡ FINAL }
{}

/// The next bound of a window of marks: the mark behind the first tuple from the last mark up to the
/// watermark on, and the final time where there is no such mark or no such tuple.
pub fn next_bound_of_marks()
    ensures some { (w : Def) (m : Moment) (x : Kept) → w.kind ≡ Marks → AreKept m.kept
        → m.water < FINAL → IsFirstFrom m.kept (last_mark m.marks m.water) x
        → first_open m w ≡ next_mark m.marks x.time }
    ensures none { (w : Def) (m : Moment) → w.kind ≡ Marks → AreKept m.kept
        → All (λ x. x.time < last_mark m.marks m.water) m.kept → first_open m w ≡ FINAL }
{}
