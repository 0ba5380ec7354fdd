//! Settled tuples: they come first, with a cut behind them, and stay settled.
ghost use Rattle.std.specs.Prelude.{◌≡◌, ◌≤◌, ◌<◌, ◌+◌, ◌++◌, ◌∷◌, ◌↔◌, [], true, false, List, ℕ, All, drop, length};
ghost use Rattle.std.specs.List.{Contains};
ghost use Rattle.stream_base.specs.declared.def.Def.{Def};
ghost use Rattle.stream_base.specs.declared.kept.Kept.{Kept};
ghost use Rattle.stream_base.specs.declared.kind.Kind.TheVariants.{Marks, Session};
ghost use Rattle.stream_base.specs.declared.limits.TheConstants.{FINAL};
ghost use Rattle.stream_base.specs.Kinds.{IsKindWithin, is_events, is_timed};
ghost use Rattle.stream_base.specs.Limits.{Definitions};
ghost use Rattle.stream_base.specs.Model.Changes.{Moment};
ghost use Rattle.stream_base.specs.Model.Cuts.{has_cut};
ghost use Rattle.stream_base.specs.Model.Journal.{put_in_order};
ghost use Rattle.stream_base.specs.Model.Slices.{is_settled, is_settled_in, unsettled};
ghost use Rattle.stream_base.specs.Model.Windows.{Instance, sessions};
ghost use Rattle.window_laws.specs.After.{at_water, with_mark, with_tuple};
ghost use Rattle.window_laws.specs.Positions.{AreKept};
ghost use Rattle.window_laws.specs.Settled.{IsSettledAt, last_end_of, settled};
ghost use Rattle.window_laws.specs.Stretches.{next_mark};

/// A tuple is settled in a window exactly where each instance whose span holds its time ends by the
/// watermark minus the lateness.
pub fn settled_is_told_by_times()
    ensures { (lateness : ℕ) (m : Moment) (x : Kept) (w : Def)
        → AreKept m.kept → IsKindWithin w.kind → is_events w.kind ≡ false → Contains m.kept x
        → (is_settled_in lateness m x w ≡ true) ↔ IsSettledAt lateness w.kind m x.time }
{}

/// In each window alone, earlier tuples are settled where a later one is, and the window cuts
/// between a settled tuple and one that isn't.
pub fn each_window_settles_earlier_tuples_first()
    ensures earlier { (lateness : ℕ) (m : Moment) (w : Def) (x y : Kept)
        → AreKept m.kept → IsKindWithin w.kind → Contains m.kept x → Contains m.kept y
        → x.time ≤ y.time → is_settled_in lateness m y w ≡ true
        → is_settled_in lateness m x w ≡ true }
    ensures cut { (lateness : ℕ) (m : Moment) (windows : List Def) (w : Def) (x y : Kept)
        → AreKept m.kept → All (λ w. IsKindWithin w.kind) windows → Contains windows w
        → Contains m.kept x → Contains m.kept y → x.time ≤ y.time
        → is_settled_in lateness m x w ≡ true → is_settled_in lateness m y w ≡ false
        → has_cut windows m.marks x.time y.time ≡ true }
{}

/// The settled tuples come before all others, so that those which aren't are what is left of the
/// kept ones without so many first; and there is a cut between the two.
pub fn settled_tuples_come_first()
    ensures parts { (d : Definitions) (m : Moment) → All (λ w. IsKindWithin w.kind) d.windows
        → AreKept m.kept → m.kept ≡ settled d m ++ unsettled d m }
    ensures left { (d : Definitions) (m : Moment) → All (λ w. IsKindWithin w.kind) d.windows
        → AreKept m.kept → unsettled d m ≡ drop (length (settled d m)) m.kept }
    ensures cut { (d : Definitions) (m : Moment) (front : List Kept) (x y : Kept) (back : List Kept)
        → All (λ w. IsKindWithin w.kind) d.windows → AreKept m.kept
        → settled d m ≡ front ++ x ∷ [] → unsettled d m ≡ y ∷ back
        → has_cut d.windows m.marks x.time y.time ≡ true }
{}

/// A settled tuple stays settled where the watermark moves on, and where a tuple or a mark comes
/// that isn't late.
pub fn settled_tuples_stay_settled()
    ensures move_on { (d : Definitions) (m : Moment) (water : ℕ) (x : Kept)
        → All (λ w. IsKindWithin w.kind) d.windows → AreKept m.kept → m.water ≤ water
        → Contains m.kept x → is_settled d m x ≡ true → is_settled d (at_water m water) x ≡ true }
    ensures tuple { (d : Definitions) (m : Moment) (y x : Kept)
        → All (λ w. IsKindWithin w.kind) d.windows
        → AreKept m.kept → AreKept (put_in_order m.kept y) → m.water ≤ y.time + d.lateness
        → Contains m.kept x → is_settled d m x ≡ true → is_settled d (with_tuple m y) x ≡ true }
    ensures mark { (d : Definitions) (m : Moment) (time : ℕ) (x : Kept)
        → All (λ w. IsKindWithin w.kind) d.windows → AreKept m.kept
        → time < FINAL → m.water ≤ time + d.lateness
        → Contains m.kept x → is_settled d m x ≡ true → is_settled d (with_mark m time) x ≡ true }
{}

/// A tuple settles no other, and isn't settled itself where some window doesn't count events. A
/// mark settles nothing, but where its time plus the lateness is the watermark.
pub fn tuples_and_marks_settle_nothing()
    ensures tuple { (d : Definitions) (m : Moment) (y x : Kept)
        → All (λ w. IsKindWithin w.kind) d.windows
        → AreKept m.kept → AreKept (put_in_order m.kept y)
        → Contains m.kept x → is_settled d (with_tuple m y) x ≡ true → is_settled d m x ≡ true }
    ensures itself { (d : Definitions) (m : Moment) (w : Def) (y : Kept)
        → All (λ w. IsKindWithin w.kind) d.windows → AreKept (put_in_order m.kept y)
        → Contains d.windows w → is_events w.kind ≡ false → m.water ≤ y.time + d.lateness
        → is_settled d (with_tuple m y) y ≡ false }
    ensures mark { (d : Definitions) (m : Moment) (time : ℕ) (x : Kept)
        → All (λ w. IsKindWithin w.kind) d.windows → AreKept m.kept
        → time < FINAL → m.water < time + d.lateness
        → Contains m.kept x → is_settled d (with_mark m time) x ≡ true → is_settled d m x ≡ true }
{}

/// Where some window doesn't count events, a settled tuple lies before the watermark minus the
/// lateness, and so before each tuple that comes and isn't late.
pub fn settled_tuples_lie_before_the_watermark()
    ensures { (d : Definitions) (m : Moment) (w : Def) (x : Kept)
        → All (λ w. IsKindWithin w.kind) d.windows → AreKept m.kept
        → Contains d.windows w → is_events w.kind ≡ false
        → Contains m.kept x → is_settled d m x ≡ true → x.time + d.lateness < m.water }
{}

/// When a tuple settles in a window: once the watermark minus the lateness reaches the end of the
/// last instance that holds it. That is told by its time alone for intervals, by the next mark for
/// intervals between marks, and by its session.
pub fn tuple_settles_at_its_last_end()
    ensures intervals { (lateness : ℕ) (m : Moment) (x : Kept) (w : Def)
        → AreKept m.kept → IsKindWithin w.kind → is_timed w.kind ≡ true → Contains m.kept x
        → (is_settled_in lateness m x w ≡ true) ↔ (last_end_of w.kind x.time + lateness ≤ m.water) }
    ensures sessions { (lateness gap : ℕ) (m : Moment) (x : Kept) (w : Def) (i : Instance)
        → AreKept m.kept → w.kind ≡ Session gap → IsKindWithin w.kind → Contains m.kept x
        → Contains (sessions gap m.kept) i → i.low ≤ x.time → x.time < i.high
        → (is_settled_in lateness m x w ≡ true) ↔ (i.high + lateness ≤ m.water) }
    ensures marks { (lateness : ℕ) (m : Moment) (x : Kept) (w : Def)
        → AreKept m.kept → w.kind ≡ Marks → Contains m.kept x
        → (is_settled_in lateness m x w ≡ true) ↔ (next_mark m.marks x.time + lateness ≤ m.water) }
{}
