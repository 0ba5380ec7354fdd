//! Slices part at the starts and ends of instances, which select whole ones.
ghost use Rattle.std.specs.Prelude.{◌≡◌, ◌<◌, ◌≤◌, ◌+◌, ◌*◌, true, false, List, ℕ, All};
ghost use Rattle.std.specs.List.{Contains, flat_map};
ghost use Rattle.stream_base.specs.declared.def.Def.{Def};
ghost use Rattle.stream_base.specs.declared.kept.Kept.{Kept};
ghost use Rattle.stream_base.specs.declared.limits.TheConstants.{FINAL};
ghost use Rattle.stream_base.specs.Laws.{TimesDoNotFall};
ghost use Rattle.stream_base.specs.Kinds.{IsKindWithin, is_events, is_timed, length_of, slide_of};
ghost use Rattle.stream_base.specs.Model.Cuts.{has_cut};
ghost use Rattle.stream_base.specs.Model.Slices.{runs_of};
ghost use Rattle.stream_base.specs.Model.Windows.{Instance, instances_of, within};
ghost use Rattle.slice_lists.specs.Runs.{IsAligned, runs_within};

/// The starts and ends of a window's instances cut between the tuples at their sides, so that an
/// instance selects whole slices: its fold is that of theirs.
pub fn instances_select_whole_slices()
    ensures start { (windows : List Def) (marks : List ℕ) (kept : List Kept) (def : Def)
        (i : Instance) (a b : Kept) → All (λ w. IsKindWithin w.kind) windows
        → TimesDoNotFall kept → All (λ x. x.time < FINAL) kept
        → Contains windows def → is_events def.kind ≡ false
        → Contains (instances_of def.kind kept marks) i → Contains kept a → Contains kept b
        → a.time < i.low → i.low ≤ b.time → has_cut windows marks a.time b.time ≡ true }
    ensures end { (windows : List Def) (marks : List ℕ) (kept : List Kept) (def : Def)
        (i : Instance) (a b : Kept) → All (λ w. IsKindWithin w.kind) windows
        → TimesDoNotFall kept → All (λ x. x.time < FINAL) kept
        → Contains windows def → is_events def.kind ≡ false
        → Contains (instances_of def.kind kept marks) i → Contains kept a → Contains kept b
        → a.time < i.high → i.high ≤ b.time → has_cut windows marks a.time b.time ≡ true }
    ensures whole { (windows : List Def) (marks : List ℕ) (kept : List Kept) (def : Def)
        (i : Instance) → All (λ w. IsKindWithin w.kind) windows
        → TimesDoNotFall kept → All (λ x. x.time < FINAL) kept
        → Contains windows def → is_events def.kind ≡ false
        → Contains (instances_of def.kind kept marks) i → i.chosen
        ≡ flat_map (λ run. run) (runs_within i.low i.high (runs_of windows marks kept)) }
{}

/// No slice has tuples on both sides of a start or an end of a tumbling or sliding window, or of a
/// mark.
pub fn slices_part_at_starts_ends_and_marks()
    ensures starts { (windows : List Def) (marks : List ℕ) (kept : List Kept) (w : Def) (k : ℕ)
        → All (λ w. IsKindWithin w.kind) windows → TimesDoNotFall kept
        → Contains windows w → is_timed w.kind ≡ true
        → IsAligned (runs_of windows marks kept) (k * slide_of w.kind) }
    ensures ends { (windows : List Def) (marks : List ℕ) (kept : List Kept) (w : Def) (k : ℕ)
        → All (λ w. IsKindWithin w.kind) windows → TimesDoNotFall kept
        → Contains windows w → is_timed w.kind ≡ true
        → IsAligned (runs_of windows marks kept) (k * slide_of w.kind + length_of w.kind) }
    ensures marks { (windows : List Def) (marks : List ℕ) (kept : List Kept) (time : ℕ)
        → All (λ w. IsKindWithin w.kind) windows → TimesDoNotFall kept → Contains marks time
        → IsAligned (runs_of windows marks kept) time }
{}

/// An interval between two times that no slice has tuples on both sides of selects the slices that
/// begin in it, whole: its fold is that of theirs.
pub fn aligned_intervals_select_whole_slices()
    ensures { (windows : List Def) (marks : List ℕ) (kept : List Kept) (low high : ℕ)
        → TimesDoNotFall kept → IsAligned (runs_of windows marks kept) low
        → IsAligned (runs_of windows marks kept) high → within low high kept
        ≡ flat_map (λ run. run) (runs_within low high (runs_of windows marks kept)) }
{}
