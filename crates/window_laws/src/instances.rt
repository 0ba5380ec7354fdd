//! The instances of a window: what holds of each, and along them.
ghost use Rattle.std.specs.Prelude.{◌≡◌, ◌≤◌, ◌++◌, List, ℕ, false, map, All};
ghost use Rattle.std.specs.List.Sorted.{IsNonDecreasingBy};
ghost use Rattle.stream_base.specs.declared.kept.Kept.{Kept};
ghost use Rattle.stream_base.specs.declared.kind.Kind.{Kind};
ghost use Rattle.stream_base.specs.Laws.{TimesDoNotFall};
ghost use Rattle.stream_base.specs.Kinds.{IsKindWithin, is_events};
ghost use Rattle.stream_base.specs.Model.Windows.{instances_of, standing_of, within};
ghost use Rattle.window_laws.specs.Instances.{KeepsTimes, completed, incomplete, with_each};

/// The bounds of the instances of a window don't fall from one to the next, so that those which
/// stand come before all others, and a move of the watermark adds those that it completes behind
/// them.
pub fn bounds_do_not_fall()
    ensures along { (kind : Kind) (kept : List Kept) (marks : List ℕ)
        → IsKindWithin kind → TimesDoNotFall kept
        → IsNonDecreasingBy (λ i. i.bound) (instances_of kind kept marks) }
    ensures standing_first { (kind : Kind) (kept : List Kept) (marks : List ℕ) (water : ℕ)
        → IsKindWithin kind → TimesDoNotFall kept → instances_of kind kept marks
        ≡ standing_of kind kept marks water ++ incomplete water (instances_of kind kept marks) }
    ensures move_adds_behind { (kind : Kind) (kept : List Kept) (marks : List ℕ) (old new : ℕ)
        → IsKindWithin kind → TimesDoNotFall kept → old ≤ new → standing_of kind kept marks new
        ≡ standing_of kind kept marks old ++ completed old new (instances_of kind kept marks) }
{}

/// An instance selects exactly the kept tuples whose times lie within its span, and its bound is
/// its end, unless its window counts events.
pub fn instances_select_what_their_spans_hold()
    ensures selection { (kind : Kind) (kept : List Kept) (marks : List ℕ)
        → IsKindWithin kind → is_events kind ≡ false → TimesDoNotFall kept
        → All (λ i. i.chosen ≡ within i.low i.high kept) (instances_of kind kept marks) }
    ensures bound { (kind : Kind) (kept : List Kept) (marks : List ℕ) → is_events kind ≡ false
        → All (λ i. i.bound ≡ i.high) (instances_of kind kept marks) }
{}

/// Which instances a window has depends on times alone: where tuples give way to others of the same
/// times, the instances stay, and select those in place of these.
pub fn times_alone_make_instances()
    ensures { (r : Kept → Kept) (kind : Kind) (kept : List Kept) (marks : List ℕ)
        → KeepsTimes r
        → instances_of kind (map r kept) marks ≡ map (with_each r) (instances_of kind kept marks) }
{}
