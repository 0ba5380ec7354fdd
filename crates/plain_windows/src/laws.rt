//! A law of the instances of a window, as the contract of a function that does nothing.
ghost use Rattle.std.specs.Prelude.{ℕ, List};
ghost use Rattle.std.specs.List.Sorted.{IsNonDecreasingBy};
ghost use Rattle.stream_base.specs.declared.kept.Kept.{Kept};
ghost use Rattle.stream_base.specs.declared.kind.Kind.{Kind};
ghost use Rattle.stream_base.specs.Laws.{TimesDoNotFall};
ghost use Rattle.stream_base.specs.Kinds.{IsKindWithin};
ghost use Rattle.stream_base.specs.Model.Windows.{instances_of};

/// The bounds of a window's instances don't fall as their starts rise, so that those which are
/// complete stand in front of those which aren't.
pub fn bounds_do_not_fall()
    ensures { (kind : Kind) (kept : List Kept) (marks : List ℕ)
        → IsKindWithin kind → TimesDoNotFall kept
        → IsNonDecreasingBy (λ i. i.bound) (instances_of kind kept marks) }
{}
