//! Windows of event counts.
ghost use Rattle.std.specs.Prelude.{◌≡◌, [], ◌∷◌, pos};
ghost use Rattle.stream_base.specs.Examples.{with_lateness, window, tuple, water, end, a, row, former, changes_in};
ghost use Rattle.stream_base.specs.declared.change.Change.TheVariants.{New, Again};
ghost use Rattle.stream_base.specs.declared.func.Func.TheVariants.{Sum, First, Last};
ghost use Rattle.stream_base.specs.declared.kind.Kind.TheVariants.{Tumbling, Events};

/// A late tuple shifts every later tuple of its key by one place, and a count that isn't full has
/// no instance.
#[tactic(auto, unfolding(stream_base::specs::Model::Opened::all_opened))]
pub fn late_tuple_shifts_counts()
    ensures { changes_in (with_lateness 20 (window (Events 2) Sum ∷ []))
        (tuple 1 (pos 1) a ∷ tuple 5 (pos 2) a ∷ tuple 7 (pos 4) a ∷ tuple 9 (pos 8) a ∷ water 9
        ∷ tuple 3 (pos 16) a ∷ end ∷ [])
        ≡ [] ∷ [] ∷ [] ∷ [] ∷ (New (row 0 0 2 2 (pos 3) a) ∷ New (row 0 2 4 2 (pos 12) a) ∷ [])
        ∷ (Again (row 0 0 2 2 (pos 17) a) (former 2 (pos 3))
        ∷ Again (row 0 2 4 2 (pos 6) a) (former 2 (pos 12)) ∷ []) ∷ [] ∷ [] }
{}

/// A late tuple can complete a count: the instance whose last time is now within the watermark is
/// emitted.
#[tactic(auto, unfolding(stream_base::specs::Model::Opened::all_opened))]
pub fn late_tuple_completes_a_count()
    ensures { changes_in (with_lateness 20 (window (Events 2) Sum ∷ []))
        (tuple 1 (pos 1) a ∷ tuple 5 (pos 2) a ∷ water 5 ∷ tuple 3 (pos 16) a ∷ tuple 2 (pos 8) a
        ∷ end ∷ [])
        ≡ [] ∷ [] ∷ (New (row 0 0 2 2 (pos 3) a) ∷ [])
        ∷ (Again (row 0 0 2 2 (pos 17) a) (former 2 (pos 3)) ∷ [])
        ∷ (Again (row 0 0 2 2 (pos 9) a) (former 2 (pos 17)) ∷ New (row 0 2 4 2 (pos 18) a) ∷ [])
        ∷ [] ∷ [] }
{}

/// A late tuple at the time of others comes behind them: it is the last of its window, and leaves
/// the count before it as it was.
#[tactic(auto, unfolding(stream_base::specs::Model::Opened::all_opened))]
pub fn late_tuple_at_a_tie()
    ensures { changes_in
        (with_lateness 20 (window (Tumbling 10) Last ∷ window (Events 2) First ∷ []))
        (tuple 5 (pos 1) a ∷ tuple 5 (pos 2) a ∷ water 10 ∷ tuple 5 (pos 3) a ∷ tuple 5 (pos 4) a
        ∷ [])
        ≡ [] ∷ []
        ∷ (New (row 0 0 10 2 (pos 2) a) ∷ New (row 1 0 2 2 (pos 1) a) ∷ [])
        ∷ (Again (row 0 0 10 3 (pos 3) a) (former 2 (pos 2)) ∷ [])
        ∷ (Again (row 0 0 10 4 (pos 4) a) (former 3 (pos 3)) ∷ New (row 1 2 4 2 (pos 3) a) ∷ [])
        ∷ [] }
{}

/// A full count is emitted where the watermark reaches the time of its last tuple, and not before.
#[tactic(auto, unfolding(stream_base::specs::Model::Opened::all_opened))]
pub fn count_is_emitted_at_its_last_tuple()
    ensures { changes_in (with_lateness 0 (window (Events 2) Sum ∷ []))
        (tuple 1 (pos 1) a ∷ tuple 5 (pos 2) a ∷ water 1 ∷ water 4 ∷ water 5 ∷ end ∷ [])
        ≡ [] ∷ [] ∷ [] ∷ [] ∷ (New (row 0 0 2 2 (pos 3) a) ∷ []) ∷ [] ∷ [] }
{}

/// A count is updated where it selects other tuples, though these have the times or the values of
/// those that it selected.
#[tactic(auto, unfolding(stream_base::specs::Model::Opened::all_opened))]
pub fn counts_of_equal_times_and_values_are_updated()
    ensures times { changes_in (with_lateness 20 (window (Events 2) First ∷ []))
        (tuple 5 (pos 1) a ∷ tuple 7 (pos 2) a ∷ tuple 7 (pos 3) a ∷ tuple 7 (pos 2) a ∷ water 9
        ∷ tuple 6 (pos 3) a ∷ [])
        ≡ [] ∷ [] ∷ [] ∷ [] ∷ (New (row 0 0 2 2 (pos 1) a) ∷ New (row 0 2 4 2 (pos 3) a) ∷ [])
        ∷ (Again (row 0 0 2 2 (pos 1) a) (former 2 (pos 1))
        ∷ Again (row 0 2 4 2 (pos 2) a) (former 2 (pos 3)) ∷ []) ∷ [] }
    ensures values { changes_in (with_lateness 20 (window (Events 2) Sum ∷ []))
        (tuple 5 (pos 1) a ∷ tuple 7 (pos 1) a ∷ water 9 ∷ tuple 6 (pos 1) a ∷ [])
        ≡ [] ∷ [] ∷ (New (row 0 0 2 2 (pos 2) a) ∷ [])
        ∷ (Again (row 0 0 2 2 (pos 2) a) (former 2 (pos 2)) ∷ []) ∷ [] }
{}
