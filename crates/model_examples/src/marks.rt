//! Windows between marks.
ghost use Rattle.std.specs.Prelude.{◌≡◌, [], ◌∷◌, pos};
ghost use Rattle.stream_base.specs.Examples.{with_lateness, window, tuple, mark, water, end, a, row, changes_in};
ghost use Rattle.stream_base.specs.declared.change.Change.TheVariants.{Gone, New, Dropped};
ghost use Rattle.stream_base.specs.declared.func.Func.TheVariants.{Sum};
ghost use Rattle.stream_base.specs.declared.kind.Kind.TheVariants.{Marks};

/// A late mark splits a standing interval; the last interval ends at the final time.
#[tactic(auto, unfolding(stream_base::specs::Model::Opened::all_opened))]
pub fn late_mark_splits_an_interval()
    ensures { changes_in (with_lateness 10 (window Marks Sum ∷ []))
        (tuple 2 (pos 1) a ∷ tuple 7 (pos 2) a ∷ tuple 12 (pos 4) a ∷ mark 10 a ∷ water 10
        ∷ mark 6 a ∷ end ∷ [])
        ≡ [] ∷ [] ∷ [] ∷ [] ∷ (New (row 0 0 10 2 (pos 3) a) ∷ [])
        ∷ (Gone (row 0 0 10 2 (pos 3) a) ∷ New (row 0 0 6 1 (pos 1) a)
        ∷ New (row 0 6 10 1 (pos 2) a) ∷ []) ∷ (New (row 0 10 4611686018427387904 1 (pos 4) a) ∷ [])
        ∷ [] }
{}

/// A mark at 0, and a mark at a time that is marked already, change nothing.
#[tactic(auto, unfolding(stream_base::specs::Model::Opened::all_opened))]
pub fn repeated_mark_changes_nothing()
    ensures { changes_in (with_lateness 10 (window Marks Sum ∷ []))
        (tuple 2 (pos 1) a ∷ mark 5 a ∷ water 5 ∷ mark 5 a ∷ mark 0 a ∷ end ∷ [])
        ≡ [] ∷ [] ∷ (New (row 0 0 5 1 (pos 1) a) ∷ []) ∷ [] ∷ [] ∷ [] ∷ [] }
{}

/// A mark with all tuples of a standing interval on one side retracts it, and emits the side that
/// has them.
#[tactic(auto, unfolding(stream_base::specs::Model::Opened::all_opened))]
pub fn mark_with_tuples_on_one_side()
    ensures { changes_in (with_lateness 10 (window Marks Sum ∷ []))
        (tuple 2 (pos 1) a ∷ mark 8 a ∷ water 8 ∷ mark 5 a ∷ end ∷ [])
        ≡ [] ∷ [] ∷ (New (row 0 0 8 1 (pos 1) a) ∷ [])
        ∷ (Gone (row 0 0 8 1 (pos 1) a) ∷ New (row 0 0 5 1 (pos 1) a) ∷ []) ∷ [] ∷ [] }
{}

/// A mark of a key without tuples is kept, and bounds what comes later.
#[tactic(auto, unfolding(stream_base::specs::Model::Opened::all_opened))]
pub fn mark_before_any_tuple_is_kept()
    ensures { changes_in (with_lateness 10 (window Marks Sum ∷ []))
        (mark 5 a ∷ tuple 2 (pos 1) a ∷ tuple 7 (pos 2) a ∷ water 5 ∷ end ∷ [])
        ≡ [] ∷ [] ∷ [] ∷ (New (row 0 0 5 1 (pos 1) a) ∷ [])
        ∷ (New (row 0 5 4611686018427387904 1 (pos 2) a) ∷ []) ∷ [] }
{}

/// A tuple at the time of a mark lies behind it.
#[tactic(auto, unfolding(stream_base::specs::Model::Opened::all_opened))]
pub fn tuple_at_a_mark_lies_behind_it()
    ensures { changes_in (with_lateness 0 (window Marks Sum ∷ []))
        (tuple 5 (pos 1) a ∷ tuple 2 (pos 2) a ∷ mark 5 a ∷ water 5 ∷ end ∷ [])
        ≡ [] ∷ [] ∷ []
        ∷ (New (row 0 0 5 1 (pos 2) a) ∷ [])
        ∷ (New (row 0 5 4611686018427387904 1 (pos 1) a) ∷ [])
        ∷ [] }
{}

/// A late mark is dropped, and one exactly at the bound isn't.
#[tactic(auto, unfolding(stream_base::specs::Model::Opened::all_opened))]
pub fn late_mark_is_dropped()
    ensures { changes_in (with_lateness 3 (window Marks Sum ∷ []))
        (tuple 6 (pos 2) a ∷ tuple 8 (pos 1) a ∷ water 10 ∷ mark 6 a ∷ mark 7 a ∷ end ∷ [])
        ≡ [] ∷ [] ∷ []
        ∷ (Dropped ∷ [])
        ∷ (New (row 0 0 7 1 (pos 2) a) ∷ [])
        ∷ (New (row 0 7 4611686018427387904 1 (pos 1) a) ∷ [])
        ∷ [] }
{}
