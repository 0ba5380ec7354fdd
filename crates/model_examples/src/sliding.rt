//! Sliding windows.
ghost use Rattle.std.specs.Prelude.{◌≡◌, [], ◌∷◌, pos};
ghost use Rattle.stream_base.specs.Examples.{with_lateness, window, tuple, water, end, a, b, row, former, changes_in};
ghost use Rattle.stream_base.specs.Model.Windows.{starts_holding};
ghost use Rattle.stream_base.specs.declared.change.Change.TheVariants.{New, Again};
ghost use Rattle.stream_base.specs.declared.func.Func.TheVariants.{Count, First};
ghost use Rattle.stream_base.specs.declared.kind.Kind.TheVariants.{Sliding};

/// Sliding windows overlap, and changes are ordered by key, then by start.
#[tactic(auto, unfolding(stream_base::specs::Model::Opened::all_opened))]
pub fn sliding_windows_overlap()
    ensures { changes_in (with_lateness 0 (window (Sliding 4 2) Count ∷ []))
        (tuple 1 (pos 9) a ∷ tuple 3 (pos 9) b ∷ end ∷ [])
        ≡ [] ∷ [] ∷ (New (row 0 0 4 1 (pos 1) a) ∷ New (row 0 0 4 1 (pos 1) b)
        ∷ New (row 0 2 6 1 (pos 1) b) ∷ []) ∷ [] }
{}

/// A late tuple in the overlap of two sliding windows updates the one that stands, and counts in
/// the one that doesn't yet.
#[tactic(auto, unfolding(stream_base::specs::Model::Opened::all_opened))]
pub fn late_tuple_in_an_overlap()
    ensures { changes_in (with_lateness 10 (window (Sliding 20 10) First ∷ []))
        (tuple 5 (pos 1) a ∷ tuple 15 (pos 2) a ∷ water 20 ∷ tuple 12 (pos 4) a ∷ water 30 ∷ end
        ∷ [])
        ≡ [] ∷ [] ∷ (New (row 0 0 20 2 (pos 1) a) ∷ [])
        ∷ (Again (row 0 0 20 3 (pos 1) a) (former 2 (pos 1)) ∷ [])
        ∷ (New (row 0 10 30 2 (pos 4) a) ∷ []) ∷ [] ∷ [] }
{}

/// Near 0 a time lies in fewer intervals, since none starts before 0.
pub fn early_time_lies_in_fewer_intervals()
    ensures early { starts_holding 20 10 5 ≡ 0 ∷ [] }
    ensures later { starts_holding 20 10 25 ≡ 10 ∷ 20 ∷ [] }
{}
