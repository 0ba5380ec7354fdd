//! Tumbling windows, and the entries that are late for them.
ghost use Rattle.std.specs.Prelude.{◌≡◌, [], ◌∷◌, codes, pos};
ghost use Rattle.stream_base.specs.Examples.{with_lateness, window, tuple, mark, water, end, a, b, row, former, changes_in};
ghost use Rattle.stream_base.specs.declared.change.Change.TheVariants.{New, Again, Dropped};
ghost use Rattle.stream_base.specs.declared.func.Func.TheVariants.{Count, Sum};
ghost use Rattle.stream_base.specs.declared.kind.Kind.TheVariants.{Tumbling, Marks};

/// A window is emitted where the watermark reaches its end, with the sum of its tuples.
#[tactic(auto, unfolding(stream_base::specs::Model::Opened::all_opened))]
pub fn window_is_emitted_at_its_watermark()
    ensures { changes_in (with_lateness 0 (window (Tumbling 10) Sum ∷ []))
        (tuple 1 (pos 5) a ∷ tuple 4 (pos 7) a ∷ water 10 ∷ end ∷ [])
        ≡ [] ∷ [] ∷ (New (row 0 0 10 2 (pos 12) a) ∷ []) ∷ [] ∷ [] }
{}

/// A tuple at the end of one window belongs to the next.
#[tactic(auto, unfolding(stream_base::specs::Model::Opened::all_opened))]
pub fn end_belongs_to_the_next_window()
    ensures { changes_in (with_lateness 0 (window (Tumbling 10) Sum ∷ []))
        (tuple 10 (pos 1) a ∷ tuple 9 (pos 2) a ∷ water 10 ∷ end ∷ [])
        ≡ [] ∷ [] ∷ (New (row 0 0 10 1 (pos 2) a) ∷ []) ∷ (New (row 0 10 20 1 (pos 1) a) ∷ [])
        ∷ [] }
{}

/// A late tuple within the lateness updates its window; one tick later it is dropped.
#[tactic(auto, unfolding(stream_base::specs::Model::Opened::all_opened))]
pub fn late_tuple_updates_or_is_dropped()
    ensures { changes_in (with_lateness 5 (window (Tumbling 10) Sum ∷ []))
        (tuple 1 (pos 1) a ∷ water 10 ∷ tuple 5 (pos 2) a ∷ tuple 4 (pos 3) a ∷ end ∷ [])
        ≡ [] ∷ (New (row 0 0 10 1 (pos 1) a) ∷ [])
        ∷ (Again (row 0 0 10 2 (pos 3) a) (former 1 (pos 1)) ∷ []) ∷ (Dropped ∷ []) ∷ [] ∷ [] }
{}

/// A late tuple that is the first of a complete window emits it at once.
#[tactic(auto, unfolding(stream_base::specs::Model::Opened::all_opened))]
pub fn late_first_tuple_emits()
    ensures { changes_in (with_lateness 20 (window (Tumbling 10) Sum ∷ []))
        (water 20 ∷ tuple 3 (pos 4) a ∷ end ∷ [])
        ≡ [] ∷ (New (row 0 0 10 1 (pos 4) a) ∷ []) ∷ [] ∷ [] }
{}

/// At its bound a window stands, and a tuple isn't late; one tick before and behind they are not.
#[tactic(auto, unfolding(stream_base::specs::Model::Opened::all_opened))]
pub fn everything_exactly_at_its_bound()
    ensures { changes_in (with_lateness 3 (window (Tumbling 10) Sum ∷ []))
        (tuple 2 (pos 1) a ∷ water 9 ∷ tuple 6 (pos 2) a ∷ water 10 ∷ tuple 7 (pos 4) a
        ∷ tuple 6 (pos 8) a ∷ water 11 ∷ tuple 7 (pos 32) a ∷ tuple 8 (pos 16) a ∷ end ∷ [])
        ≡ [] ∷ [] ∷ []
        ∷ (New (row 0 0 10 2 (pos 3) a) ∷ [])
        ∷ (Again (row 0 0 10 3 (pos 7) a) (former 2 (pos 3)) ∷ [])
        ∷ (Dropped ∷ [])
        ∷ []
        ∷ (Dropped ∷ [])
        ∷ (Again (row 0 0 10 4 (pos 23) a) (former 3 (pos 7)) ∷ [])
        ∷ [] ∷ [] }
{}

/// After the end of the only source, tuples and marks are late.
#[tactic(auto, unfolding(stream_base::specs::Model::Opened::all_opened))]
pub fn nothing_counts_after_the_end()
    ensures { changes_in (with_lateness 5 (window (Tumbling 10) Sum ∷ window Marks Sum ∷ []))
        (tuple 1 (pos 1) a ∷ end ∷ tuple 2 (pos 2) a ∷ mark 3 a ∷ water 20 ∷ [])
        ≡ []
        ∷ (New (row 0 0 10 1 (pos 1) a) ∷ New (row 1 0 4611686018427387904 1 (pos 1) a) ∷ [])
        ∷ (Dropped ∷ [])
        ∷ (Dropped ∷ [])
        ∷ [] ∷ [] }
{}

/// Changes are ordered by the bytes of their keys, and then by window. A capital comes before small
/// letters, and a prefix before what is longer.
#[tactic(auto, unfolding(stream_base::specs::Model::Opened::all_opened))]
pub fn changes_are_ordered_by_the_bytes_of_keys()
    ensures { changes_in
        (with_lateness 0 (window (Tumbling 10) Sum ∷ window (Tumbling 5) Count ∷ []))
        (tuple 1 (pos 1) b ∷ tuple 1 (pos 2) (codes "ab") ∷ tuple 1 (pos 3) a
        ∷ tuple 1 (pos 4) (codes "B") ∷ end ∷ [])
        ≡ [] ∷ [] ∷ [] ∷ []
        ∷ (New (row 0 0 10 1 (pos 4) (codes "B")) ∷ New (row 1 0 5 1 (pos 1) (codes "B"))
        ∷ New (row 0 0 10 1 (pos 3) a) ∷ New (row 1 0 5 1 (pos 1) a)
        ∷ New (row 0 0 10 1 (pos 2) (codes "ab")) ∷ New (row 1 0 5 1 (pos 1) (codes "ab"))
        ∷ New (row 0 0 10 1 (pos 1) b) ∷ New (row 1 0 5 1 (pos 1) b) ∷ [])
        ∷ [] }
{}
