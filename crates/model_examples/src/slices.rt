//! Cuts, slices and what is settled.
ghost use Rattle.std.specs.Prelude.{◌≡◌, true, false, [], ◌∷◌, pos};
ghost use Rattle.stream_base.specs.Examples.{with_lateness, window, tuple, mark, water, end, a, kept, open_slices};
ghost use Rattle.stream_base.specs.Model.Changes.{moment_of};
ghost use Rattle.stream_base.specs.Model.Cuts.{has_cut};
ghost use Rattle.stream_base.specs.Model.Slices.{unsettled};
ghost use Rattle.stream_base.specs.declared.func.Func.TheVariants.{Sum};
ghost use Rattle.stream_base.specs.declared.kind.Kind.TheVariants.{Tumbling, Sliding, Session, Marks, Events};

/// A sliding window cuts at its ends too, which needn't be multiples of its slide; a mark cuts in
/// front of its time.
pub fn cuts_at_starts_ends_and_marks()
    ensures inside { has_cut (window (Sliding 5 3) Sum ∷ []) [] 6 7 ≡ false }
    ensures at_end { has_cut (window (Sliding 5 3) Sum ∷ []) [] 7 8 ≡ true }
    ensures at_start { has_cut (window (Sliding 5 3) Sum ∷ []) [] 5 6 ≡ true }
    ensures at_gap { has_cut (window (Session 5) Sum ∷ []) [] 2 7 ≡ true }
    ensures below_gap { has_cut (window (Session 5) Sum ∷ []) [] 2 6 ≡ false }
    ensures at_mark { has_cut (window Marks Sum ∷ []) (5 ∷ []) 4 5 ≡ true }
    ensures past_mark { has_cut (window Marks Sum ∷ []) (5 ∷ []) 5 6 ≡ false }
{}

/// With a lateness above 0 the interval up to the final time never settles, so a marks window keeps
/// its last tuples even when all sources have ended.
#[tactic(auto, unfolding(stream_base::specs::Model::Opened::all_opened))]
pub fn last_interval_settles_only_without_lateness()
    ensures late { unsettled (with_lateness 5 (window Marks Sum ∷ []))
        (moment_of (with_lateness 5 (window Marks Sum ∷ [])) 1 a (tuple 2 (pos 1) a ∷ end ∷ []))
        ≡ kept 0 2 (pos 1) ∷ [] }
    ensures strict { unsettled (with_lateness 0 (window Marks Sum ∷ []))
        (moment_of (with_lateness 0 (window Marks Sum ∷ [])) 1 a (tuple 2 (pos 1) a ∷ end ∷ []))
        ≡ [] }
{}

/// Tumbling: a tuple is settled once its window's end plus the lateness is within the watermark.
#[tactic(auto, unfolding(stream_base::specs::Model::Opened::all_opened))]
pub fn tumbling_tuple_settles_at_its_end_and_lateness()
    ensures at_first { open_slices (with_lateness 5 (window (Tumbling 10) Sum ∷ [])) a
        (tuple 1 (pos 1) a ∷ [])
        ≡ (kept 0 1 (pos 1) ∷ []) ∷ [] }
    ensures at_its_end { open_slices (with_lateness 5 (window (Tumbling 10) Sum ∷ [])) a
        (tuple 1 (pos 1) a ∷ water 10 ∷ []) ≡ (kept 0 1 (pos 1) ∷ []) ∷ [] }
    ensures a_tick_before { open_slices (with_lateness 5 (window (Tumbling 10) Sum ∷ [])) a
        (tuple 1 (pos 1) a ∷ water 14 ∷ []) ≡ (kept 0 1 (pos 1) ∷ []) ∷ [] }
    ensures settled { open_slices (with_lateness 5 (window (Tumbling 10) Sum ∷ [])) a
        (tuple 1 (pos 1) a ∷ water 15 ∷ []) ≡ [] }
{}

/// Sliding: two tuples with a start between them are two slices, and each settles at the last end
/// of the intervals that hold it.
#[tactic(auto, unfolding(stream_base::specs::Model::Opened::all_opened))]
pub fn sliding_tuples_settle_at_their_last_end()
    ensures at_first { open_slices (with_lateness 0 (window (Sliding 20 10) Sum ∷ [])) a
        (tuple 5 (pos 1) a ∷ tuple 15 (pos 2) a ∷ [])
        ≡ (kept 0 5 (pos 1) ∷ []) ∷ (kept 1 15 (pos 2) ∷ []) ∷ [] }
    ensures then { open_slices (with_lateness 0 (window (Sliding 20 10) Sum ∷ [])) a
        (tuple 5 (pos 1) a ∷ tuple 15 (pos 2) a ∷ water 20 ∷ []) ≡ (kept 1 15 (pos 2) ∷ []) ∷ [] }
    ensures settled { open_slices (with_lateness 0 (window (Sliding 20 10) Sum ∷ [])) a
        (tuple 5 (pos 1) a ∷ tuple 15 (pos 2) a ∷ water 20 ∷ water 30 ∷ []) ≡ [] }
{}

/// With windows of event counts alone, tuples are settled at once.
#[tactic(auto, unfolding(stream_base::specs::Model::Opened::all_opened))]
pub fn counted_tuples_are_settled_at_once()
    ensures waiting { open_slices (with_lateness 0 (window (Events 2) Sum ∷ [])) a
        (tuple 5 (pos 1) a ∷ []) ≡ [] }
    ensures full { open_slices (with_lateness 9 (window (Events 1) Sum ∷ [])) a
        (tuple 5 (pos 1) a ∷ []) ≡ [] }
{}

/// Two windows: a tuple is settled once it is in both.
#[tactic(auto, unfolding(stream_base::specs::Model::Opened::all_opened))]
pub fn tuple_settles_once_it_is_settled_in_each_window()
    ensures at_first { open_slices
        (with_lateness 0 (window (Tumbling 10) Sum ∷ window (Session 5) Sum ∷ [])) a
        (tuple 8 (pos 1) a ∷ []) ≡ (kept 0 8 (pos 1) ∷ []) ∷ [] }
    ensures in_one { open_slices
        (with_lateness 0 (window (Tumbling 10) Sum ∷ window (Session 5) Sum ∷ [])) a
        (tuple 8 (pos 1) a ∷ water 10 ∷ []) ≡ (kept 0 8 (pos 1) ∷ []) ∷ [] }
    ensures in_both { open_slices
        (with_lateness 0 (window (Tumbling 10) Sum ∷ window (Session 5) Sum ∷ [])) a
        (tuple 8 (pos 1) a ∷ water 10 ∷ water 13 ∷ []) ≡ [] }
{}

/// A mark settles what lies before it, where its time plus the lateness is within the watermark.
#[tactic(auto, unfolding(stream_base::specs::Model::Opened::all_opened))]
pub fn mark_settles_what_lies_before_it()
    ensures at_first { open_slices (with_lateness 0 (window Marks Sum ∷ [])) a
        (tuple 2 (pos 1) a ∷ [])
        ≡ (kept 0 2 (pos 1) ∷ []) ∷ [] }
    ensures no_mark { open_slices (with_lateness 0 (window Marks Sum ∷ [])) a
        (tuple 2 (pos 1) a ∷ water 10 ∷ [])
        ≡ (kept 0 2 (pos 1) ∷ []) ∷ [] }
    ensures settled { open_slices (with_lateness 0 (window Marks Sum ∷ [])) a
        (tuple 2 (pos 1) a ∷ water 10 ∷ mark 10 a ∷ []) ≡ [] }
{}

/// Tuples with no cut between them are one slice.
#[tactic(auto, unfolding(stream_base::specs::Model::Opened::all_opened))]
pub fn tuples_with_no_cut_between_are_one_slice()
    ensures { open_slices (with_lateness 0 (window (Tumbling 10) Sum ∷ window Marks Sum ∷ [])) a
        (tuple 4 (pos 2) a ∷ tuple 12 (pos 4) a ∷ tuple 1 (pos 1) a ∷ mark 15 a ∷ tuple 15 (pos 8) a
        ∷ [])
        ≡ (kept 2 1 (pos 1) ∷ kept 0 4 (pos 2) ∷ []) ∷ (kept 1 12 (pos 4) ∷ [])
        ∷ (kept 4 15 (pos 8) ∷ []) ∷ [] }
{}
