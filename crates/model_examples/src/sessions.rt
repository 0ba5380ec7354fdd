//! Sessions.
ghost use Rattle.std.specs.Prelude.{◌≡◌, [], ◌∷◌, pos};
ghost use Rattle.stream_base.specs.Examples.{with_lateness, window, tuple, water, end, a, b, row, changes_in};
ghost use Rattle.stream_base.specs.declared.change.Change.TheVariants.{Gone, New};
ghost use Rattle.stream_base.specs.declared.func.Func.TheVariants.{Count, Sum};
ghost use Rattle.stream_base.specs.declared.kind.Kind.TheVariants.{Session};

/// Two tuples are in one session where their times differ by less than the gap, and not at the gap.
#[tactic(auto, unfolding(stream_base::specs::Model::Opened::all_opened))]
pub fn sessions_part_at_the_gap()
    ensures { changes_in (with_lateness 0 (window (Session 5) Count ∷ []))
        (tuple 0 (pos 1) a ∷ tuple 5 (pos 1) a ∷ tuple 0 (pos 1) b ∷ tuple 4 (pos 1) b ∷ end ∷ [])
        ≡ [] ∷ [] ∷ [] ∷ []
        ∷ (New (row 0 0 5 1 (pos 1) a) ∷ New (row 0 5 10 1 (pos 1) a) ∷ New (row 0 0 9 2 (pos 2) b)
        ∷ []) ∷ [] }
{}

/// A late tuple joins two sessions that stand: both are retracted, and the joined one is emitted.
#[tactic(auto, unfolding(stream_base::specs::Model::Opened::all_opened))]
pub fn late_tuple_joins_two_sessions()
    ensures { changes_in (with_lateness 20 (window (Session 5) Sum ∷ []))
        (tuple 0 (pos 1) a ∷ tuple 8 (pos 2) a ∷ water 13 ∷ tuple 4 (pos 4) a ∷ end ∷ [])
        ≡ [] ∷ [] ∷ (New (row 0 0 5 1 (pos 1) a) ∷ New (row 0 8 13 1 (pos 2) a) ∷ [])
        ∷ (Gone (row 0 0 5 1 (pos 1) a) ∷ Gone (row 0 8 13 1 (pos 2) a)
        ∷ New (row 0 0 13 3 (pos 7) a) ∷ []) ∷ [] ∷ [] }
{}

/// A session that grows past the watermark is retracted, and emitted again once it is complete.
#[tactic(auto, unfolding(stream_base::specs::Model::Opened::all_opened))]
pub fn session_reopens()
    ensures { changes_in (with_lateness 5 (window (Session 5) Sum ∷ []))
        (tuple 0 (pos 1) a ∷ water 5 ∷ tuple 3 (pos 2) a ∷ water 8 ∷ end ∷ [])
        ≡ [] ∷ (New (row 0 0 5 1 (pos 1) a) ∷ []) ∷ (Gone (row 0 0 5 1 (pos 1) a) ∷ [])
        ∷ (New (row 0 0 8 2 (pos 3) a) ∷ []) ∷ [] ∷ [] }
{}

/// Of two session windows all retractions come first, over both, and then the emissions.
#[tactic(auto, unfolding(stream_base::specs::Model::Opened::all_opened))]
pub fn retractions_of_all_windows_come_first()
    ensures { changes_in (with_lateness 20 (window (Session 5) Sum ∷ window (Session 6) Count ∷ []))
        (tuple 0 (pos 1) a ∷ tuple 8 (pos 2) a ∷ water 14 ∷ tuple 4 (pos 4) a ∷ [])
        ≡ [] ∷ []
        ∷ (New (row 0 0 5 1 (pos 1) a) ∷ New (row 0 8 13 1 (pos 2) a)
        ∷ New (row 1 0 6 1 (pos 1) a) ∷ New (row 1 8 14 1 (pos 1) a) ∷ [])
        ∷ (Gone (row 0 0 5 1 (pos 1) a) ∷ Gone (row 0 8 13 1 (pos 2) a)
        ∷ Gone (row 1 0 6 1 (pos 1) a) ∷ Gone (row 1 8 14 1 (pos 1) a)
        ∷ New (row 0 0 13 3 (pos 7) a) ∷ New (row 1 0 14 3 (pos 3) a) ∷ [])
        ∷ [] }
{}
