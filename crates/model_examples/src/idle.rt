//! Sources that say that they are idle.
ghost use Rattle.std.specs.Prelude.{◌≡◌, ◌++◌, [], ◌∷◌, codes, pos};
ghost use Rattle.stream_base.specs.Examples.{with_lateness, window, tuple, water, idle, end, from, a, row, two_sources, changes_of, changes_in, waters_in};
ghost use Rattle.stream_base.specs.Model.Text.{report_1, report_of};
ghost use Rattle.stream_base.specs.declared.change.Change.TheVariants.{New, Dropped};
ghost use Rattle.stream_base.specs.declared.func.Func.TheVariants.{Sum};
ghost use Rattle.stream_base.specs.declared.kind.Kind.TheVariants.{Tumbling};
ghost use Rattle.stream_base.specs.declared.what.What.TheVariants.{Tuple, Mark, Water, Idle, End};

/// A source that is idle holds the watermark back no longer; it does again from its next watermark
/// on, but what was reached stays. Tuples don't wake it, and are late by the watermark that holds.
#[tactic(auto, unfolding(stream_base::specs::Model::Opened::all_opened))]
pub fn idle_and_awake_step_by_step()
    ensures waters { waters_in 2 two_sources
        ≡ 0 ∷ 0 ∷ 20 ∷ 20 ∷ 20 ∷ 20 ∷ 20 ∷ 20 ∷ 30 ∷ 30 ∷ 4611686018427387904 ∷ [] }
    ensures changes { changes_of 2 (with_lateness 0 (window (Tumbling 10) Sum ∷ [])) two_sources
        ≡ [] ∷ []
        ∷ (New (row 0 0 10 1 (pos 1) a) ∷ [])
        ∷ []
        ∷ (Dropped ∷ [])
        ∷ [] ∷ [] ∷ []
        ∷ (New (row 0 20 30 1 (pos 4) a) ∷ [])
        ∷ [] ∷ [] ∷ [] }
{}

/// An idle source holds the watermark back no longer, whether it had a watermark or not, and a
/// tuple or mark of its own leaves it idle.
#[tactic(auto, unfolding(stream_base::specs::Model::Opened::all_opened))]
pub fn idle_source_no_longer_holds_the_watermark_back()
    ensures silent { waters_in 2 (from 0 (Water 20) ∷ from 1 Idle ∷ []) ≡ 0 ∷ 20 ∷ [] }
    ensures behind { waters_in 2 (from 1 (Water 10) ∷ from 0 (Water 20) ∷ from 1 Idle ∷ [])
        ≡ 0 ∷ 10 ∷ 20 ∷ [] }
    ensures idle_still { waters_in 2 (from 0 (Water 20) ∷ from 1 Idle ∷ from 1 (Tuple a 25 (pos 1))
        ∷ from 1 (Mark a 26) ∷ from 0 (Water 30) ∷ []) ≡ 0 ∷ 20 ∷ 20 ∷ 20 ∷ 30 ∷ [] }
{}

/// Where everybody is idle the watermark stays where it was.
#[tactic(auto, unfolding(stream_base::specs::Model::Opened::all_opened))]
pub fn everybody_idle_leaves_the_watermark()
    ensures stays { waters_in 2 (from 0 (Water 20) ∷ from 1 Idle ∷ from 0 Idle ∷ [])
        ≡ 0 ∷ 20 ∷ 20 ∷ [] }
    ensures at_once { waters_in 2 (from 0 Idle ∷ from 1 Idle ∷ []) ≡ 0 ∷ 0 ∷ [] }
    ensures ended { waters_in 2
        (from 0 (Water 20) ∷ from 1 (Water 10) ∷ from 0 End ∷ from 1 Idle ∷ [])
        ≡ 0 ∷ 10 ∷ 10 ∷ 10 ∷ [] }
{}

/// The watermark is final only once all sources have ended: an idle one that hasn't keeps it.
#[tactic(auto, unfolding(stream_base::specs::Model::Opened::all_opened))]
pub fn final_only_once_all_have_ended()
    ensures idle { waters_in 2 (from 0 End ∷ from 1 Idle ∷ from 1 End ∷ [])
        ≡ 0 ∷ 0 ∷ 4611686018427387904 ∷ [] }
    ensures awake { waters_in 2 (from 0 End ∷ from 1 (Water 10) ∷ from 1 End ∷ [])
        ≡ 0 ∷ 10 ∷ 4611686018427387904 ∷ [] }
{}

/// The watermark that wakes a source can raise the journal's, even where it repeats an earlier one.
#[tactic(auto, unfolding(stream_base::specs::Model::Opened::all_opened))]
pub fn waking_watermark_can_raise_the_watermark()
    ensures { waters_in 2 (from 0 (Water 20) ∷ from 1 (Water 10) ∷ from 0 Idle ∷ from 1 Idle
        ∷ from 0 (Water 20) ∷ from 1 (Water 3) ∷ from 0 (Water 40) ∷ [])
        ≡ 0 ∷ 10 ∷ 10 ∷ 10 ∷ 20 ∷ 20 ∷ 20 ∷ [] }
{}

/// Of one source, idle for a while: a later tuple counts as it would have without that word.
#[tactic(auto, unfolding(stream_base::specs::Model::Opened::all_opened))]
pub fn idle_for_a_while()
    ensures changes { changes_in (with_lateness 0 (window (Tumbling 10) Sum ∷ []))
        (tuple 1 (pos 5) a ∷ idle ∷ water 0 ∷ tuple 4 (pos 7) a ∷ water 10 ∷ end ∷ [])
        ≡ [] ∷ [] ∷ [] ∷ [] ∷ (New (row 0 0 10 2 (pos 12) a) ∷ []) ∷ [] ∷ [] }
    ensures text { report_of report_1 (with_lateness 0 (window (Tumbling 10) Sum ∷ [])) 1
        ((tuple 1 (pos 5) a ∷ idle ∷ water 0 ∷ tuple 4 (pos 7) a ∷ water 10 ∷ end ∷ []) ∷ [])
        ≡ codes "shard 0\nj 0 t 1 5 a\nj 0 i\nj 0 w 0\nj 0 t 4 7 a\nj 0 w 10\n"
        ++ codes "+ 0 0 10 2 12 a\nj 0 e\nend\n" }
{}
