//! Watermarks of several sources.
ghost use Rattle.std.specs.Prelude.{◌≡◌, [], ◌∷◌, pos};
ghost use Rattle.stream_base.specs.Examples.{with_lateness, window, tuple, water, end, from, a, row, changes_of, waters_in};
ghost use Rattle.stream_base.specs.Model.Watermark.{water_of};
ghost use Rattle.stream_base.specs.declared.change.Change.TheVariants.{New};
ghost use Rattle.stream_base.specs.declared.func.Func.TheVariants.{Sum};
ghost use Rattle.stream_base.specs.declared.kind.Kind.TheVariants.{Tumbling};
ghost use Rattle.stream_base.specs.declared.what.What.TheVariants.{Water, End};

/// The watermark is the least of the sources': a source that lags holds it back.
#[tactic(auto, unfolding(stream_base::specs::Model::Opened::all_opened))]
pub fn lagging_source_holds_the_watermark_back()
    ensures silent { water_of 2 (record { source = 0; what = Water 20 } ∷ []) ≡ 0 }
    ensures behind { water_of 2
        (record { source = 0; what = Water 20 } ∷ record { source = 1; what = Water 10 } ∷ [])
        ≡ 10 }
    ensures ended { water_of 2
        (record { source = 0; what = End } ∷ record { source = 1; what = Water 10 } ∷ []) ≡ 10 }
{}

/// An entry of a source at or above the number of sources is passed over.
#[tactic(auto, unfolding(stream_base::specs::Model::Opened::all_opened))]
pub fn source_beyond_their_number_is_passed_over()
    ensures behind { waters_in 2 (from 0 (Water 20) ∷ from 1 (Water 10) ∷ from 2 (Water 5) ∷ [])
        ≡ 0 ∷ 10 ∷ 10 ∷ [] }
    ensures ahead { waters_in 2 (from 0 (Water 20) ∷ from 2 (Water 30) ∷ []) ≡ 0 ∷ 0 ∷ [] }
    ensures ended { waters_in 2 (from 2 End ∷ from 0 (Water 20) ∷ from 1 (Water 10) ∷ [])
        ≡ 0 ∷ 0 ∷ 10 ∷ [] }
{}

/// Of two sources the lagging one holds the windows back too.
#[tactic(auto, unfolding(stream_base::specs::Model::Opened::all_opened))]
pub fn lagging_source_holds_the_windows_back()
    ensures { changes_of 2 (with_lateness 0 (window (Tumbling 10) Sum ∷ []))
        (tuple 5 (pos 1) a ∷ from 0 (Water 20) ∷ from 1 (Water 9) ∷ from 1 (Water 10)
        ∷ from 0 (Water 30) ∷ from 1 End ∷ from 0 End ∷ [])
        ≡ [] ∷ [] ∷ [] ∷ (New (row 0 0 10 1 (pos 1) a) ∷ []) ∷ [] ∷ [] ∷ [] ∷ [] }
{}

/// A watermark below an earlier one of its source lowers nothing, though another source held the
/// journal's back until then; nor does one behind its end.
#[tactic(auto, unfolding(stream_base::specs::Model::Opened::all_opened))]
pub fn watermark_of_a_source_never_falls()
    ensures falls { waters_in 1 (water 10 ∷ water 3 ∷ water 11 ∷ []) ≡ 10 ∷ 10 ∷ 11 ∷ [] }
    ensures held_back { waters_in 2 (from 0 (Water 10) ∷ from 0 (Water 3) ∷ from 1 (Water 20) ∷ [])
        ≡ 0 ∷ 0 ∷ 10 ∷ [] }
    ensures behind_end { waters_in 1 (end ∷ water 3 ∷ [])
        ≡ 4611686018427387904 ∷ 4611686018427387904 ∷ [] }
{}
