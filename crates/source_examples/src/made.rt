//! Generated sources, and the summary of what stands at their end.
ghost use Rattle.std.specs.Prelude.{◌≡◌, ◌++◌, [], ◌∷◌, codes, length, pos, negsuc};
ghost use Rattle.stream_base.specs.Examples.{tuple, end, from};
ghost use Rattle.stream_base.specs.Model.Final.{final_rows, summary_of};
ghost use Rattle.stream_base.specs.declared.what.What.TheVariants.{Tuple, End};
ghost use Rattle.source_feed.specs.Generated.{made_definitions, made_sources, made_windows};

/// Two sources of seed 0 take turns. The first number that is drawn is 167951807: so the first
/// tuple has the time 15, the value 742 and the key `k25`.
#[tactic(auto, unfolding(crate::proofs::Opened::generated_opened))]
pub fn two_generated_sources()
    ensures { made_sources 0 4 2
        ≡ (tuple 15 (pos 742) (codes "k25") ∷ tuple 33 (negsuc 480) (codes "k70") ∷ end ∷ [])
        ∷ (from 1 (Tuple (codes "k64") 24 (negsuc 44)) ∷ from 1 (Tuple (codes "k94") 52 (pos 416))
        ∷ from 1 End ∷ []) ∷ [] }
{}

/// The summary of the first tuple alone. The window of event counts has no row, and so its count
/// and sum are 0, and no row is told.
#[tactic(auto, unfolding(stream_base::specs::Model::Opened::all_opened, crate::proofs::Opened::generated_opened))]
pub fn summary_of_one_tuple()
    ensures { summary_of 1 (length made_windows) (final_rows made_definitions (made_sources 0 1 1))
        ≡ codes "made 1\nwindow 0 1 1\n+ 0 0 64 1 742 k25\nwindow 1 1 1\n+ 1 0 128 1 742 k25\n"
        ++ codes "window 2 1 1\n+ 2 15 55 1 1 k25\nwindow 3 1 1\n+ 3 0 end 1 742 k25\n"
        ++ codes "window 4 0 0\nend\n" }
{}
