//! The rows that stand after a journal, and at the end of the sources.
ghost use Rattle.std.specs.Prelude.{◌≡◌, ◌++◌, [], ◌∷◌, codes, pos};
ghost use Rattle.stream_base.specs.Examples.{with_lateness, window, tuple, water, a, b, row, five_windows, two_lists, fourteen_rows};
ghost use Rattle.stream_base.specs.Model.Changes.{standing_rows};
ghost use Rattle.stream_base.specs.Model.Final.{final_rows, summary_of};
ghost use Rattle.stream_base.specs.declared.func.Func.TheVariants.{Count, Sum};
ghost use Rattle.stream_base.specs.declared.kind.Kind.TheVariants.{Tumbling};

/// The rows that stand after a journal: by key, then by window, and none of a window that isn't
/// complete.
#[tactic(auto, unfolding(stream_base::specs::Model::Opened::all_opened))]
pub fn rows_that_stand()
    ensures some { standing_rows
        (with_lateness 0 (window (Tumbling 10) Sum ∷ window (Tumbling 5) Count ∷ [])) 1
        (tuple 1 (pos 2) b ∷ tuple 3 (pos 1) a ∷ tuple 12 (pos 4) b ∷ water 10 ∷ [])
        ≡ row 0 0 10 1 (pos 1) a ∷ row 1 0 5 1 (pos 1) a ∷ row 0 0 10 1 (pos 2) b
        ∷ row 1 0 5 1 (pos 1) b ∷ [] }
    ensures none { standing_rows (with_lateness 0 (window (Tumbling 10) Sum ∷ [])) 1 [] ≡ [] }
{}

/// The rows at the end of two sources, over five windows and with a mark, and their summary: each
/// tuple and mark counts, whatever the watermarks. Of tuples at one time those of the first source
/// come first.
#[tactic(auto, unfolding(stream_base::specs::Model::Opened::all_opened))]
pub fn final_rows_of_two_sources()
    ensures rows { final_rows five_windows two_lists ≡ fourteen_rows }
    ensures summary { summary_of 4 5 (final_rows five_windows two_lists)
        ≡ codes "made 4\nwindow 0 2 4\n+ 0 0 10 1 4 b\nwindow 1 5 7\n+ 1 2 6 1 1 b\n"
        ++ codes "window 2 3 4\n+ 2 2 7 1 4/1 b\nwindow 3 3 4\n+ 3 0 end 1 4 b\n"
        ++ codes "window 4 1 2\n+ 4 0 2 2 8 a\nend\n" }
    ensures no_rows { summary_of 0 2 [] ≡ codes "made 0\nwindow 0 0 0\nwindow 1 0 0\nend\n" }
{}

/// A summary tells how many tuples were made, however many rows there are, and has a line for each
/// window, whether the window has rows or not.
#[tactic(auto, unfolding(stream_base::specs::Model::Opened::all_opened))]
pub fn summaries_of_few_rows()
    ensures none { summary_of 3 2 [] ≡ codes "made 3\nwindow 0 0 0\nwindow 1 0 0\nend\n" }
    ensures no_window { summary_of 3 0 [] ≡ codes "made 3\nend\n" }
    ensures one { summary_of 3 3 (row 1 0 10 2 (pos 5) a ∷ [])
        ≡ codes "made 3\nwindow 0 0 0\nwindow 1 1 2\n+ 1 0 10 2 5 a\nwindow 2 0 0\nend\n" }
{}
