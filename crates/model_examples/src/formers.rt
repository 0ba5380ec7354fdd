//! What stood before: the former values of report 2.
ghost use Rattle.std.specs.Prelude.{◌≡◌, ◌++◌, [], ◌∷◌, codes, pos, negsuc};
ghost use Rattle.stream_base.specs.Examples.{with_lateness, window, a, row, mean_row, former, mean_former, updated_journal};
ghost use Rattle.stream_base.specs.Model.Journals.{journals_of};
ghost use Rattle.stream_base.specs.Model.Text.{report_1, report_2, change_lines, report_of};
ghost use Rattle.stream_base.specs.declared.change.Change.TheVariants.{Gone, New, Again, Dropped};
ghost use Rattle.stream_base.specs.declared.func.Func.TheVariants.{Sum};
ghost use Rattle.stream_base.specs.declared.kind.Kind.TheVariants.{Tumbling};

/// In report 2 a retraction has the row that stood, and an update the number and value that stood
/// before its key; in report 1 neither has.
#[tactic(auto, unfolding(stream_base::specs::Model::Opened::all_opened))]
pub fn lines_of_changes_in_both_forms()
    ensures updated { change_lines report_2 (Again (row 0 0 10 2 (pos 3) a) (former 1 (pos 1)) ∷ [])
        ≡ codes "~ 0 0 10 2 3 1 1 a\n" }
    ensures joined { change_lines report_2
        (Gone (row 0 0 5 1 (pos 1) a) ∷ Gone (row 0 8 13 1 (pos 2) a)
        ∷ New (row 0 0 13 3 (pos 7) a) ∷ [])
        ≡ codes "- 0 0 5 1 1 a\n- 0 8 13 1 2 a\n+ 0 0 13 3 7 a\n" }
    ensures split { change_lines report_2
        (Gone (row 0 0 10 2 (pos 3) a) ∷ New (row 0 0 6 1 (pos 1) a)
        ∷ New (row 0 6 10 1 (pos 2) a) ∷ [])
        ≡ codes "- 0 0 10 2 3 a\n+ 0 0 6 1 1 a\n+ 0 6 10 1 2 a\n" }
    ensures shifted { change_lines report_2 (Again (row 0 0 2 2 (pos 17) a) (former 2 (pos 3))
        ∷ Again (row 0 2 4 2 (pos 6) a) (former 2 (pos 12)) ∷ [])
        ≡ codes "~ 0 0 2 2 17 2 3 a\n~ 0 2 4 2 6 2 12 a\n" }
    ensures means { change_lines report_2
        (Again (mean_row 1 0 4611686018427387904 2 (negsuc 2) a) (mean_former 1 (pos 1)) ∷ [])
        ≡ codes "~ 1 0 end 2 -3/2 1 1/1 a\n" }
    ensures left_out { change_lines report_1 (Gone (row 0 0 10 2 (pos 3) a)
        ∷ Again (mean_row 1 0 4611686018427387904 2 (negsuc 2) a) (mean_former 1 (pos 1)) ∷ Dropped
        ∷ [])
        ≡ codes "- 0 0 10 a\n~ 1 0 end 2 -3/2 a\nx\n" }
{}

/// The whole text of report 2, and the journal that is read back from it.
#[tactic(auto, unfolding(stream_base::specs::Model::Opened::all_opened))]
pub fn report_2_of_an_update()
    ensures text { report_of report_2 (with_lateness 5 (window (Tumbling 10) Sum ∷ [])) 1
        (updated_journal ∷ [])
        ≡ codes "report 2\nshard 0\nj 0 t 1 1 a\nj 0 w 10\n+ 0 0 10 1 1 a\nj 0 t 5 2 a\n"
        ++ codes "~ 0 0 10 2 3 1 1 a\nj 0 t 4 3 a\nx\nj 0 e\nend\n" }
    ensures read_back { journals_of
        (codes "report 2\nshard 0\nj 0 t 1 1 a\nj 0 w 10\n+ 0 0 10 1 1 a\nj 0 t 5 2 a\n"
        ++ codes "~ 0 0 10 2 3 1 1 a\nj 0 t 4 3 a\nx\nj 0 e\nend\n") ≡ updated_journal ∷ [] }
{}
