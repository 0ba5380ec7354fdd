//! Laws of the text with tails, each as the contract of a function that does nothing.
ghost use Rattle.std.specs.Prelude.{◌≡◌, ◌++◌, ℕ, List, [], ◌∷◌, map};
ghost use Rattle.stream_base.specs.Model.Journals.{AreEntriesWithin, journals_of};
ghost use Rattle.stream_base.specs.declared.entry.Entry.{Entry};
ghost use Rattle.report_laws.specs.ReadBack.{AreOtherLines, AreWithin};
ghost use Rattle.tail_windows.specs.Report.{tail_report_of, tails_under};
ghost use Rattle.tail_windows.specs.declared.def.TailDef.{TailDef};
ghost use Rattle.tail_text.specs.Texts.{tail_changes_in, tails_text};

/// With the changes of the definitions beside their entries, the text of journals is their report.
pub fn text_with_the_changes_of_journals_is_their_report()
    ensures { (def : TailDef) (lateness sources : ℕ) (journals : List (List Entry))
        → tails_text journals (map (tail_changes_in def lateness sources) journals)
        ≡ tail_report_of def lateness sources journals }
{}

/// The lines of the changes under an entry are told from those of journals.
pub fn lines_of_tails_are_other_lines()
    ensures { (def : TailDef) (lateness sources : ℕ) (before : List Entry) (entry : Entry)
        → AreEntriesWithin (before ++ entry ∷ [])
        → AreOtherLines (tails_under def lateness sources before entry) }
{}

/// The journals are read back from their report.
pub fn journals_are_read_back_from_their_tail_report()
    ensures { (def : TailDef) (lateness sources : ℕ) (journals : List (List Entry))
        → AreWithin journals
        → journals_of (tail_report_of def lateness sources journals) ≡ journals }
{}
