//! A report holds its journals: they are read back from its text.
ghost use Rattle.std.specs.Prelude.{◌≡◌, ◌<◌, ◌^◌, ◌↔◌, ◌++◌, ℕ, true, List, [], ◌∷◌, Some, All, codes, decimal};
ghost use Rattle.stream_base.specs.Limits.{Definitions};
ghost use Rattle.stream_base.specs.Model.Journals.{is_entry_within, entry_in, is_header, journals_of, AreEntriesWithin};
ghost use Rattle.stream_base.specs.Model.Text.{line_of, entry_line, Form, report_1, report_2, change_lines, text_of, changes_under, report_of};
ghost use Rattle.report_laws.specs.ReadBack.{AreWithin, AreOtherLines, AreOtherLinesUnder, is_change_within, IsToldFromJournals};
ghost use Rattle.stream_base.specs.declared.change.Change.{Change};
ghost use Rattle.stream_base.specs.declared.entry.Entry.{Entry};

/// The journals are read back from their text, whatever stands in front of it and under the
/// entries, as long as it is whole lines none of which begins as a header or an entry's line does.
pub fn journals_are_read_back_from_their_text()
    ensures { (front : List ℕ) (under : List Entry → Entry → List ℕ) (journals : List (List Entry))
        → AreOtherLines front → AreWithin journals → All (AreOtherLinesUnder under []) journals
        → journals_of (front ++ text_of under journals) ≡ journals }
{}

/// Both forms of the report have such lines alone beside those of the journals.
pub fn both_forms_are_told_from_journals()
    ensures one { IsToldFromJournals report_1 }
    ensures two { IsToldFromJournals report_2 }
{}

/// So are the lines of changes, in such a form.
pub fn lines_of_changes_are_other_lines()
    ensures { (form : Form) (changes : List Change) → IsToldFromJournals form
        → All (λ change. is_change_within change ≡ true) changes
        → AreOtherLines (change_lines form changes) }
{}

/// So are those of the changes that stand in a report under an entry.
pub fn lines_of_changes_under_an_entry_are_other_lines()
    ensures { (form : Form) (d : Definitions) (sources : ℕ) (before : List Entry) (entry : Entry)
        → IsToldFromJournals form → AreEntriesWithin (before ++ entry ∷ [])
        → AreOtherLines (changes_under form d sources before entry) }
{}

/// The journals are read back from their report, in either form.
pub fn journals_are_read_back_from_their_report()
    ensures { (form : Form) (d : Definitions) (sources : ℕ) (journals : List (List Entry))
        → IsToldFromJournals form → AreWithin journals
        → journals_of (report_of form d sources journals) ≡ journals }
{}

/// Different journals have different reports, under whatever definitions and in whatever forms.
pub fn reports_of_different_journals_differ()
    ensures { (form other : Form) (d e : Definitions) (m n : ℕ)
        (journals others : List (List Entry))
        → IsToldFromJournals form → IsToldFromJournals other → AreWithin journals → AreWithin others
        → report_of form d m journals ≡ report_of other e n others → journals ≡ others }
{}

/// A line holds an entry exactly where it is that entry's line, by the letter, and the entry is
/// within the limits.
pub fn line_holds_the_entry_that_it_spells()
    ensures { (line : List ℕ) (entry : Entry)
        → (entry_in line ≡ Some entry)
        ↔ ((entry_line entry ≡ line ++ 10 ∷ []) × (is_entry_within entry ≡ true)) }
{}

/// A line is a shard's header exactly where it is the word and a number below 2^64, by the letter.
pub fn line_is_the_header_that_it_spells()
    ensures { (line : List ℕ)
        → (is_header line ≡ true)
        ↔ ((number : ℕ) × (number < 2 ^ 64)
        × (line_of (codes "shard" ∷ decimal number ∷ []) ≡ line ++ 10 ∷ [])) }
{}

/// Each entry that is read back from any text is within the limits.
pub fn journals_read_back_are_within_the_limits()
    ensures { (text : List ℕ) → All AreEntriesWithin (journals_of text) }
{}
