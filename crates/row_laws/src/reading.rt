//! A report's text tells what stands.
ghost use Rattle.std.specs.Prelude.{◌≡◌, ◌≤◌, ℕ, Bool, true, List, length, map, All};
ghost use Rattle.report_laws.specs.ReadBack.{AreWithin};
ghost use Rattle.stream_base.specs.Limits.{Definitions, AreWithinLimits};
ghost use Rattle.stream_base.specs.Model.Changes.{standing_rows};
ghost use Rattle.stream_base.specs.Model.Journals.{AreEntriesWithin};
ghost use Rattle.stream_base.specs.Model.Text.{report_of};
ghost use Rattle.stream_base.specs.declared.entry.Entry.{Entry};
ghost use Rattle.stream_base.specs.declared.limits.TheConstants.{JOURNAL_MAX};
ghost use Rattle.row_laws.specs.Fitting.{is_row_fit};
ghost use Rattle.row_laws.specs.Reading.{form_of};
ghost use Rattle.row_laws.specs.Told.{read_text, tells};

/// A report's lines tell the journals in it, and of each the rows that stand behind it, in either
/// form, whatever the definitions within the limits. So no line of a report is refused: none is out of
/// its place, none is lacking, and each change finds the rows that it takes for granted.
pub fn report_tells_what_stands()
    ensures { (full : Bool) (d : Definitions) (sources : ℕ) (journals : List (List Entry))
        → AreWithinLimits d → AreWithin journals
        → All (λ journal. length journal ≤ JOURNAL_MAX) journals
        → read_text (report_of (form_of full) d sources journals)
        ≡ tells (map (λ journal. record {
          journal = journal;
          rows = standing_rows d sources journal;
        }) journals) }
{}

/// What stands fits the fields of a row: its key is a key, its window a number of 32 bits, its
/// start, end and number are of 64 bits, and its value of 128, or such a sum over a count of 64.
pub fn standing_rows_fit()
    ensures { (d : Definitions) (sources : ℕ) (journal : List Entry)
        → AreWithinLimits d → AreEntriesWithin journal → length journal ≤ JOURNAL_MAX
        → All (λ row. is_row_fit row ≡ true) (standing_rows d sources journal) }
{}
