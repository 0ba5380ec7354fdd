//! Laws of the rows that stand.
ghost use Rattle.std.specs.List.{Contains};
ghost use Rattle.std.specs.List.Sorted.{IsStrictlySortedBy};
ghost use Rattle.std.specs.Prelude.{◌≡◌, ◌↔◌, ◌+◌, ◌++◌, ℕ, true, List, [], ◌∷◌};
ghost use Rattle.model_laws.specs.Counts.{emitted_in, retracted_in, standing_count};
ghost use Rattle.model_laws.specs.Rows.{all_find, rows_after};
ghost use Rattle.stream_base.specs.Laws.{IsStandingRow, by_row};
ghost use Rattle.stream_base.specs.Limits.{Definitions, AreWithinLimits};
ghost use Rattle.stream_base.specs.Model.Changes.{changes_after, standing_rows};
ghost use Rattle.stream_base.specs.declared.entry.Entry.{Entry};
ghost use Rattle.stream_base.specs.declared.row.Row.{Row};

/// The rows that stand after a journal are exactly those of the instances that stand, of all keys
/// and windows. They are ordered by the bytes of their keys, then by window, start and end, each
/// once.
pub fn standing_rows_are_those_of_the_instances()
    ensures exactly { (d : Definitions) (sources : ℕ) (journal : List Entry) (row : Row)
        → Contains (standing_rows d sources journal) row ↔ IsStandingRow d sources journal row }
    ensures ordered { (d : Definitions) (sources : ℕ) (journal : List Entry) → AreWithinLimits d
        → IsStrictlySortedBy by_row (standing_rows d sources journal) }
{}

/// Nothing stands before the first entry. The rows that stand behind an entry are those before it,
/// less its retractions, with its emissions at their places in the order by key, window, start and
/// end, and each update in the place of the row that stood. An update changes how many there are as
/// little as a dropped entry.
pub fn changes_lead_to_what_stands()
    ensures first { (d : Definitions) (sources : ℕ) → standing_rows d sources [] ≡ [] }
    ensures next { (d : Definitions) (sources : ℕ) (before : List Entry) (e : Entry)
        → AreWithinLimits d
        → standing_rows d sources (before ++ e ∷ [])
        ≡ rows_after (standing_rows d sources before) (changes_after d sources before e) }
    ensures counted { (d : Definitions) (sources window : ℕ) (before : List Entry) (e : Entry)
        → AreWithinLimits d
        → standing_count d sources (before ++ e ∷ []) window
        + retracted_in window (changes_after d sources before e)
        ≡ standing_count d sources before window
        + emitted_in window (changes_after d sources before e) }
{}

/// Each change finds what it takes for granted in the rows that those before it left: a retraction
/// and an update a row in their place, an emission none.
pub fn changes_find_their_rows()
    ensures { (d : Definitions) (sources : ℕ) (before : List Entry) (e : Entry) → AreWithinLimits d
        → all_find (standing_rows d sources before) (changes_after d sources before e) ≡ true }
{}
