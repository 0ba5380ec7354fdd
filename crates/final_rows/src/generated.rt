//! The generated input.
ghost use Rattle.std.specs.Prelude.{◌≡◌, ◌≤◌, ℕ, List, length};
ghost use Rattle.std.specs.List.Sorted.{IsPermutation};
ghost use Rattle.stream_base.specs.Limits.{AreWithinLimits};
ghost use Rattle.stream_base.specs.Model.Final.{final_rows};
ghost use Rattle.stream_base.specs.Model.Routes.{IsLawful};
ghost use Rattle.stream_base.specs.declared.entry.Entry.{Entry};
ghost use Rattle.source_feed.specs.Generated.{made_definitions, made_sources};
ghost use Rattle.source_feed.specs.declared.made_feed.TheConstants.{MADE_ROWS_MAX};
ghost use Rattle.final_rows.specs.AtEnd.{AreUntied, KeepAll, rows_of_shards};

/// Of the generated sources each has its end, no two tuples have one time, and in lawful journals
/// of them nothing is dropped, since within a source a tuple lies less than 128 behind each earlier
/// one. So under their definitions the rows that stand at the end are one and the same for any
/// number of shards and in every schedule.
pub fn generated_sources_have_one_result()
    ensures untied { (seed rows sources : ℕ) → rows ≤ MADE_ROWS_MAX
        → AreUntied (made_sources seed rows sources) }
    ensures kept { (seed rows sources shards : ℕ) (journals : List (List Entry))
        → rows ≤ MADE_ROWS_MAX → IsLawful shards (made_sources seed rows sources) journals
        → KeepAll (made_definitions).lateness shards (made_sources seed rows sources) journals }
    ensures one_result { (seed rows sources shards : ℕ) (journals : List (List Entry))
        → rows ≤ MADE_ROWS_MAX → 1 ≤ shards
        → IsLawful shards (made_sources seed rows sources) journals
        → IsPermutation (rows_of_shards made_definitions sources journals)
        (final_rows made_definitions (made_sources seed rows sources)) }
    ensures limits { AreWithinLimits made_definitions }
    ensures count { (seed rows sources : ℕ) → length (made_sources seed rows sources) ≡ sources }
{}
