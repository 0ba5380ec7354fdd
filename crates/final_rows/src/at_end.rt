//! What stands at the end, as a law of the definitions.
ghost use Rattle.std.specs.Prelude.{◌≡◌, ◌≤◌, ◌<◌, ℕ, List, [], length, slice_index_or};
ghost use Rattle.std.specs.List.Sorted.{IsPermutation, IsStrictlySortedBy};
ghost use Rattle.stream_base.specs.Laws.{by_row};
ghost use Rattle.stream_base.specs.Limits.{AreWithinLimits, Definitions};
ghost use Rattle.stream_base.specs.Model.Changes.{standing_rows};
ghost use Rattle.stream_base.specs.Model.Final.{final_rows};
ghost use Rattle.stream_base.specs.declared.entry.Entry.{Entry};
ghost use Rattle.final_rows.specs.AtEnd.{AreUntied, KeepAll, rows_of_shard, rows_of_shards};

/// In lawful journals of which nothing is dropped, where each source has its end and no key has two
/// tuples of one time, the rows that stand in a shard are exactly the final rows of its keys, in
/// their order; those of all shards are the final rows, each once. So they are one and the same for
/// any number of shards and in every schedule. The final rows are ordered by the bytes of their
/// keys, then by window, start and end.
pub fn rows_at_the_end_are_the_final_rows()
    ensures of_a_shard { (d : Definitions) (shards k : ℕ) (sources journals : List (List Entry))
        → AreUntied sources → KeepAll d.lateness shards sources journals → k < shards
        → standing_rows d (length sources) (slice_index_or journals k [])
        ≡ rows_of_shard shards k (final_rows d sources) }
    ensures of_all_shards { (d : Definitions) (shards : ℕ) (sources journals : List (List Entry))
        → 1 ≤ shards → AreUntied sources → KeepAll d.lateness shards sources journals
        → IsPermutation (rows_of_shards d (length sources) journals) (final_rows d sources) }
    ensures in_every_schedule { (d : Definitions) (shards more : ℕ)
        (sources journals others : List (List Entry))
        → 1 ≤ shards → 1 ≤ more → AreUntied sources
        → KeepAll d.lateness shards sources journals → KeepAll d.lateness more sources others
        → IsPermutation (rows_of_shards d (length sources) journals)
        (rows_of_shards d (length sources) others) }
    ensures in_order { (d : Definitions) (sources : List (List Entry))
        → AreWithinLimits d → AreUntied sources
        → IsStrictlySortedBy by_row (final_rows d sources) }
{}
