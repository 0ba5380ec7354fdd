//! The order of final rows.
ghost use Rattle.std.specs.Prelude.{◌≡◌, List};
ghost use Rattle.std.specs.List.Sorted.{IsPermutation, IsStrictlySortedBy};
ghost use Rattle.stream_base.specs.Laws.{by_row};
ghost use Rattle.stream_base.specs.Model.Final.{final_rows};
ghost use Rattle.stream_base.specs.declared.row.Row.{Row};
ghost use Rattle.source_feed.specs.Generated.{made_definitions};
ghost use Rattle.final_rows.specs.AtEnd.{AtEachEnd, AtEachGeneratedEnd};

use std::cmp::Ordering;
use stream_base::Row;

/// Brings rows into the order of the final rows: by the bytes of their keys, then by window, start
/// and end. It needs no memory. Where the rows are those that stand at the end in all shards, of
/// sources of which nothing is dropped and no key has two tuples of one time, they are then exactly
/// the final rows. The generated sources are such.
pub fn sort_rows(rows: &mut [Row])
    ensures moved { IsPermutation rows.old rows.new }
    ensures sorted { (ordered : List Row)
        → IsPermutation rows.old ordered → IsStrictlySortedBy by_row ordered
        → rows.new ≡ ordered }
    ensures at_the_end { AtEachEnd (λ d sources standing. rows.old ≡ standing
        → rows.new ≡ final_rows d sources) }
    ensures generated { AtEachGeneratedEnd (λ sources standing. rows.old ≡ standing
        → rows.new ≡ final_rows made_definitions sources) }
{
    rows.sort_unstable_by(|row, other| in_order(row, other));
}

// How two rows stand to each other.
fn in_order(row: &Row, other: &Row) -> Ordering
    ensures { result ≡ by_row row.now other.now }
{
    row.key
        .cmp(&other.key)
        .then(row.window.cmp(&other.window))
        .then(row.low.cmp(&other.low))
        .then(row.high.cmp(&other.high))
}
