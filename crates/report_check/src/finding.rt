/// What is found of a report. The first that holds is found, in this order.
#[derive(Clone, Copy, Debug, PartialEq, Eq)]
pub enum Finding {
    /// None of the others holds: the report is that of its journals, and these hold each source's
    /// entries.
    Lawful,
    /// The bytes aren't the report of the journals in them. The first line in which they differ has
    /// this number, from 1; a line that only one of them has differs.
    Text { line: u64 },
    /// The report has this number of shards, and another was asked for.
    Shards { found: u64 },
    /// The first shard in which the entries of a source aren't those that belong there, and its
    /// first such source: the number of sources, where only entries of further sources are wrong.
    Journal { shard: u16, source: u16 },
}
