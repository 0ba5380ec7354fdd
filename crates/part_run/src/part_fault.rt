use emission_text::Fault;

/// Why a command ended without its result. Reports are numbered from 0.
#[derive(Clone, Copy, Debug, PartialEq, Eq)]
pub enum PartFault {
    /// The words, the definitions, the source or a report stopped it, or memory ran out. In such a
    /// fault a report counts as the source of its number.
    Run(Fault),
    /// The part would have more bytes than a source may have.
    LongPart,
    /// The text of the definitions of parts isn't read back as they are.
    UnreadDefs,
    /// A report isn't the report of one shard.
    NotReport { report: u16 },
    /// The entry of this number, from 1, is the first of its report that doesn't go to the shard.
    Misplaced { report: u16, number: u64 },
}
