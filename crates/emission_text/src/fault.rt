use source_feed::RowWhy;
use window_defs::DefsFault;

/// Why a command ended without its result. Sources and shards are numbered from 0, records from 1.
#[derive(Clone, Copy, Debug, PartialEq, Eq)]
pub enum Fault {
    /// The words of the command line aren't in its grammar.
    Usage,
    /// The definitions were refused.
    Defs(DefsFault),
    /// A file couldn't be opened: the source at this place, or the definitions.
    Unopened {
        place: Option<u16>,
    },
    /// A record of a source was refused.
    Row {
        source: u16,
        number: u64,
        why: RowWhy,
    },
    /// A read failed: of the source at this place, or of the definitions.
    Read {
        place: Option<u16>,
    },
    /// A source has too many bytes.
    FullSource {
        source: u16,
    },
    /// More entries are routed to a shard than a journal takes.
    FullShard {
        shard: u16,
    },
    /// The report that is to be judged couldn't be opened.
    ReportOpen,
    /// A read of that report failed.
    ReportRead,
    /// That report has too many bytes.
    ReportFull,
    /// An allocation was refused.
    NoMemory,
}
