//! The answer of the program, read back from its line.

use emission_text::Fault;
use report_check::Finding;
use source_feed::RowWhy;
use window_defs::DefsFault;

/// What the program answered in place of a report.
#[derive(Clone, Copy, Debug, PartialEq, Eq)]
pub enum Said {
    Fault(Fault),
    Finding(Finding),
}

/// The fault or finding whose line this is, if it is one.
pub fn said_in(line: &[u8]) -> Option<Said> {
    let (first, rest) = split_word(line);
    match first {
        b"fault" => fault_in(rest).map(|fault| Said::Fault(fault)),
        b"unlawful" => finding_in(rest).map(|finding| Said::Finding(finding)),
        _ => None,
    }
}

fn fault_in(words: &[u8]) -> Option<Fault> {
    let (kind, rest) = split_word(words);
    match kind {
        b"usage" => Some(Fault::Usage),
        b"defs" => defs_fault_in(rest).map(|fault| Fault::Defs(fault)),
        b"open" => Some(opened(rest)),
        b"read" => Some(read(rest)),
        b"row" => row_in(rest),
        b"full" => full_in(rest),
        b"memory" => Some(Fault::NoMemory),
        _ => None,
    }
}

fn defs_fault_in(words: &[u8]) -> Option<DefsFault> {
    let (kind, rest) = split_word(words);
    let window = window_in(rest);
    match kind {
        b"long" => Some(DefsFault::Long),
        b"toml" => Some(DefsFault::Toml),
        b"many" => Some(DefsFault::Many),
        b"shape" => Some(DefsFault::Shape { window }),
        b"limit" => Some(DefsFault::Limit { window }),
        _ => None,
    }
}

fn opened(words: &[u8]) -> Fault {
    match split_word(words).0 {
        b"report" => Fault::ReportOpen,
        place => Fault::Unopened {
            place: small_in(place),
        },
    }
}

fn read(words: &[u8]) -> Fault {
    match split_word(words).0 {
        b"report" => Fault::ReportRead,
        place => Fault::Read {
            place: small_in(place),
        },
    }
}

fn row_in(words: &[u8]) -> Option<Fault> {
    let (source, rest) = split_word(words);
    let (number, rest) = split_word(rest);
    Some(Fault::Row {
        source: small_in(source)?,
        number: number_in(number)?,
        why: why_in(split_word(rest).0)?,
    })
}

fn why_in(word: &[u8]) -> Option<RowWhy> {
    match word {
        b"kind" => Some(RowWhy::Kind),
        b"fields" => Some(RowWhy::Fields),
        b"time" => Some(RowWhy::Time),
        b"value" => Some(RowWhy::Value),
        b"key" => Some(RowWhy::Key),
        _ => None,
    }
}

fn full_in(words: &[u8]) -> Option<Fault> {
    let (what, rest) = split_word(words);
    let place = split_word(rest).0;
    match what {
        b"source" => small_in(place).map(|source| Fault::FullSource { source }),
        b"shard" => small_in(place).map(|shard| Fault::FullShard { shard }),
        b"report" => Some(Fault::ReportFull),
        _ => None,
    }
}

fn finding_in(words: &[u8]) -> Option<Finding> {
    let (kind, rest) = split_word(words);
    let (first, rest) = split_word(rest);
    match kind {
        b"text" => number_in(first).map(|line| Finding::Text { line }),
        b"shards" => number_in(first).map(|found| Finding::Shards { found }),
        b"journal" => journal_in(first, split_word(rest).0),
        _ => None,
    }
}

fn journal_in(shard: &[u8], source: &[u8]) -> Option<Finding> {
    Some(Finding::Journal {
        shard: small_in(shard)?,
        source: small_in(source)?,
    })
}

fn window_in(words: &[u8]) -> Option<u32> {
    u32::try_from(number_in(split_word(words).0)?).ok()
}

fn small_in(word: &[u8]) -> Option<u16> {
    u16::try_from(number_in(word)?).ok()
}

fn number_in(word: &[u8]) -> Option<u64> {
    match str::from_utf8(word) {
        Ok(word) => word.parse::<u64>().ok(),
        Err(_) => None,
    }
}

/// The bytes up to the first space or line feed, and those behind it.
pub fn split_word(text: &[u8]) -> (&[u8], &[u8]) {
    match text.iter().position(|byte| *byte == b' ' || *byte == b'\n') {
        Some(at) => (&text[..at], &text[at + 1..]),
        None => (text, &[]),
    }
}
