//! What stands in a row.
use crate::list::{elements, elements_at, flag, has, number, table_at, text};
use toml::{Table, Value};

/// A row: commands that all end with one status and have then written one text.
///
/// | Key | What |
/// |---|---|
/// | `shows` | what the row shows |
/// | `commands` | commands as they are typed: words with a blank between each two |
/// | `files` | the text of each file by its name; `d` and `s` are there where they aren't named |
/// | `behind` | the text of each file that stands behind all these, by its name, which one of them may have too |
/// | `refused` | names of files that can't be opened |
/// | `failing` | by the name of a file, the numbers from 0 of its reads that fail |
/// | `unwritten` | the numbers, from 0, of the writes that fail |
/// | `piece` | how many bytes a read or a write takes at most: 8 where it is missing |
/// | `room` | how many bytes can be written: 60,000 where it is missing |
/// | `status`, `text` | how the commands end |
/// | `any_order` | whether the lines of the text may come in any order |
/// | `opens` | the names that are to be opened, in order, each with what becomes of it: a word of `Fate` |
/// | `each_read`, `each_write` | reads and writes that fail one by one |
///
/// Texts are those that `spelled` makes of them.
#[derive(Clone, Copy)]
pub struct Row<'a> {
    pub shows: &'a str,
    pub commands: &'a [Value],
    pub files: Option<&'a Table>,
    pub behind: Option<&'a Table>,
    pub devices: Devices<'a>,
    pub answer: Answer<'a>,
    pub opens: Option<&'a [Value]>,
    pub each_read: Option<EachRead<'a>>,
    pub each_write: u64,
}

impl Row<'_> {
    /// How many reads fail one by one.
    pub fn failing_reads(&self) -> u64 {
        match self.each_read {
            Some(each) => each.many,
            None => 0,
        }
    }

    /// Whether the reads of a file fail one by one.
    pub fn fails_one_by_one(&self, name: &str) -> bool {
        match self.each_read {
            Some(each) => has(each.of, name),
            None => false,
        }
    }
}

/// What fails in each run of a row, and how much fits.
#[derive(Clone, Copy)]
pub struct Devices<'a> {
    pub refused: &'a [Value],
    pub failing: Option<&'a Table>,
    pub unwritten: &'a [Value],
    pub piece: u64,
    pub room: u64,
}

/// How a run ends.
#[derive(Clone, Copy)]
pub struct Answer<'a> {
    pub status: u64,
    pub text: &'a str,
    pub any_order: bool,
}

/// In the run of each number below `many`, the read of that number fails of each of these files, and
/// the run ends so. In the run behind them no read fails.
#[derive(Clone, Copy)]
pub struct EachRead<'a> {
    pub of: &'a [Value],
    pub many: u64,
    pub answer: Answer<'a>,
}

const KEYS: [&str; 15] = [
    "shows",
    "commands",
    "files",
    "behind",
    "refused",
    "failing",
    "unwritten",
    "piece",
    "room",
    "status",
    "text",
    "any_order",
    "opens",
    "each_read",
    "each_write",
];

/// The row of a table, or none where something is missing, of another type or unknown.
pub fn row_of(table: &Table) -> Option<Row<'_>> {
    if has_unknown_key(table) {
        return None;
    }
    Some(Row {
        shows: text(table, "shows")?,
        commands: elements(table, "commands")?,
        files: table_at(table, "files")?,
        behind: table_at(table, "behind")?,
        devices: devices_of(table)?,
        answer: answer_of(table)?,
        opens: elements_at(table, "opens")?,
        each_read: each_read_of(table)?,
        each_write: number(table, "each_write", 0)?,
    })
}

fn has_unknown_key(table: &Table) -> bool {
    for (key, _) in table {
        if !is_known(key.as_str()) {
            return true;
        }
    }
    false
}

fn is_known(key: &str) -> bool {
    for known in KEYS {
        if known == key {
            return true;
        }
    }
    false
}

fn devices_of(table: &Table) -> Option<Devices<'_>> {
    Some(Devices {
        refused: elements(table, "refused")?,
        failing: table_at(table, "failing")?,
        unwritten: elements(table, "unwritten")?,
        piece: number(table, "piece", 8)?,
        room: number(table, "room", 60_000)?,
    })
}

fn answer_of(table: &Table) -> Option<Answer<'_>> {
    Some(Answer {
        status: number(table, "status", 0)?,
        text: text(table, "text")?,
        any_order: flag(table, "any_order")?,
    })
}

fn each_read_of(table: &Table) -> Option<Option<EachRead<'_>>> {
    let Some(each) = table_at(table, "each_read")? else {
        return Some(None);
    };
    Some(Some(EachRead {
        of: elements(each, "of")?,
        many: number(each, "many", 0)?,
        answer: answer_of(each)?,
    }))
}
