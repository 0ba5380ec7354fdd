ghost use Rattle.std.specs.Prelude.{◌≡◌, IfOk, None, Some};
ghost use Rattle.std.specs.Option.{option_map_or};
ghost use Rattle.row_laws.specs.Reading.{change_in};
ghost use Rattle.row_laws.specs.Told.{in_shard, new_shard, with_change, with_entry};
ghost use Rattle.report_rows.specs.Closed.{is_closed};
ghost use Rattle.report_rows.specs.Steps.{Steps};

use crate::change::change_in;
use crate::sources::Sources;
use report_lines::entry_in;
use standing_rows::StandingRows;
use std::alloc::Global;
use std::marker::Model;
use stream_base::{Change, Entry, NoMemory, Row, What};

/// What is told of a shard: its rows, and whether its sources have ended. Contracts see its journal too.
#[derive(Drop)]
pub struct ShardRows {
    said: Sources,
    rows: StandingRows,
}

impl Model for ShardRows {
    ghost use Rattle.row_laws.specs.Told.{ToldShard};

    ghost Value = { ToldShard };

    ghost view = { λ s. record { journal = s.said; rows = s.rows } };
}

impl ShardRows {
    /// A shard of which nothing is told.
    pub fn new(alloc: Global) -> ShardRows
        ensures { result ≡ new_shard }
    {
        ShardRows {
            said: Sources::new(alloc),
            rows: StandingRows::new(alloc),
        }
    }

    /// The rows that stand, by key, window, start and end.
    pub fn rows(&self, alloc: Global) -> Result<Vec<Row>, NoMemory>
        ensures { IfOk result (λ rows. rows.items ≡ (self.now).rows) }
    {
        self.rows.rows(alloc)
    }

    /// Whether each source that has an entry in the shard's journal has its end there.
    pub fn is_closed(&self) -> bool
        ensures { result ≡ is_closed (self.now).journal }
    {
        self.said.are_closed()
    }

    /// Takes the line of an entry or a change, if that may follow.
    pub fn line(&mut self, full: bool, line: &[u8]) -> Result<bool, NoMemory>
        ensures { Steps (in_shard full line.now self.old) self.old self.new result }
    {
        match entry_in(line) {
            Some(Entry { source, what }) => self.enter(source, what),
            None => self.change_line(full, line),
        }
    }

    fn enter(&mut self, source: u16, what: What) -> Result<bool, NoMemory>
        ensures { Steps (Some (with_entry self.old (record { source = source; what = what })))
            self.old self.new result }
    {
        self.said.add(source, what)?;
        Ok(true)
    }

    fn change_line(&mut self, full: bool, line: &[u8]) -> Result<bool, NoMemory>
        ensures { Steps (option_map_or (with_change self.old) (change_in full line.now) None)
            self.old self.new result }
    {
        match change_in(full, line) {
            Some(change) => self.change(&change),
            None => Ok(false),
        }
    }

    // A change stands under an entry, and finds its rows.
    fn change(&mut self, change: &Change) -> Result<bool, NoMemory>
        ensures { Steps (with_change self.old change.now) self.old self.new result }
    {
        if self.said.has_entry() && self.rows.finds(change) {
            self.rows.apply(change)?;
            Ok(true)
        } else {
            Ok(false)
        }
    }
}
