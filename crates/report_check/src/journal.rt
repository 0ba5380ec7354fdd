ghost use Rattle.std.specs.Prelude.{◌≡◌, ◌++◌, ◌∷◌, [], OnOk, true};
ghost use Rattle.stream_base.specs.Model.Journals.{is_entry_within};
ghost use Rattle.report_check.specs.Readable.{IsReadable};

use std::alloc::Global;
use std::marker::Model;
use stream_base::{Entry, NoMemory, TIME_MAX, What};

/// A journal read from a report: entries within their limits, and no more than there are times.
/// Contracts see its entries, in order.
#[derive(Drop)]
pub struct Journal {
    entries: Vec<Entry>,
}

impl Model for Journal {
    ghost use Rattle.std.specs.Prelude.{List};
    ghost use Rattle.stream_base.specs.declared.entry.Entry.{Entry};

    ghost Value = { List Entry };

    ghost use Rattle.report_check.specs.Readable.{IsReadable};

    ghost view = { λ journal. journal.entries.items };

    ghost invariant = { λ journal. IsReadable journal.entries.items };
}

impl Journal {
    /// No entry yet.
    pub fn new(alloc: Global) -> Journal
        ensures { result ≡ [] }
    {
        Journal {
            entries: Vec::new(alloc),
        }
    }

    /// The entries, in order.
    pub fn entries(&self) -> &[Entry]
        ensures value { result.now ≡ self.now }
        ensures readable { IsReadable self.now }
    {
        &self.entries
    }

    /// One entry more at the end: what a source said. No memory holds more than 10^15.
    pub fn push(&mut self, source: u16, what: What) -> Result<(), NoMemory>
        requires { is_entry_within (record { source = source; what = what }) ≡ true }
        ensures { OnOk result (self.new
            ≡ self.old ++ record { source = source; what = what } ∷ []) }
    {
        if self.entries.len() as u64 >= TIME_MAX {
            return Err(NoMemory);
        }
        self.entries.reserve(1)?;
        self.entries.push_reserved(Entry { source, what });
        Ok(())
    }
}
