//! Journals told from plain lists.
ghost use Rattle.stream_base.specs.Model.Text.{changes_under, journal_lines};
ghost use Rattle.report_check.specs.Readable.{IsReadable};

use crate::ledger::Ledger;
use crate::teller::Teller;
use agg_laws::Steps;
use report_lines::{ReportForm, put_changes, put_entry};
use std::alloc::Global;
use stream_base::{Defs, Entry, NoMemory};

/// Tells any journal, from the plain lists of each of its keys.
#[derive(Clone, Copy)]
pub struct ByLists;

impl Teller for ByLists {
    fn put_journal<L>(
        &self,
        alloc: Global,
        form: ReportForm,
        defs: &Defs,
        sources: u16,
        journal: &[Entry],
        out: &mut Vec<u8>,
        steps: &mut Steps<L>,
    ) -> Result<(), NoMemory> {
        let mut ledger = Ledger::new(alloc, sources);
        for place in 0..journal.len() {
            let past = &journal[..place];
            let entry = &journal[place];
            let upto = &journal[..place + 1];
            let mut changes = Vec::new(alloc);
            ledger.take_in(defs, past, entry, upto, &mut changes, steps)?;
            put_entry(entry, out)?;
            put_changes(form, &changes, out)?;
        }
        Ok(())
    }
}
