//! Journals told by a shard.
ghost use Rattle.stream_base.specs.Model.Text.{changes_under, journal_lines};
ghost use Rattle.report_check.specs.Readable.{IsReadable};

use crate::replay::replayed;
use crate::tell::put_shard;
use agg_laws::Steps;
use report_check::{ByLists, Teller};
use report_lines::ReportForm;
use std::alloc::Global;
use stream_base::{Defs, Entry, NoMemory};

/// Tells a journal by the shard that takes its entries, or from plain lists where a shard takes not all
/// of them.
#[derive(Clone, Copy)]
pub struct ByShard;

impl Teller for ByShard {
    fn put_journal<L>(
        &self,
        alloc: Global,
        form: ReportForm,
        defs: &Defs,
        sources: u16,
        journal: &[Entry],
        out: &mut Vec<u8>,
        steps: &mut Steps<L>,
    ) -> Result<(), NoMemory> {
        match replayed(alloc, defs, sources, journal, steps)? {
            Some(shard) => put_shard(form, &shard, out),
            None => ByLists.put_journal(alloc, form, defs, sources, journal, out, steps),
        }
    }
}
