//! The finding of a report.
ghost use Rattle.std.specs.Prelude.{◌≤◌, length, IfOk};
ghost use Rattle.report_check.specs.Findings.{IsFinding, lists_of};

use crate::by_lists::ByLists;
use crate::finding::Finding;
use crate::form::form_of_text;
use crate::judge::judge;
use crate::read::journals_of;
use crate::tell::put_report;
use crate::teller::Teller;
use agg_laws::Steps;
use std::alloc::Global;
use stream_base::{Defs, Entry, NoMemory};

/// What is found of a report, by definitions, a number of shards and the entries of the sources: the
/// first that holds of the findings. It reads the journals out of the report, tells their report
/// anew, and compares. Any bytes are judged, and any journal is told from plain lists.
pub fn check_report<L>(
    alloc: Global,
    defs: &Defs,
    shards: u16,
    sources: &[Vec<Entry>],
    report: &[u8],
    steps: &mut Steps<L>,
) -> Result<Finding, NoMemory>
    requires few_shards { shards ≤ 16 }
    requires few_sources { length sources.now ≤ 16 }
    ensures { IfOk result (IsFinding defs.now shards (lists_of sources.now) report.now) }
{
    check_report_by(&ByLists, alloc, defs, shards, sources, report, steps)
}

/// The same, with journals told in another way.
pub fn check_report_by<T: Teller, L>(
    teller: &T,
    alloc: Global,
    defs: &Defs,
    shards: u16,
    sources: &[Vec<Entry>],
    report: &[u8],
    steps: &mut Steps<L>,
) -> Result<Finding, NoMemory>
    requires few_shards { shards ≤ 16 }
    requires few_sources { length sources.now ≤ 16 }
    ensures { IfOk result (IsFinding defs.now shards (lists_of sources.now) report.now) }
{
    let journals = journals_of(alloc, report)?;
    let mut told = Vec::new(alloc);
    let form = form_of_text(report);
    let count = sources.len() as u16;
    put_report(
        teller, alloc, form, defs, count, &journals, &mut told, steps,
    )?;
    judge(alloc, shards, sources, report, &told, &journals)
}
