//! The finding of a report.
ghost use Rattle.std.specs.Prelude.{◌≤◌, length, IfOk};
ghost use Rattle.report_check.specs.Findings.{IsFinding, lists_of};

use crate::by_shard::ByShard;
use agg_laws::Steps;
use report_check::{Finding, check_report_by};
use std::alloc::Global;
use stream_base::{Defs, Entry, NoMemory};

/// What is found of a report, by definitions, a number of shards and the entries of the sources: the
/// first that holds of the findings. Any bytes are judged. A journal that a shard takes, as one of a
/// lawful report is, costs what it costs in a run; another goes by plain lists.
pub fn check_report<L>(
    alloc: Global,
    defs: &Defs,
    shards: u16,
    sources: &[Vec<Entry>],
    report: &[u8],
    steps: &mut Steps<L>,
) -> Result<Finding, NoMemory>
    requires few_shards { shards ≤ 16 }
    requires few_sources { length sources.now ≤ 16 }
    ensures { IfOk result (IsFinding defs.now shards (lists_of sources.now) report.now) }
{
    check_report_by(&ByShard, alloc, defs, shards, sources, report, steps)
}
