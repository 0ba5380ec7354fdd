//! The finding, once the report of the journals is told.
ghost use Rattle.std.specs.Prelude.{◌≡◌, ◌≤◌, length, IfOk};
ghost use Rattle.stream_base.specs.Limits.{Definitions};
ghost use Rattle.stream_base.specs.Model.Journals.{journals_of};
ghost use Rattle.report_check.specs.Findings.{AreFew, IsFinding, lists_of, report_in};

use crate::apart::line_apart;
use crate::finding::Finding;
use crate::journal::Journal;
use crate::routes::first_wrong;
use std::alloc::Global;
use stream_base::{Entry, NoMemory};

/// The finding of a text, by the report of the journals that it holds.
pub fn judge(
    alloc: Global,
    shards: u16,
    sources: &[Vec<Entry>],
    text: &[u8],
    told: &[u8],
    journals: &[Journal],
) -> Result<Finding, NoMemory>
    requires few { AreFew shards sources.now }
    requires journals { journals.now ≡ journals_of text.now }
    ensures { (d : Definitions) → told.now
        ≡ report_in d (length (lists_of sources.now)) text.now
        → IfOk result (IsFinding d shards (lists_of sources.now) text.now) }
{
    if text != told {
        return Ok(Finding::Text {
            line: line_apart(text, told),
        });
    }
    let found = journals.len();
    if found != shards as usize {
        return Ok(Finding::Shards {
            found: found as u64,
        });
    }
    match first_wrong(alloc, sources, journals)? {
        Some((shard, source)) => Ok(Finding::Journal { shard, source }),
        None => Ok(Finding::Lawful),
    }
}
