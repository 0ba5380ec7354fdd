//! The lines of a shard's journal.
ghost use Rattle.std.specs.Prelude.{◌≡◌, ◌++◌, [], OnOk};
ghost use Rattle.stream_base.specs.Model.Text.{change_lines, changes_under, journal_lines};
ghost use Rattle.report_lines.specs.Forms.{form_of};

use compact_log::ChangeRange;
use report_lines::{ReportForm, put_change, put_entry};
use shard_core::Shard;
use stream_base::NoMemory;

/// Puts the lines of a shard's journal behind a text, in a form: each entry's own, and those of its
/// changes.
pub fn put_shard(form: ReportForm, shard: &Shard, out: &mut Vec<u8>) -> Result<(), NoMemory>
    ensures { OnOk result (out.new.items ≡ out.old.items ++ journal_lines (changes_under
        (form_of form) shard.now.defs shard.now.sources) [] shard.now.journal) }
{
    for position in 0..shard.journal_len() {
        put_entry(&shard.entry_at(position), out)?;
        put_changes(form, &shard.changes_at(position), out)?;
    }
    Ok(())
}

// Puts the lines of changes, in their order and in a form.
fn put_changes(
    form: ReportForm,
    changes: &ChangeRange<'_>,
    out: &mut Vec<u8>,
) -> Result<(), NoMemory>
    ensures { OnOk result
        (out.new.items ≡ out.old.items ++ change_lines (form_of form) changes.now) }
{
    for at in 0..changes.len() {
        put_change(form, &changes.get(at), out)?;
    }
    Ok(())
}
