//! Reports.
ghost use Rattle.std.specs.Prelude.{◌≡◌, ◌<◌, ◌++◌, ℕ, length, map};
ghost use Rattle.stream_base.specs.Limits.{Definitions};
ghost use Rattle.stream_base.specs.Model.Text.{Form, report_1, report_2, report_of};
ghost use Rattle.report_lines.specs.Forms.{form_of};
ghost use Rattle.report_lines.specs.Lines.{header_line};
ghost use Rattle.emission_text.specs.Report.{AreAlike, lines_at, lines_from, lines_of, report_text, shards_text};
ghost use Rattle.emission_text.specs.Sending.{Puts, Writes};

use crate::change_line::put_changes;
use crate::entry_line::{put_entry, put_header};
use crate::pending::Pending;
use crate::pieces::put_pieces;
use crate::sink_fault::SinkFault;
use outside::Sink;
use report_lines::ReportForm;
use shard_core::Shard;

/// Writes the report of shards: for each shard its header, then each entry of its journal, and under
/// it its changes; and at the end a last line. Retractions and updates leave out what stood before.
/// `Write` is answered where a write of the sink failed, and then a prefix of the report went out.
pub fn write_report<K: Sink>(shards: &[Shard], sink: &mut K) -> Result<(), SinkFault>
    ensures { Writes K.taken K.faults (report_text report_1 shards.now) sink.old sink.new result }
{
    write_form(ReportForm::One, shards, sink)
}

/// Writes the report of shards in its second form: a line that says so, and then the same text, in
/// which retractions and updates tell what stood before.
pub fn write_report2<K: Sink>(shards: &[Shard], sink: &mut K) -> Result<(), SinkFault>
    ensures { Writes K.taken K.faults (report_text report_2 shards.now) sink.old sink.new result }
{
    write_form(ReportForm::Two, shards, sink)
}

/// Writes the report of shards in a form.
pub fn write_form<K: Sink>(
    form: ReportForm,
    shards: &[Shard],
    sink: &mut K,
) -> Result<(), SinkFault>
    ensures { Writes K.taken K.faults (report_text (form_of form) shards.now)
        sink.old sink.new result }
{
    let mut out = Pending::new();
    put_report(form, shards, &mut out, sink)?;
    out.flush(sink)
}

/// Where all shards have the same definitions and number of sources, their report is that of their
/// journals, in either form.
pub fn report_of_alike_shards_is_of_their_journals(shards: &[Shard])
    ensures { (form : Form) (d : Definitions) (sources : ℕ) → AreAlike d sources shards.now
        → report_text form shards.now ≡ report_of form d sources (map (λ s. s.journal) shards.now) }
{
    let _shards = shards;
}

fn put_report<K: Sink>(
    form: ReportForm,
    shards: &[Shard],
    out: &mut Pending,
    sink: &mut K,
) -> Result<(), SinkFault>
    ensures { Puts K.taken K.faults (report_text (form_of form) shards.now)
        out.old out.new sink.old sink.new result }
{
    put_front(form, out, sink)?;
    put_all(form, shards, out, sink)
}

// Puts the line that tells the form, where it has one.
fn put_front<K: Sink>(form: ReportForm, out: &mut Pending, sink: &mut K) -> Result<(), SinkFault>
    ensures { Puts K.taken K.faults (form_of form).front
        out.old out.new sink.old sink.new result }
{
    out.add(form.front(), sink)
}

fn put_all<K: Sink>(
    form: ReportForm,
    shards: &[Shard],
    out: &mut Pending,
    sink: &mut K,
) -> Result<(), SinkFault>
    ensures { Puts K.taken K.faults (shards_text (form_of form) shards.now)
        out.old out.new sink.old sink.new result }
{
    put_shards(form, shards, out, sink)?;
    put_pieces(&[b"end\n"], out, sink)
}

fn put_shards<K: Sink>(
    form: ReportForm,
    shards: &[Shard],
    out: &mut Pending,
    sink: &mut K,
) -> Result<(), SinkFault>
    ensures { Puts K.taken K.faults (lines_from (form_of form) 0 shards.now)
        out.old out.new sink.old sink.new result }
{
    for (k, shard) in shards.iter().enumerate() {
        put_shard(form, k, shard, out, sink)?;
    }
    Ok(())
}

// Puts the header of the shard with this number, and the lines of its journal.
fn put_shard<K: Sink>(
    form: ReportForm,
    k: usize,
    shard: &Shard,
    out: &mut Pending,
    sink: &mut K,
) -> Result<(), SinkFault>
    ensures { Puts K.taken K.faults (header_line k ++ lines_of (form_of form) shard.now)
        out.old out.new sink.old sink.new result }
{
    put_header(k as u64, out, sink)?;
    put_journal(form, shard, out, sink)
}

fn put_journal<K: Sink>(
    form: ReportForm,
    shard: &Shard,
    out: &mut Pending,
    sink: &mut K,
) -> Result<(), SinkFault>
    ensures { Puts K.taken K.faults (lines_of (form_of form) shard.now)
        out.old out.new sink.old sink.new result }
{
    for position in 0..shard.journal_len() {
        put_position(form, shard, position, out, sink)?;
    }
    Ok(())
}

// Puts the line of the entry at a position, and under it those of its changes.
fn put_position<K: Sink>(
    form: ReportForm,
    shard: &Shard,
    position: u64,
    out: &mut Pending,
    sink: &mut K,
) -> Result<(), SinkFault>
    requires { position < length shard.now.journal }
    ensures { Puts K.taken K.faults (lines_at (form_of form) shard.now position)
        out.old out.new sink.old sink.new result }
{
    put_entry(&shard.entry_at(position), out, sink)?;
    put_changes(form, &shard.changes_at(position), out, sink)
}
