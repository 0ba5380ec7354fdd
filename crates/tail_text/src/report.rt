//! The text of shards with changes beside their journals.
ghost use Rattle.std.specs.Prelude.{◌≡◌, ◌++◌, length, map, codes};
ghost use Rattle.std.specs.List.{zip};
ghost use Rattle.emission_text.specs.Sending.{Puts, Writes};
ghost use Rattle.report_lines.specs.Lines.{header_line};
ghost use Rattle.tail_text.specs.Texts.{AreAsLong, in_vectors, journal_with, lines_with, shards_with, tails_text};

use crate::change_line::put_changes;
use emission_text::{Pending, SinkFault, put_entry, put_header, put_pieces};
use outside::Sink;
use shard_core::Shard;
use stream_base::Entry;
use tail_windows::TailChange;

/// Writes the journals of shards with these changes: for each shard its header, then each entry of
/// its journal, and under it the changes for its position; and at the end a last line. `Write` is
/// answered where a write of the sink failed, and then a prefix of the text went out.
pub fn write_tails<K: Sink>(
    shards: &[Shard],
    tails: &[Vec<Vec<TailChange>>],
    sink: &mut K,
) -> Result<(), SinkFault>
    requires { AreAsLong (map (λ s. s.journal) shards.now) (in_vectors tails.now) }
    ensures { Writes K.taken K.faults
        (tails_text (map (λ s. s.journal) shards.now) (in_vectors tails.now))
        sink.old sink.new result }
{
    let mut out = Pending::new();
    put_text(shards, tails, &mut out, sink)?;
    out.flush(sink)
}

fn put_text<K: Sink>(
    shards: &[Shard],
    tails: &[Vec<Vec<TailChange>>],
    out: &mut Pending,
    sink: &mut K,
) -> Result<(), SinkFault>
    requires { AreAsLong (map (λ s. s.journal) shards.now) (in_vectors tails.now) }
    ensures { Puts K.taken K.faults
        (tails_text (map (λ s. s.journal) shards.now) (in_vectors tails.now))
        out.old out.new sink.old sink.new result }
{
    put_shards(shards, tails, out, sink)?;
    put_pieces(&[b"end\n"], out, sink)
}

fn put_shards<K: Sink>(
    shards: &[Shard],
    tails: &[Vec<Vec<TailChange>>],
    out: &mut Pending,
    sink: &mut K,
) -> Result<(), SinkFault>
    requires { AreAsLong (map (λ s. s.journal) shards.now) (in_vectors tails.now) }
    ensures { Puts K.taken K.faults
        (shards_with 0 (zip (map (λ s. s.journal) shards.now) (in_vectors tails.now)))
        out.old out.new sink.old sink.new result }
{
    for (k, shard) in shards.iter().enumerate() {
        put_shard(k, shard, &tails[k], out, sink)?;
    }
    Ok(())
}

// Puts the header of the shard with this number, and the lines of its journal.
fn put_shard<K: Sink>(
    k: usize,
    shard: &Shard,
    lists: &[Vec<TailChange>],
    out: &mut Pending,
    sink: &mut K,
) -> Result<(), SinkFault>
    requires { length lists.now ≡ length shard.now.journal }
    ensures { Puts K.taken K.faults (header_line k
        ++ journal_with shard.now.journal (map (λ changes. changes.items) lists.now))
        out.old out.new sink.old sink.new result }
{
    put_header(k as u64, out, sink)?;
    put_journal(shard, lists, out, sink)
}

fn put_journal<K: Sink>(
    shard: &Shard,
    lists: &[Vec<TailChange>],
    out: &mut Pending,
    sink: &mut K,
) -> Result<(), SinkFault>
    requires { length lists.now ≡ length shard.now.journal }
    ensures { Puts K.taken K.faults
        (journal_with shard.now.journal (map (λ changes. changes.items) lists.now))
        out.old out.new sink.old sink.new result }
{
    for position in 0..shard.journal_len() {
        let changes = &lists[position as usize];
        put_position(&shard.entry_at(position), changes, out, sink)?;
    }
    Ok(())
}

// Puts the line of an entry, and under it those of changes.
fn put_position<K: Sink>(
    entry: &Entry,
    changes: &[TailChange],
    out: &mut Pending,
    sink: &mut K,
) -> Result<(), SinkFault>
    ensures { Puts K.taken K.faults (lines_with entry.now changes.now)
        out.old out.new sink.old sink.new result }
{
    put_entry(entry, out, sink)?;
    put_changes(changes, out, sink)
}
