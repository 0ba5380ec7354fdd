//! The journal lines of entries, and the headers of journals.
ghost use Rattle.stream_base.specs.Model.Text.{entry_line};
ghost use Rattle.report_lines.specs.Lines.{header_line};
ghost use Rattle.emission_text.specs.Sending.{Puts};

use crate::pending::Pending;
use crate::sink_fault::SinkFault;
use outside::Sink;
use report_lines::Line;
use stream_base::Entry;

/// Puts the header of the shard with this number.
pub fn put_header<K: Sink>(shard: u64, out: &mut Pending, sink: &mut K) -> Result<(), SinkFault>
    ensures { Puts K.taken K.faults (header_line shard) out.old out.new sink.old sink.new result }
{
    let mut line = Line::new();
    line.tell_header(shard);
    out.add(line.text(), sink)
}

/// Puts the journal line of an entry.
pub fn put_entry<K: Sink>(entry: &Entry, out: &mut Pending, sink: &mut K) -> Result<(), SinkFault>
    ensures { Puts K.taken K.faults (entry_line entry.now)
        out.old out.new sink.old sink.new result }
{
    let mut line = Line::new();
    line.tell_entry(entry);
    out.add(line.text(), sink)
}
