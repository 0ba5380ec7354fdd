//! The lines of findings.
ghost use Rattle.emission_text.specs.Findings.{finding_line};
ghost use Rattle.emission_text.specs.Sending.{Puts, Writes};

use crate::pending::Pending;
use crate::pieces::{put_numbered, put_pieces};
use crate::sink_fault::SinkFault;
use itoa::Buffer;
use outside::Sink;
use report_check::Finding;

/// Writes the line of a finding: `lawful`, or `unlawful` and what is wrong where. `Write` is
/// answered where a write of the sink failed, and then a prefix of the line went out.
pub fn write_finding<K: Sink>(finding: &Finding, sink: &mut K) -> Result<(), SinkFault>
    ensures { Writes K.taken K.faults (finding_line finding.now) sink.old sink.new result }
{
    let mut out = Pending::new();
    put_finding(finding, &mut out, sink)?;
    out.flush(sink)
}

fn put_finding<K: Sink>(finding: &Finding, out: &mut Pending, sink: &mut K) -> Result<(), SinkFault>
    ensures { Puts K.taken K.faults (finding_line finding.now)
        out.old out.new sink.old sink.new result }
{
    match finding {
        Finding::Lawful => put_pieces(&[b"lawful\n"], out, sink),
        Finding::Text { line } => put_numbered(b"unlawful text ", *line, out, sink),
        Finding::Shards { found } => put_numbered(b"unlawful shards ", *found, out, sink),
        Finding::Journal { shard, source } => {
            let mut first = Buffer::new();
            let mut second = Buffer::new();
            let shard = first.format(*shard).as_bytes();
            let source = second.format(*source).as_bytes();
            let front: &[u8] = b"unlawful journal ";
            put_pieces(&[front, shard, b" ", source, b"\n"], out, sink)
        }
    }
}
