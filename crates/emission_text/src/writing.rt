//! Whole texts, over writes that may take only a prefix.
ghost use Rattle.emission_text.specs.Sending.{Writes};

use crate::sink_fault::SinkFault;
use outside::Sink;

/// Writes all of these bytes, in as many writes as the sink needs.
pub fn write_all<K: Sink>(bytes: &[u8], sink: &mut K) -> Result<(), SinkFault>
    ensures { Writes K.taken K.faults bytes.now sink.old sink.new result }
{
    let mut rest = bytes;
    'pieces: while !rest.is_empty() {
        let taken = sink.write(rest)?;
        rest = &rest[taken..];
    }
    Ok(())
}
