//! Whole texts, over writes that may take only a prefix.
ghost use Rattle.std.specs.Prelude.{◌++◌};
ghost use Rattle.rows_run.specs.Sending.{Writes};

use outside::{Failed, Sink};

/// Writes all of these bytes, in as many writes as the sink needs.
pub fn write_all<K: Sink>(bytes: &[u8], sink: &mut K) -> Result<(), Failed>
    ensures { Writes K.taken K.faults bytes.now sink.old sink.new result }
{
    let mut rest = bytes;
    'pieces: while !rest.is_empty() {
        match sink.write(rest) {
            Ok(taken) => rest = &rest[taken..],
            Err(failed) => return Err(failed),
        }
    }
    Ok(())
}

/// Writes three texts, one behind the other.
pub fn write_three<K: Sink>(
    first: &[u8],
    second: &[u8],
    third: &[u8],
    sink: &mut K,
) -> Result<(), Failed>
    ensures { Writes K.taken K.faults (first.now ++ (second.now ++ third.now))
        sink.old sink.new result }
{
    match write_all(first, sink) {
        Ok(()) => write_two(second, third, sink),
        Err(failed) => Err(failed),
    }
}

fn write_two<K: Sink>(first: &[u8], second: &[u8], sink: &mut K) -> Result<(), Failed>
    ensures { Writes K.taken K.faults (first.now ++ second.now) sink.old sink.new result }
{
    match write_all(first, sink) {
        Ok(()) => write_all(second, sink),
        Err(failed) => Err(failed),
    }
}
