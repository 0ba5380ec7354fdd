ghost use Rattle.std.specs.Prelude.{◌≡◌, All, length};
ghost use Rattle.fan_in.specs.Readers.{HasRead, MayRead};
ghost use Rattle.fan_in.specs.Reading.{AreSame, MayTake, StandAt, TakesMore};

use crate::hand_out::hand_out;
use crate::outcome::Outcome;
use crate::port::Port;
use crate::reader::Reader;
use outside::Gate;
use source_feed::Feed;
use std::sync::Wait;
use std::thread::Threads;
use stream_base::Entry;

// Reads a feed to its end or to a fault, and hands its entries in until one is refused.
pub(crate) fn read_feed<F: Feed, P: Port, G: Gate, R: Threads + Wait>(
    rt: &R,
    gate: &G,
    inlets: &[P::Inlet],
    reader: &mut Reader<F, P>,
)
    requires may { MayRead P.Port F.state inlets.now reader.old }
    ensures read { HasRead P.Port F.state F.faults (length inlets.now) reader.old reader.new }
{
    'entries: for _ in rt.forever() {
        match reader.feed.next() {
            Ok(Some(entry)) => take_entry(rt, gate, inlets, reader, &entry),
            Ok(None) => return,
            Err(fault) => {
                reader.outcome = Outcome::Fault(fault);
                return;
            }
        }
    }
    unreachable!()
}

// Hands an entry in, unless one before it was refused.
fn take_entry<F: Feed, P: Port, G: Gate, R: Threads + Wait>(
    rt: &R,
    gate: &G,
    inlets: &[P::Inlet],
    reader: &mut Reader<F, P>,
    entry: &Entry,
)
    requires stand { StandAt P.Port inlets.now reader.old.ports.items }
    requires may { All (MayTake P.Port entry.now) reader.old.ports.items }
    ensures feed { reader.new.feed ≡ reader.old.feed }
    ensures same { AreSame P.Port reader.old.ports.items reader.new.ports.items }
    ensures taken { TakesMore P.Port (length inlets.now) entry.now reader.old.outcome
        reader.new.outcome reader.old.ports.items reader.new.ports.items }
{
    match reader.outcome {
        Outcome::Done => {
            reader.outcome = hand_out(rt, gate, inlets, reader.ports.as_mut_slice(), entry);
        }
        Outcome::Fault(_) | Outcome::Full { .. } => {}
    }
}
