ghost use Rattle.std.specs.Prelude.{◌++◌, [], ◌∷◌, All, length};
ghost use Rattle.stream_base.specs.Model.Routes.{routed};
ghost use Rattle.fan_in.specs.Ports.{HasHanded, IsAbout, IsHalfway};
ghost use Rattle.fan_in.specs.Reading.{AreSame, HaveTaken, MayTake, StandAt};
ghost use Rattle.fan_in.specs.Routing.{IsOnlyShard};

use crate::outcome::Outcome;
use crate::place::{Place, only_shard};
use crate::port::Port;
use outside::Gate;
use std::sync::Wait;
use std::thread::Threads;
use stream_base::Entry;

// Hands an entry in at each shard to which it goes, in their order, up to the first to refuse it.
pub(crate) fn hand_out<P: Port, G: Gate, R: Threads + Wait>(
    rt: &R,
    gate: &G,
    inlets: &[P::Inlet],
    ports: &mut [P],
    entry: &Entry,
) -> Outcome
    requires stand { StandAt P.Port inlets.now ports.old }
    requires may { All (MayTake P.Port entry.now) ports.old }
    ensures same { AreSame P.Port ports.old ports.new }
    ensures halfway { IsHalfway (length inlets.now) result }
    ensures handed { HaveTaken P.Port (length inlets.now) entry.now result ports.old ports.new }
{
    let shards = inlets.len() as u16;
    let only = only_shard(&entry.what, shards);
    for k in 0..inlets.len() {
        let place = Place {
            shard: k as u16,
            shards,
        };
        let outcome = hand_to(rt, gate, &inlets[k], &mut ports[k], place, only, entry);
        match outcome {
            Outcome::Done => {}
            Outcome::Fault(_) | Outcome::Full { .. } => return outcome,
        }
    }
    Outcome::Done
}

// Hands an entry in at one shard, if it goes there, by the one shard to which it goes. The gate is
// passed with the source before.
fn hand_to<P: Port, G: Gate, R: Threads + Wait>(
    rt: &R,
    gate: &G,
    inlet: &P::Inlet,
    port: &mut P,
    place: Place,
    only: Option<u16>,
    entry: &Entry,
) -> Outcome
    requires own { P.is_at inlet.now port.old }
    requires only { IsOnlyShard place.shards entry.now.what only }
    requires may { MayTake P.Port entry.now port.old }
    ensures same { P.is_same port.old port.new }
    ensures about { IsAbout place.shard result }
    ensures handed { HasHanded (P.handed port.old
        ++ routed place.shards place.shard (entry.now ∷ [])) place.shard result
        (P.handed port.new) (P.is_full port.new) }
{
    if !place.takes(only) {
        return Outcome::Done;
    }
    gate.pass(entry.source);
    port.hand_in(rt, gate, inlet, place.shard, entry)
}
