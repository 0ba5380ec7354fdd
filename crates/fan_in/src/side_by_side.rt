ghost use Rattle.std.specs.Prelude.{◌≤◌, All, length};
ghost use Rattle.fan_in.specs.Readers.{HasRead, HaveRead, MayRead};

use crate::port::Port;
use crate::reader::Reader;
use crate::reading::read_feed;
use outside::Gate;
use source_feed::Feed;
use std::sync::Wait;
use std::thread;
use std::thread::Threads;

// Reads all feeds, each in a thread of its own where one can be started.
pub(crate) fn read_all<F: Feed + Send, P: Port + Send, G: Gate, R: Threads + Wait + Sync>(
    rt: &R,
    gate: &G,
    inlets: &[P::Inlet],
    readers: &mut [Reader<F, P>],
)
    requires some { 1 ≤ length readers.old }
    requires may { All (MayRead P.Port F.state inlets.now) readers.old }
    ensures read { HaveRead P.Port F.state F.faults (length inlets.now) readers.old readers.new }
{
    let threads = readers.len();
    thread::for_each_mut(
        rt,
        readers,
        threads,
        &|_, reader: &mut Reader<F, P>|
            requires { MayRead P.Port F.state inlets.now reader.now }
            ensures { HasRead P.Port F.state F.faults (length inlets.entry.now)
                reader.entry.now reader.exit.now }
        { read_feed(rt, gate, inlets, reader) },
    );
}
