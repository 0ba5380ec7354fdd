ghost use Rattle.std.specs.Prelude.{◌≡◌, length};
ghost use Rattle.fan_in.specs.Readers.{AreReadOut, AreReady};
ghost use Rattle.fan_in.specs.Works.{HasRoom};

use crate::gathered::FeedEnd;
use crate::port::Port;
use crate::side_by_side::read_all;
use crate::work::{Work, fill, take_apart};
use outside::Gate;
use source_feed::Feed;
use std::sync::Wait;
use std::thread::Threads;

// Reads all feeds, each with its row of ports. They come back with their outcomes, and the rows.
pub(crate) fn read_out<F: Feed + Send, P: Port + Send + Drop, G: Gate, R: Threads + Wait + Sync>(
    rt: &R,
    gate: &G,
    inlets: &[P::Inlet],
    mut work: Work<F, P>,
    feeds: Vec<F>,
    rows: Vec<Vec<P>>,
) -> (Vec<FeedEnd<F>>, Vec<Vec<P>>)
    requires ready { AreReady P.Port F.state inlets.now feeds.items rows.items }
    requires room { HasRoom (length feeds.items) work }
    ensures read { AreReadOut P.Port F.state F.faults (length inlets.now) feeds.items
        rows.items result.0.items result.1.items }
{
    fill(&mut work.readers, feeds, rows);
    read_all(rt, gate, inlets, work.readers.as_mut_slice());
    take_apart(work)
}
