ghost use Rattle.std.specs.Prelude.{◌≡◌, ◌≤◌, All, length};
ghost use Rattle.fan_in.specs.Owners.{HasOwned, HaveOwned, MayOwn};
ghost use Rattle.fan_in.specs.Posts.{AreOwned};
ghost use Rattle.fan_in.specs.Readers.{AreReadOut, AreReady, HaveRead, MayRead};
ghost use Rattle.fan_in.specs.Sending.{sender_port};
ghost use Rattle.fan_in.specs.Works.{HasRoom};

use crate::gathered::FeedEnd;
use crate::mail::message::Message;
use crate::mail::outbox::Outbox;
use crate::mail::owner_job::{OwnerJob, own_lane};
use crate::plan::Plan;
use crate::reader::Reader;
use crate::side_by_side::read_all;
use crate::work::{Work, fill, take_apart};
use mail_lane::Mail;
use outside::Gate;
use source_feed::Feed;
use std::sync::Wait;
use std::sync::atomic::{AtomicBool, Ordering};
use std::thread;
use std::thread::Threads;

// Reads all feeds, each with its row of senders, while the owners apply what comes. The feeds come
// back with their outcomes, and the rows.
pub(crate) fn send_out<F: Feed + Send, G: Gate, R: Threads + Wait + Sync>(
    rt: &R,
    gate: &G,
    plan: &Plan,
    lanes: &[Mail<Message>],
    owners: &mut [OwnerJob],
    mut work: Work<F, Outbox>,
    feeds: Vec<F>,
    rows: Vec<Vec<Outbox>>,
) -> (Vec<FeedEnd<F>>, Vec<Vec<Outbox>>)
    requires owned { AreOwned plan.now.defs plan.now.sources lanes.now owners.old }
    requires ready { AreReady sender_port F.state lanes.now feeds.items rows.items }
    requires room { HasRoom (length feeds.items) work }
    ensures owned { AreOwned plan.now.defs plan.now.sources lanes.now owners.new }
    ensures read { AreReadOut sender_port F.state F.faults (length lanes.now) feeds.items
        rows.items result.0.items result.1.items }
{
    fill(&mut work.readers, feeds, rows);
    read_beside(rt, gate, plan, lanes, owners, work.readers.as_mut_slice());
    take_apart(work)
}

// Reads all feeds beside the owners. `join_mut` calls its second closure in this thread, and its
// first one in a new thread or, where none can be started, behind the second. So this thread waits
// for an owner only once all feeds have ended.
fn read_beside<F: Feed + Send, G: Gate, R: Threads + Wait + Sync>(
    rt: &R,
    gate: &G,
    plan: &Plan,
    lanes: &[Mail<Message>],
    owners: &mut [OwnerJob],
    readers: &mut [Reader<F, Outbox>],
)
    requires owners { All (MayOwn plan.now.defs plan.now.sources lanes.now) owners.old }
    requires some { 1 ≤ length readers.old }
    requires readers { All (MayRead sender_port F.state lanes.now) readers.old }
    ensures owners { HaveOwned plan.now.defs plan.now.sources lanes.now owners.old owners.new }
    ensures read { HaveRead sender_port F.state F.faults (length lanes.now)
        readers.old readers.new }
{
    let ended = AtomicBool::new(false);
    let mut own = ||
        requires { All (MayOwn plan.now.defs plan.now.sources lanes.now) owners.now }
        ensures { HaveOwned plan.entry.now.defs plan.entry.now.sources
            lanes.entry.now owners.entry.now owners.exit.now }
    { own_all(rt, gate, plan, lanes, &ended, owners) };
    let mut read = ||
        requires some { 1 ≤ length readers.now }
        requires may { All (MayRead sender_port F.state lanes.now) readers.now }
        ensures { HaveRead sender_port F.state F.faults (length lanes.entry.now)
            readers.entry.now readers.exit.now }
    {
        read_all(rt, gate, lanes, readers);
        ended.store(true, Ordering::SeqCst);
    };
    thread::join_mut(rt, &mut own, &mut read);
}

// The owners own their lanes, each in a thread of its own where one can be started.
fn own_all<G: Gate, R: Threads + Wait + Sync>(
    rt: &R,
    gate: &G,
    plan: &Plan,
    lanes: &[Mail<Message>],
    ended: &AtomicBool,
    owners: &mut [OwnerJob],
)
    requires { All (MayOwn plan.now.defs plan.now.sources lanes.now) owners.old }
    ensures { HaveOwned plan.now.defs plan.now.sources lanes.now owners.old owners.new }
{
    let threads = owners.len().max(1);
    thread::for_each_mut(
        rt,
        owners,
        threads,
        &|_, job: &mut OwnerJob|
            requires { MayOwn plan.now.defs plan.now.sources lanes.now job.now }
            ensures { HasOwned plan.entry.now.defs plan.entry.now.sources
                lanes.entry.now job.entry.now job.exit.now }
        {
            let mail = &lanes[usize::from(job.owner.number)];
            own_lane(rt, gate, plan, mail, ended, job)
        },
    );
}
