ghost use Rattle.std.specs.Prelude.{◌≡◌};
ghost use Rattle.fan_in.specs.Posts.{OwnsLane};

use crate::mail::message::Message;
use crate::mail::owner::Owner;
use crate::plan::Plan;
use mail_lane::{Mail, Receiver};
use outside::Gate;
use std::sync::Wait;
use std::sync::atomic::{AtomicBool, AtomicU64, Ordering};
use std::thread::Threads;
use std::time::Duration;

// How long an owner sleeps that found its lane empty, in microseconds.
const NAP: u64 = 50;

// The work on one shard: the receiver of its lane, and its owner.
#[derive(Drop)]
pub(crate) struct OwnerJob {
    pub(crate) receiver: Receiver<Message>,
    pub(crate) owner: Owner,
}

// Takes entries and applies them, until the lane was empty after all feeds had ended.
pub(crate) fn own_lane<G: Gate, R: Threads + Wait>(
    rt: &R,
    gate: &G,
    plan: &Plan,
    mail: &Mail<Message>,
    ended: &AtomicBool,
    job: &mut OwnerJob,
)
    requires owns { OwnsLane plan.now.defs plan.now.sources job.old.owner.number mail.now job.old }
    ensures owns { OwnsLane plan.now.defs plan.now.sources job.old.owner.number mail.now job.new }
{
    'looks: for _ in rt.forever() {
        let all_ended = ended.load(Ordering::SeqCst);
        match mail.take(rt, &mut job.receiver) {
            Some(message) => job.owner.take_in(rt, gate, &message),
            None if all_ended => return,
            None => nap(rt),
        }
    }
    unreachable!()
}

// Sleeps for a while. Nobody wakes this sleep: it ends by its time.
fn nap<R: Wait>(rt: &R) {
    AtomicU64::new(0).park_timeout(rt, 0, Duration::from_micros(NAP));
}
