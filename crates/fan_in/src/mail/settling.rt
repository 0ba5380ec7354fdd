ghost use Rattle.std.specs.Prelude.{◌≡◌, ◌≤◌, ◌<◌, ℕ, length, All, slice_index_or};
ghost use Rattle.stream_base.specs.Limits.{Definitions};
ghost use Rattle.mail_lane.specs.Lane.{TakenWhole, sent_by};
ghost use Rattle.fan_in.specs.Gathering.{AreSameFeeds};
ghost use Rattle.fan_in.specs.Owning.{OwnsAfter, entries_in, note_of};
ghost use Rattle.fan_in.specs.Posts.{AreOwned};
ghost use Rattle.fan_in.specs.Ports.{IsAbout};
ghost use Rattle.fan_in.specs.Settling.{AreAllBack, AreSentRows, BackIsHeld, BackOver, Follows, HoldsSent, IsAllBack, IsSettledShard, SentIsHeld, SentOver, worse};
ghost use Rattle.fan_in.specs.Works.{IsReserved};

use crate::gathered::FeedEnd;
use crate::mail::coming_back::bring_back;
use crate::mail::message::Message;
use crate::mail::outbox::Outbox;
use crate::mail::owner::Owner;
use crate::mail::owner_job::OwnerJob;
use crate::outcome::Outcome;
use crate::plan::Plan;
use mail_lane::{Mail, Settled};
use outside::Gate;
use shard_core::Shard;
use std::alloc::Global;
use std::sync::Wait;
use std::thread::Threads;

// Settles all lanes in their order, and hands the shards out. What the owners noted goes into the
// outcomes of the feeds.
pub(crate) fn settle_all<F, G: Gate, R: Threads + Wait>(
    rt: &R,
    gate: &G,
    alloc: Global,
    plan: &Plan,
    lanes: Vec<Mail<Message>>,
    mut owners: Vec<OwnerJob>,
    rows: Vec<Vec<Outbox>>,
    shards: &mut Vec<Shard>,
    ends: &mut [FeedEnd<F>],
)
    requires owned { AreOwned plan.now.defs plan.now.sources lanes.items owners.items }
    requires rows { AreSentRows plan.now.sources lanes.items rows.items }
    requires room { IsReserved (length lanes.items) shards.old }
    requires one_each { length ends.old ≡ plan.now.sources }
    requires over { SentOver rows.items ends.old }
    ensures many { length shards.new.items ≡ length lanes.items }
    ensures settled { All (IsSettledShard plan.now.defs plan.now.sources) shards.new.items }
    ensures same { AreSameFeeds ends.old ends.new }
    ensures follows { (i : ℕ) (e : _) → i < length ends.old → Follows (length lanes.items)
        (slice_index_or ends.old i e).outcome (slice_index_or ends.new i e).outcome }
    ensures held { SentIsHeld (length lanes.items) rows.items ends.old ends.new shards.new.items }
{
    bring_back(&lanes, owners.as_mut_slice(), rows);
    settle_each(rt, gate, alloc, plan, lanes, owners, shards, ends);
}

// The same, where all senders are back.
fn settle_each<F, G: Gate, R: Threads + Wait>(
    rt: &R,
    gate: &G,
    alloc: Global,
    plan: &Plan,
    lanes: Vec<Mail<Message>>,
    owners: Vec<OwnerJob>,
    shards: &mut Vec<Shard>,
    ends: &mut [FeedEnd<F>],
)
    requires back { AreAllBack plan.now.defs plan.now.sources lanes.items owners.items }
    requires room { IsReserved (length lanes.items) shards.old }
    requires one_each { length ends.old ≡ plan.now.sources }
    requires over { BackOver lanes.items owners.items ends.old }
    ensures many { length shards.new.items ≡ length lanes.items }
    ensures settled { All (IsSettledShard plan.now.defs plan.now.sources) shards.new.items }
    ensures same { AreSameFeeds ends.old ends.new }
    ensures follows { (i : ℕ) (e : _) → i < length ends.old → Follows (length lanes.items)
        (slice_index_or ends.old i e).outcome (slice_index_or ends.new i e).outcome }
    ensures held { BackIsHeld (length lanes.items) owners.items ends.old ends.new
        shards.new.items }
{
    let many = lanes.len();
    let mut lanes = lanes.into_iter();
    let mut owners = owners.into_iter();
    for _k in 0..many {
        let mail = lanes.next().unwrap();
        let job = owners.next().unwrap();
        let owner = settle_lane(rt, gate, alloc, plan, mail, job);
        take_notes(ends, &owner.notes);
        shards.push_reserved(owner.shard);
    }
}

// Settles one lane, whose senders are all back: the owner applies what is left.
fn settle_lane<G: Gate, R: Threads + Wait>(
    rt: &R,
    gate: &G,
    alloc: Global,
    plan: &Plan,
    mail: Mail<Message>,
    job: OwnerJob,
) -> Owner
    requires back { IsAllBack plan.now.defs plan.now.sources job.owner.number mail job }
    ensures settled { IsSettledShard plan.now.defs plan.now.sources result.shard }
    ensures about { (i : ℕ) → IsAbout job.owner.number (note_of i result.notes) }
    ensures held { (i : ℕ) → HoldsSent job.owner.number i (sent_by i job.receiver.back)
        (note_of i result.notes) result.shard.journal }
{
    let OwnerJob {
        receiver,
        mut owner,
    } = job;
    let _sources = plan.sources;
    let mut settled = mail.settle(rt, receiver, Vec::new(alloc));
    apply_rest(rt, gate, &mut settled, &mut owner);
    if owner.stray {
        // Of each source the owner has just what its feed sent, and a feed sends nothing that is
        // behind its end.
        unreachable!()
    }
    owner
}

// The owner applies what is left in a settled lane.
fn apply_rest<G: Gate, R: Threads + Wait>(
    rt: &R,
    gate: &G,
    settled: &mut Settled<Message>,
    owner: &mut Owner,
)
    ensures whole { TakenWhole settled.new }
    ensures sent { settled.new.sent ≡ settled.old.sent }
    ensures after { (d : Definitions) (sources k : ℕ)
        → OwnsAfter d sources k (entries_in settled.old.taken) owner.old
        → OwnsAfter d sources k (entries_in settled.new.taken) owner.new }
{
    'left: for _ in rt.forever() {
        match settled.next(rt) {
            Some(message) => owner.take_in(rt, gate, &message),
            None => return,
        }
    }
    unreachable!()
}

// What an owner noted of each source goes into the outcome of its feed.
fn take_notes<F>(ends: &mut [FeedEnd<F>], notes: &[Outcome; 16])
    requires few { length ends.old ≤ 16 }
    ensures same { AreSameFeeds ends.old ends.new }
    ensures outcomes { (i : ℕ) (e : _) → i < length ends.old
        → (slice_index_or ends.new i e).outcome
        ≡ worse (slice_index_or ends.old i e).outcome (note_of i notes.now) }
{
    for i in 0..ends.len() {
        ends[i].outcome = worse(ends[i].outcome, notes[i]);
    }
}

// An outcome that takes in a further note.
fn worse(outcome: Outcome, note: Outcome) -> Outcome
    ensures { result ≡ worse outcome note }
{
    match (outcome, note) {
        (Outcome::Fault(_), _) | (Outcome::Full { .. }, Outcome::Done | Outcome::Full { .. }) => {
            outcome
        }
        (Outcome::Done, _) | (Outcome::Full { .. }, Outcome::Fault(_)) => note,
    }
}
