ghost use Rattle.std.specs.Prelude.{◌≡◌, ◌<◌, ◌+◌, [], All, length, IfOk, OnOk};
ghost use Rattle.mail_lane.specs.Lane.{AreSendersOf};
ghost use Rattle.fan_in.specs.Posts.{GainBoxes, IsPostOf};

use crate::mail::message::Message;
use crate::mail::outbox::Outbox;
use crate::mail::owner::Owner;
use crate::mail::owner_job::OwnerJob;
use crate::plan::Plan;
use crate::work::empty_rows;
use mail_lane::{Mail, Sender};
use shard_core::Shard;
use std::alloc::Global;
use stream_base::NoMemory;

// The lanes of all shards, and the owner of each.
#[derive(Drop)]
pub(crate) struct Post {
    pub(crate) lanes: Vec<Mail<Message>>,
    pub(crate) owners: Vec<OwnerJob>,
}

// Opens a lane for each shard, with a sender for each source, which stand in a row for each source.
pub(crate) fn open_post(alloc: Global, plan: &Plan) -> Result<(Post, Vec<Vec<Outbox>>), NoMemory>
    ensures open { IfOk result (λ r. IsPostOf plan.now plan.now.shards r.0 r.1.items) }
{
    let mut rows = empty_rows(alloc, plan.sources)?;
    let mut post = Post {
        lanes: Vec::new(alloc),
        owners: Vec::new(alloc),
    };
    for k in 0..plan.shards {
        open_lane(alloc, plan, k, &mut post, &mut rows)?;
    }
    Ok((post, rows))
}

// Opens one lane more.
fn open_lane(
    alloc: Global,
    plan: &Plan,
    number: u16,
    post: &mut Post,
    rows: &mut Vec<Vec<Outbox>>,
) -> Result<(), NoMemory>
    requires few { number < 16 }
    requires open { IsPostOf plan.now number post.old rows.old.items }
    ensures open { OnOk result (IsPostOf plan.now (number + 1) post.new rows.new.items) }
{
    let shard = Shard::new(alloc, plan.defs.copy(alloc)?, plan.sources)?;
    let (mail, receiver, senders) = Mail::new(alloc, plan.sources)?;
    hand_outboxes(&mail, senders, rows.as_mut_slice())?;
    let owner = Owner::new(shard, number, plan);
    post.lanes.push(mail)?;
    post.owners.push(OwnerJob { receiver, owner })?;
    Ok(())
}

// Hands each row the sender of its source.
fn hand_outboxes(
    mail: &Mail<Message>,
    senders: Vec<Sender<Message>>,
    rows: &mut [Vec<Outbox>],
) -> Result<(), NoMemory>
    requires senders { AreSendersOf mail.now senders.items }
    requires unsent { All (λ sender. sender.sent ≡ []) senders.items }
    requires one_each { length rows.old ≡ length senders.items }
    ensures many { length rows.new ≡ length rows.old }
    ensures rows { OnOk result (GainBoxes mail.now rows.old rows.new) }
{
    let _lane = mail;
    let mut senders = senders.into_iter();
    for i in 0..rows.len() {
        let sender = senders.next().unwrap();
        rows[i].push(Outbox::new(sender))?;
    }
    Ok(())
}
