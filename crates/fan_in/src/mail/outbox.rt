ghost use Rattle.std.specs.Prelude.{◌≡◌, ◌≤◌, ◌<◌, true, [], length, OnOk, OnErr};
ghost use Rattle.stream_base.specs.declared.limits.TheConstants.{JOURNAL_MAX};
ghost use Rattle.stream_base.specs.Model.Journals.{is_entry_within};
ghost use Rattle.mail_lane.specs.Lane.{IsSenderOf, with_message};
ghost use Rattle.fan_in.specs.Sending.{IsSameSender, sender_laws};

use crate::mail::message::Message;
use crate::outcome::Outcome;
use crate::port::Port;
use mail_lane::{Back, Mail, Sender};
use outside::Gate;
use source_feed::FeedFault;
use std::marker::Model;
use std::sync::Wait;
use std::thread::Threads;
use stream_base::{Entry, JOURNAL_MAX, NoMemory};

// A sender of a lane, which counts what it has sent. Contracts see the sender.
#[derive(Drop)]
pub(crate) struct Outbox {
    sender: Sender<Message>,
    count: u64,
}

impl Model for Outbox {
    ghost use Rattle.std.specs.Prelude.{◌≡◌, length};
    ghost use Rattle.stream_base.specs.declared.entry.Entry.{Entry};
    ghost use Rattle.mail_lane.specs.Lane.{SenderState};

    ghost Value = { SenderState Entry };

    ghost view = { λ o. o.sender };

    ghost invariant = { λ o. o.count ≡ length o.sender.sent };
}

impl Outbox {
    pub(crate) fn new(sender: Sender<Message>) -> Outbox
        requires { sender.sent ≡ [] }
        ensures { result ≡ sender }
    {
        Outbox { sender, count: 0 }
    }

    pub(crate) fn into_sender(self) -> Sender<Message>
        ensures { result ≡ self }
    {
        let Outbox { sender, count: _ } = self;
        sender
    }

    // Sends one entry more. A lane takes no more than one above what a journal holds.
    fn send<R: Wait>(&mut self, rt: &R, mail: &Mail<Message>, entry: Entry) -> Result<(), NoMemory>
        requires own { IsSenderOf mail.now self.old }
        requires within { is_entry_within entry ≡ true }
        requires few { length (self.old).sent ≤ JOURNAL_MAX }
        ensures sent { OnOk result (self.new ≡ with_message self.old entry) }
        ensures unsent { OnErr result (self.new ≡ self.old) }
    {
        match mail.send(rt, &mut self.sender, Message::new(entry)) {
            Ok(()) => {
                self.count += 1;
                Ok(())
            }
            Err(Back { message: _ }) => Err(NoMemory),
        }
    }
}

impl Port for Outbox {
    type Inlet = Mail<Message>;

    ghost is_at = { λ mail sender. IsSenderOf mail sender };

    ghost is_of = { λ source sender. sender.number ≡ source };

    ghost is_same = { λ old new. IsSameSender old new };

    ghost handed = { λ sender. sender.sent };

    ghost is_full = { λ sender. JOURNAL_MAX < length sender.sent };

    ghost laws = { sender_laws };

    // A lane that got more than a journal holds is full.
    fn hand_in<G: Gate, R: Threads + Wait>(
        &mut self,
        rt: &R,
        _gate: &G,
        inlet: &Mail<Message>,
        shard: u16,
        entry: &Entry,
    ) -> Outcome {
        if self.count > JOURNAL_MAX {
            return Outcome::Full { shard };
        }
        match self.send(rt, inlet, *entry) {
            Ok(()) => Outcome::Done,
            Err(NoMemory) => Outcome::Fault(FeedFault::NoMemory),
        }
    }
}
