ghost use Rattle.std.specs.Prelude.{◌≡◌, ◌<◌, ◌+◌, ◌^◌, ◌∷◌, [], ◌++◌, ℕ, slice_get, All, length, map, OnOk, OnErr, IfOk, IfErr, IfNone, IfSome};
ghost use Rattle.crossbeam_queue.specs.SegTies.{IsSegPassOf};
ghost use Rattle.mail_lane.specs.declared.role.Role.TheVariants.{Receiving};
ghost use Rattle.mail_lane.specs.Lane.{with_message, with_back, ReceivesOne, HasWhole, IsSenderOf, AreNumberedFrom, AreRestOf, AreSendersOf, IsReceiverOf, TakenInOrder};

use crate::back::Back;
use crate::letter::Letter;
use crate::line::{Collects, Line, Opens, Pass, Queue, Sends, Settles, Takes};
use crate::receiver::Receiver;
use crate::sender::Sender;
use crate::settled::Settled;
use std::alloc::Global;
use std::marker::Model;
use std::sync::Wait;
use stream_base::NoMemory;

/// A lane from any number of senders to one receiver, shared by reference.
#[derive(Drop)]
pub struct Mail<M> {
    line: Line<M>,
    senders: u16,
}

impl<M> Model for Mail<M> {
    ghost use Rattle.mail_lane.specs.Lane.{Lane};

    ghost Value = { Lane };

    ghost view = { λ m. record { id = m.line.queue; senders = m.senders } };
}

impl<M: Drop> Mail<M> {
    /// A lane with its receiver and this many senders, which are numbered from 0 by their places.
    pub fn new(
        alloc: Global,
        senders: u16,
    ) -> Result<(Mail<M>, Receiver<M>, Vec<Sender<M>>), NoMemory>
        requires { 0 < senders }
        ensures count { IfOk result (λ made. made.0.senders ≡ senders) }
        ensures receiver { IfOk result (λ made. IsReceiverOf made.0 made.1) }
        ensures untaken { IfOk result (λ made. (made.1.taken ≡ []) × (made.1.back ≡ [])) }
        ensures senders { IfOk result (λ made. AreSendersOf made.0 made.2.items) }
        ensures unsent { IfOk result (λ made. All (λ sender. sender.sent ≡ []) made.2.items) }
    {
        let mut all = Vec::with_capacity(alloc, usize::from(senders))?;
        let (queue, mut pass) = Queue::<M>::with_rule(alloc)?;
        let line = Line { queue };
        for number in 0..senders {
            all.push(open_sender(&line.queue, &mut pass, number))?;
        }
        Ok((Mail { line, senders }, Receiver { pass }, all))
    }

    /// Adds the message at the end of the lane, or gives it back where there is no memory for it.
    pub fn send<R: Wait>(&self, rt: &R, sender: &mut Sender<M>, message: M) -> Result<(), Back<M>>
        requires sender { IsSenderOf self.now sender.old }
        requires few { length sender.old.sent < 2 ^ 32 }
        ensures sent { OnOk result (sender.new ≡ with_message sender.old message) }
        ensures back { IfErr result (λ back. back.message ≡ message) }
        ensures unsent { OnErr result (sender.new ≡ sender.old) }
    {
        let queue = &self.line.queue;
        let from = sender.number;
        match queue.push_as::<Sends, R>(rt, &mut sender.pass, Letter { from, message }) {
            Ok(()) => Ok(()),
            Err(Letter { from: _, message }) => Err(Back { message }),
        }
    }

    /// The oldest message of the lane, or none where the lane was empty at a step of this call. So of
    /// the senders that were taken back it has all that they sent.
    pub fn take<R: Wait>(&self, rt: &R, receiver: &mut Receiver<M>) -> Option<M>
        requires { IsReceiverOf self.now receiver.old }
        ensures some { IfSome result (λ message. ReceivesOne receiver.old message receiver.new) }
        ensures none { IfNone result (receiver.new ≡ receiver.old) }
        ensures empty { IfNone result (HasWhole receiver.old) }
    {
        let letter = self.line.queue.pop_as::<Takes, R>(rt, &mut receiver.pass)?;
        Some(letter.message)
    }

    /// Takes back the sender of the next number, the first of them that isn't back. Its messages
    /// stay in the lane.
    pub fn take_back(&self, receiver: &mut Receiver<M>, sender: Sender<M>)
        requires receiver { IsReceiverOf self.now receiver.old }
        requires sender { IsSenderOf self.now sender }
        requires next { sender.number ≡ length receiver.old.back }
        ensures back { receiver.new ≡ with_back receiver.old sender.sent }
    {
        let Sender {
            pass: theirs,
            number: _,
        } = sender;
        self.line
            .queue
            .absorb::<Collects>(&mut receiver.pass, theirs);
    }

    /// Ends the lane, and keeps what is left in it. The receiver is handed in, with all senders that
    /// it hasn't taken back.
    pub fn settle<R: Wait>(
        self,
        rt: &R,
        receiver: Receiver<M>,
        senders: Vec<Sender<M>>,
    ) -> Settled<M>
        requires receiver { IsReceiverOf self receiver }
        requires senders { AreRestOf self receiver senders.items }
        ensures taken { result.taken ≡ receiver.taken }
        ensures sent { result.sent ≡ receiver.back ++ map (λ sender. sender.sent) senders.items }
        ensures in_order { TakenInOrder result }
    {
        let Mail { line, senders: _ } = self;
        let mut pass = collect_all(&line.queue, receiver, senders);
        line.queue.len_as::<Settles, R>(rt, &mut pass);
        Settled { line, pass }
    }
}

// Makes the sender of the next number.
fn open_sender<M: Drop>(queue: &Queue<M>, pass: &mut Pass<M>, number: u16) -> Sender<M>
    requires pass { IsSegPassOf queue.now pass.old }
    requires role { pass.old.me.view.client ≡ Receiving number [] [] }
    ensures pass { IsSegPassOf queue.now pass.new }
    ensures role { pass.new.me.view.client ≡ Receiving (number + 1) [] [] }
    ensures sender { result ≡ record { lane = queue.now; number = number; sent = [] } }
{
    let sender = queue.another::<Opens>(pass);
    Sender {
        pass: sender,
        number,
    }
}

// The receiver's pass, which has taken in all senders' passes.
fn collect_all<M: Drop>(queue: &Queue<M>, receiver: Receiver<M>, senders: Vec<Sender<M>>) -> Pass<M>
    requires receiver { receiver.lane ≡ queue.now }
    requires senders { AreNumberedFrom (length receiver.back) queue.now senders.items }
    ensures pass { IsSegPassOf queue.now result }
    ensures role { result.me.view.client ≡ Receiving receiver.senders receiver.taken
        (receiver.back ++ map (λ sender. sender.sent) senders.items) }
{
    let Receiver { mut pass } = receiver;
    for sender in senders {
        let Sender {
            pass: theirs,
            number: _,
        } = sender;
        queue.absorb::<Collects>(&mut pass, theirs);
    }
    pass
}
