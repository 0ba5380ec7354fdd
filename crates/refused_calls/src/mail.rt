//! The row of a lane with two senders.
ghost use Rattle.std.specs.Prelude.{◌≡◌, ◌<◌, ◌^◌, [], All, length, OnOk, OnErr};
ghost use Rattle.mail_lane.specs.Lane.{AreSendersOf, IsReceiverOf, IsSenderOf, with_message};

use crate::difference::Difference;
use crate::trouble::Trouble;
use mail_lane::{Back, Mail, Receiver, Sender, Settled};
use std::alloc::Global;
use std::sync::Wait;

/// Two senders send three messages, the receiver takes them, and the lane is settled.
pub fn mail<R: Print + Wait>(rt: &R, alloc: Global) -> Result<(), Trouble> {
    let (mail, mut receiver, mut senders) = Mail::new(alloc, 2)?;
    let messages = [(0, 1), (0, 2), (1, 3)];
    send_each(rt, &mail, &mut senders, &messages)?;
    let first = take_next(rt, &mail, &mut receiver);
    let second = take_next(rt, &mail, &mut receiver);
    let third = take_next(rt, &mail, &mut receiver);
    let none = take_next(rt, &mail, &mut receiver);
    let mut settled = settle_all(rt, mail, receiver, senders);
    let left = settled.next(rt);
    println!(rt; "taken {first:?} {second:?} {third:?} {none:?}, left {left:?}")?;
    Ok(())
}

// Takes the oldest message of the lane, and no sender back.
fn take_next<R: Wait>(rt: &R, mail: &Mail<u64>, receiver: &mut Receiver<u64>) -> Option<u64>
    requires { IsReceiverOf mail.now receiver.old }
    ensures receiver { IsReceiverOf mail.now receiver.new }
    ensures back { receiver.new.back ≡ receiver.old.back }
{
    match mail.take(rt, receiver) {
        Some(message) => Some(message),
        None => None,
    }
}

// Settles the lane with all its senders.
fn settle_all<R: Wait>(
    rt: &R,
    mail: Mail<u64>,
    receiver: Receiver<u64>,
    senders: Vec<Sender<u64>>,
) -> Settled<u64>
    requires receiver { IsReceiverOf mail receiver }
    requires back { receiver.back ≡ [] }
    requires senders { AreSendersOf mail senders.items }
{
    mail.settle(rt, receiver, senders)
}

// Sends each message by the sender at its place.
fn send_each<R: Wait>(
    rt: &R,
    mail: &Mail<u64>,
    senders: &mut Vec<Sender<u64>>,
    messages: &[(usize, u64)],
) -> Result<(), Trouble>
    requires senders { AreSendersOf mail.now senders.old.items }
    requires unsent { All (λ sender. sender.sent ≡ []) senders.old.items }
    requires few { length messages.now < 2 ^ 32 }
    requires places { All (λ message. message.0 < length senders.old.items) messages.now }
    ensures { AreSendersOf mail.now senders.new.items }
{
    for (place, message) in messages {
        send_again(rt, mail, &mut senders[*place], *message)?;
    }
    Ok(())
}

// Sends a message, and sends what came back where memory was refused.
fn send_again<R: Wait>(
    rt: &R,
    mail: &Mail<u64>,
    sender: &mut Sender<u64>,
    message: u64,
) -> Result<(), Trouble>
    requires sender { IsSenderOf mail.now sender.old }
    requires few { length sender.old.sent < 2 ^ 32 }
    ensures sent { OnOk result (sender.new ≡ with_message sender.old message) }
    ensures unsent { OnErr result (sender.new ≡ sender.old) }
{
    match mail.send(rt, sender, message) {
        Ok(()) => Ok(()),
        Err(Back { message: back }) => match mail.send(rt, sender, back) {
            Ok(()) => Ok(()),
            Err(Back { message: _ }) => Err(Trouble::Differs(Difference::Twice)),
        },
    }
}
