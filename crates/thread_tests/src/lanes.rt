ghost use Rattle.std.specs.Prelude.{◌≡◌, ◌≤◌, ◌<◌, ◌^◌, ℕ, [], All, length, slice_get, slice_index_or, Some, IfOk};
ghost use Rattle.mail_lane.specs.Lane.{IsSenderOf, IsReceiverOf, AreSendersOf};

use mail_lane::{Back, Letter, Mail, Receiver, Sender, Settled};
use std::alloc::{AllocError, Global};
use std::sync::Wait;
use std::sync::atomic::{AtomicBool, Ordering};
use std::test::Fail;
use std::thread;
use std::thread::Threads;

const COUNT: u32 = 10_000;

// The place of its sender, and its number in the order of sending.
#[derive(Clone, Copy, Debug)]
struct Numbered {
    place: usize,
    number: u32,
}

#[test]
fn takes_each_senders_messages_in_the_order_of_sending(rt: HostRuntime) -> Result<(), Fail> {
    let (mail, mut receiver, mut senders) = Mail::new(rt.alloc(), 2)?;
    send_each(
        &rt,
        &mail,
        senders.as_mut_slice(),
        &[(0, 1), (0, 2), (1, 3)],
    )?;
    let taken = [
        mail.take(&rt, &mut receiver),
        mail.take(&rt, &mut receiver),
        mail.take(&rt, &mut receiver),
    ];
    assert_eq!(rt; taken, [Some(1), Some(2), Some(3)]);
    assert_eq!(rt; mail.take(&rt, &mut receiver), None);
    let mut settled = mail.settle(&rt, receiver, senders);
    assert_eq!(rt; settled.next(&rt), None);
    Ok(())
}

#[test]
fn gives_after_settling_what_was_left(rt: HostRuntime) -> Result<(), Fail> {
    let (mail, mut receiver, mut senders) = Mail::new(rt.alloc(), 2)?;
    send_each(
        &rt,
        &mail,
        senders.as_mut_slice(),
        &[(1, 7), (0, 8), (1, 9)],
    )?;
    assert_eq!(rt; mail.take(&rt, &mut receiver), Some(7));
    let mut settled = mail.settle(&rt, receiver, senders);
    let left = [settled.next(&rt), settled.next(&rt), settled.next(&rt)];
    assert_eq!(rt; left, [Some(8), Some(9), None]);
    Ok(())
}

#[test]
fn finds_nothing_once_it_has_all_of_the_senders_that_are_back(rt: HostRuntime) -> Result<(), Fail> {
    let (mail, mut receiver, mut senders) = Mail::new(rt.alloc(), 1)?;
    send_each(&rt, &mail, senders.as_mut_slice(), &[(0, 4), (0, 5)])?;
    mail.take_back(&mut receiver, senders.remove(0));
    let taken = [
        mail.take(&rt, &mut receiver),
        mail.take(&rt, &mut receiver),
        mail.take(&rt, &mut receiver),
    ];
    assert_eq!(rt; taken, [Some(4), Some(5), None]);
    Ok(())
}

// Sends each message by the sender at its place.
fn send_each<R: Wait>(
    rt: &R,
    mail: &Mail<u64>,
    senders: &mut [Sender<u64>],
    messages: &[(usize, u64)],
) -> Result<(), Back<u64>>
    requires senders { AreSendersOf mail.now senders.old }
    requires unsent { All (λ sender. sender.sent ≡ []) senders.old }
    requires few { length messages.now < 2 ^ 32 }
    requires places { All (λ message. message.0 < length senders.old) messages.now }
    ensures { AreSendersOf mail.now senders.new }
{
    for (place, message) in messages {
        mail.send(rt, &mut senders[*place], *message)?;
    }
    Ok(())
}

#[test]
fn four_senders_messages_arrive_in_order_whole_and_once(rt: HostRuntime) -> Result<(), Fail> {
    let (mail, receiver, senders) = Mail::new(rt.alloc(), 4)?;
    let got = Vec::with_capacity(rt.alloc(), 40_000)?;
    let ended = AtomicBool::new(false);
    let (senders, got) = run_all(&rt, &mail, senders, receiver, got, &ended);
    let (receiver, mut got) = got?;
    let mut settled = mail.settle(&rt, receiver, senders);
    for _ in rt.forever() {
        let Some(message) = settled.next(&rt) else {
            break;
        };
        got.push(message)?;
    }
    let mut next = [0; 4];
    for message in &got {
        assert!(rt; counts(&mut next, *message), "{message:?} came out of turn");
    }
    assert_eq!(rt; next, [COUNT; 4]);
    Ok(())
}

// Runs the four senders in threads beside the receiver.
fn run_all<R: Threads + Wait + Sync>(
    rt: &R,
    mail: &Mail<Numbered>,
    senders: Vec<Sender<Numbered>>,
    receiver: Receiver<Numbered>,
    got: Vec<Numbered>,
    ended: &AtomicBool,
) -> (
    Vec<Sender<Numbered>>,
    Result<(Receiver<Numbered>, Vec<Numbered>), AllocError>,
)
    requires senders { AreSendersOf mail.now senders.items
        × All (λ sender. sender.sent ≡ []) senders.items }
    requires receiver { IsReceiverOf mail.now receiver × (receiver.back ≡ []) }
    ensures senders { AreSendersOf mail.now result.0.items }
    ensures receiver { IfOk result.1 (λ got. IsReceiverOf mail.now got.0 × (got.0.back ≡ [])) }
{
    thread::join(
        rt,
        move || -> Vec<Sender<Numbered>>
            requires { AreSendersOf mail.now senders.items
                × All (λ sender. sender.sent ≡ []) senders.items }
            ensures { AreSendersOf mail.entry.now result.items }
        {
            let senders = send_all(rt, mail, senders);
            ended.store(true, Ordering::SeqCst);
            senders
        },
        move || -> Result<(Receiver<Numbered>, Vec<Numbered>), AllocError>
            requires { IsReceiverOf mail.now receiver × (receiver.back ≡ []) }
            ensures { IfOk result (λ got. IsReceiverOf mail.entry.now got.0
                × (got.0.back ≡ [])) }
        { take_all(rt, mail, receiver, got, ended) },
    )
}

// Each sender sends its messages in a thread of its own.
fn send_all<R: Threads + Wait + Sync>(
    rt: &R,
    mail: &Mail<Numbered>,
    mut senders: Vec<Sender<Numbered>>,
) -> Vec<Sender<Numbered>>
    requires { AreSendersOf mail.now senders.items
        × All (λ sender. sender.sent ≡ []) senders.items }
    ensures { AreSendersOf mail.now result.items }
{
    thread::for_each_mut(
        rt,
        senders.as_mut_slice(),
        4,
        &|place, sender| { send_numbered(rt, mail, sender, place) },
    );
    senders
}

fn send_numbered<R: Wait>(
    rt: &R,
    mail: &Mail<Numbered>,
    sender: &mut Sender<Numbered>,
    place: usize,
)
    requires { IsSenderOf mail.now sender.old × (sender.old.sent ≡ []) }
    ensures { (sender.new.lane ≡ sender.old.lane) × (sender.new.number ≡ sender.old.number) }
{
    for number in 0..COUNT {
        if mail.send(rt, sender, Numbered { place, number }).is_err() {
            return;
        }
    }
}

// Takes until the lane is empty after all senders have ended.
fn take_all<R: Wait>(
    rt: &R,
    mail: &Mail<Numbered>,
    mut receiver: Receiver<Numbered>,
    mut got: Vec<Numbered>,
    ended: &AtomicBool,
) -> Result<(Receiver<Numbered>, Vec<Numbered>), AllocError>
    requires { IsReceiverOf mail.now receiver × (receiver.back ≡ []) }
    ensures { IfOk result (λ got. IsReceiverOf mail.now got.0 × (got.0.back ≡ [])) }
{
    for _ in rt.forever() {
        let is_last = ended.load(Ordering::SeqCst);
        match mail.take(rt, &mut receiver) {
            Some(message) => got.push(message)?,
            None if is_last => return Ok((receiver, got)),
            None => thread::yield_now(),
        }
    }
    unreachable!()
}

// Whether the message is the next of its sender, which is then counted.
fn counts(next: &mut [u32; 4], message: Numbered) -> bool {
    if message.place < 4 && message.number < COUNT && next[message.place] == message.number {
        next[message.place] = message.number + 1;
        true
    } else {
        false
    }
}
