ghost use Rattle.std.specs.Prelude.{◌≡◌, ◌<◌, ◌^◌, ◌-◌, vec_len, All, IfOk};
ghost use Rattle.turnstile.specs.Passes.{room, IsPassOf};

use crate::pairs::{Append, Pairs, WaitFor};
use std::alloc::Global;
use std::process::Abort;
use std::sync::Wait;
use std::sync::atomic::{AtomicU64, Ordering};
use std::test::Fail;
use std::thread;
use std::thread::Threads;
use turnstile::{Call, Keeps, Pass, PassEnd, Turnstile, Unclosed};

#[test]
fn turns_of_two_passes_stand_in_the_order_in_which_they_were_taken(
    rt: HostRuntime,
) -> Result<(), Fail> {
    let alloc: Global = rt.alloc();
    let (turnstile, mut zero) = Turnstile::new(alloc, Pairs::new(alloc))?;
    let mut one = turnstile.split(&mut zero)?;
    assert_eq!(rt; (zero.number(), one.number()), (0, 1));
    assert_eq!(rt; (zero.room(), one.room()), ((1 << 62) - 2, 0));
    turnstile.turn(&rt, &mut zero, Append { value: 5 })?;
    turnstile.turn(&rt, &mut one, Append { value: 6 })?;
    turnstile.meet(&mut zero, &mut one)?;
    let passes = vec![in alloc; zero, one]?;
    let (pairs, ends) = closed(turnstile.close(&rt, alloc, passes))?;
    assert_eq!(rt; pairs.items.as_slice(), [(0, 5), (1, 6)].as_slice());
    assert_eq!(rt;
        ends.as_slice(),
        [PassEnd { number: 0 }, PassEnd { number: 1 }].as_slice()
    );
    Ok(())
}

#[test]
fn the_number_of_a_pass_that_was_given_up_is_not_drawn_again(rt: HostRuntime) -> Result<(), Fail> {
    let alloc: Global = rt.alloc();
    let (turnstile, mut zero) = Turnstile::new(alloc, Pairs::new(alloc))?;
    let one = turnstile.split(&mut zero)?;
    let two = turnstile.split(&mut zero)?;
    let given_up = one.number();
    drop(one);
    let three = turnstile.split(&mut zero)?;
    assert_eq!(rt; (given_up, two.number(), three.number()), (1, 2, 3));
    let passes = vec![in alloc; zero, two, three]?;
    let (_pairs, ends) = closed(turnstile.close(&rt, alloc, passes))?;
    assert_eq!(rt; ends.len(), 3);
    Ok(())
}

fn closed(
    outcome: Result<(Pairs, Vec<PassEnd>), Unclosed<Pairs>>,
) -> Result<(Pairs, Vec<PassEnd>), &'static str> {
    outcome.map_err(|_| "no memory to close with")
}

const PASSES: u64 = 8;

const TURNS: u64 = 1000;

#[test]
fn turns_in_eight_threads_lose_nothing_and_keep_each_order(rt: HostRuntime) -> Result<(), Fail> {
    eight_threads(&rt, rt.alloc())
}

fn eight_threads<R: Threads + Wait + Abort + Sync>(rt: &R, alloc: Global) -> Result<(), Fail> {
    let (turnstile, zero) = Turnstile::new(alloc, Pairs::new(alloc))?;
    let mut passes = all_passes(alloc, &turnstile, zero)?;
    let shared = &turnstile;
    thread::for_each_mut(
        rt,
        passes.as_mut_slice(),
        PASSES as usize,
        &|_, pass: &mut Pass<Pairs>|
            requires { IsPassOf shared.now pass.now }
            ensures { IsPassOf shared.entry.now pass.exit.now }
        { take_turns(rt, shared, pass) },
    );
    let (pairs, ends) = closed(turnstile.close(rt, alloc, passes))?;
    assert_eq!(rt; ends.len() as u64, PASSES);
    assert_eq!(rt; pairs.items.len() as u64, PASSES * TURNS);
    let mut next = [0u64; 8];
    for (number, value) in pairs.items.as_slice() {
        assert!(rt; *number < PASSES && *value < TURNS);
        let number = *number as usize;
        assert_eq!(rt; *value, next[number]);
        next[number] = *value + 1;
    }
    Ok(())
}

// Pass zero, and seven that it makes.
fn all_passes(
    alloc: Global,
    turnstile: &Turnstile<Pairs>,
    mut zero: Pass<Pairs>,
) -> Result<Vec<Pass<Pairs>>, Fail>
    requires { IsPassOf turnstile.now zero × (room zero ≡ 2 ^ 62 - 1) }
    ensures { IfOk result (λ v. All (λ p. IsPassOf turnstile.now p) v.items × (0 < vec_len v)) }
{
    let mut passes = Vec::with_capacity(alloc, PASSES as usize)?;
    for _i in 1..PASSES {
        let pass = turnstile.split(&mut zero)?;
        passes.push(pass)?;
    }
    passes.push(zero)?;
    Ok(passes)
}

fn take_turns<R: Wait>(rt: &R, turnstile: &Turnstile<Pairs>, pass: &mut Pass<Pairs>)
    requires { IsPassOf turnstile.now pass.old }
    ensures { IsPassOf turnstile.now pass.new }
{
    for value in 0..TURNS {
        let _ = turnstile.turn(rt, pass, Append { value });
    }
}

#[test]
fn a_turn_of_one_turnstile_does_not_hold_up_another(rt: HostRuntime) -> Result<(), Fail> {
    two_turnstiles(&rt, rt.alloc())
}

const LOOKS: u64 = 50_000_000;

fn two_turnstiles<R: Threads + Wait + Abort + Sync>(rt: &R, alloc: Global) -> Result<(), Fail> {
    let (first, mut one) = Turnstile::new(alloc, Pairs::new(alloc))?;
    let (second, mut other) = Turnstile::new(alloc, Pairs::new(alloc))?;
    let flag = AtomicU64::new(0);
    let (seen, added) = thread::join(
        rt,
        || {
            first.turn(
                rt,
                &mut one,
                WaitFor {
                    flag: &flag,
                    looks: LOOKS,
                },
            )
        },
        || {
            let added = second.turn(rt, &mut other, Append { value: 7 });
            flag.store(1, Ordering::SeqCst);
            added
        },
    );
    added?;
    assert!(rt; seen);
    Ok(())
}
