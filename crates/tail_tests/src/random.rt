//! Generated entries of two sources, through the follower and through a plain body, compared at
//! each.
ghost use Rattle.std.specs.Prelude.{◌≡◌, ◌≤◌, ◌<◌, IfOk, OnOk};
ghost use Rattle.stream_base.specs.declared.limits.TheConstants.{TIME_MAX};
ghost use Rattle.tail_windows.specs.Following.{number_of_sources, time_in};

use crate::draws::{Draws, ENTRIES};
use crate::plain::Plain;
use agg_laws::Steps;
use std::alloc::Global;
use std::process::Abort;
use std::test::Fail;
use stream_base::{Entry, Func, KeyText};
use tail_windows::{TailChange, Tails};

// Keeps the counters of a test apart.
struct Work;

// So many seeds are gone through, each with a function in turn.
const SEEDS: u64 = 9;

const FUNCS: [Func; 9] = [
    Func::Sum,
    Func::Count,
    Func::First,
    Func::Last,
    Func::Trace,
    Func::Min,
    Func::Max,
    Func::Mean,
    Func::Rises,
];

// What was compared, in numbers.
#[derive(Clone, Copy)]
struct Seen {
    new: u64,
    again: u64,
    dropped: u64,
}

impl Seen {
    fn nothing() -> Seen {
        Seen {
            new: 0,
            again: 0,
            dropped: 0,
        }
    }

    fn note(&mut self, changes: &[TailChange]) {
        for change in changes {
            match change {
                TailChange::New(_) => self.new = self.new.saturating_add(1),
                TailChange::Again(_) => self.again = self.again.saturating_add(1),
                TailChange::Dropped => self.dropped = self.dropped.saturating_add(1),
            }
        }
    }
}

// The changes of an entry, by the follower and by the plain body, the follower's steps, and what
// was compared so far.
#[derive(Drop)]
struct Compared {
    out: Vec<TailChange>,
    want: Vec<TailChange>,
    steps: Steps<Work>,
    seen: Seen,
}

// An entry goes through both, and its changes are the same.
fn step(
    rt: &impl Abort,
    tails: &mut Tails,
    plain: &mut Plain,
    entry: &Entry,
    compared: &mut Compared,
) -> Result<(), Fail>
    requires source { entry.now.source < 2 }
    requires time { time_in (entry.now).what ≤ TIME_MAX }
    requires tails { number_of_sources tails.old ≡ 2 }
    ensures { OnOk result (number_of_sources tails.new ≡ 2) }
{
    compared.out.clear();
    compared.want.clear();
    tails.apply(entry, &mut compared.out, &mut compared.steps)?;
    plain.apply(entry, &mut compared.want)?;
    assert_eq!(rt;
        compared.out.as_slice(),
        compared.want.as_slice(),
        "under {entry:?}"
    );
    compared.seen.note(&compared.out);
    Ok(())
}

// All entries of a seed go through both.
fn follow(
    rt: &impl Abort,
    tails: &mut Tails,
    plain: &mut Plain,
    draws: &mut Draws,
    keys: &[KeyText; 3],
    compared: &mut Compared,
) -> Result<(), Fail>
    requires { number_of_sources tails.old ≡ 2 }
{
    for number in 0..ENTRIES {
        let entry = draws.entry(number, keys);
        step(rt, tails, plain, &entry, compared)?;
    }
    Ok(())
}

// A window and the entries, drawn from a seed, through both.
fn compare(
    rt: &impl Abort,
    alloc: Global,
    seed: u64,
    keys: &[KeyText; 3],
    compared: &mut Compared,
) -> Result<(), Fail> {
    let mut draws = Draws { seed };
    let def = draws.def(FUNCS[(seed % 9) as usize]);
    let lateness = draws.below(21);
    let mut tails = Tails::new(alloc, def, 2, lateness)?;
    let mut plain = Plain::new(alloc, def, lateness, *keys);
    follow(rt, &mut tails, &mut plain, &mut draws, keys, compared)
}

fn three_keys() -> Result<[KeyText; 3], Fail> {
    let a = KeyText::from_bytes(b"a")?;
    let b = KeyText::from_bytes(b"ab")?;
    let c = KeyText::from_bytes(b"b")?;
    Ok([a, b, c])
}

#[test]
fn changes_are_those_of_a_plain_body(rt: HostRuntime) -> Result<(), Fail> {
    let keys = three_keys()?;
    let mut compared = Compared {
        out: Vec::new(rt.alloc()),
        want: Vec::new(rt.alloc()),
        steps: Steps::start(&rt),
        seen: Seen::nothing(),
    };
    for seed in 0..SEEDS {
        compare(&rt, rt.alloc(), seed, &keys, &mut compared)?;
    }
    let Seen {
        new,
        again,
        dropped,
    } = compared.seen;
    assert!(rt; new >= 200);
    assert!(rt; again >= 60);
    assert!(rt; dropped >= 100);
    Ok(())
}
