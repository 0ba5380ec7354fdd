ghost use Rattle.std.specs.Prelude.{◌<◌};

use agg_laws::Steps;
use count_shift::{CountLane, Shifted};
use std::alloc::Global;
use std::process::Abort;
use std::test::Fail;
use stream_base::{Change, Def, FINAL, Former, Func, Kept, KeyText, Kind, NoMemory, Row, Shown};

// Keeps the steps of a test apart.
struct Work;

// Sums of two tuples each.
const PAIRS: Def = Def {
    kind: Kind::Events { count: 2 },
    func: Func::Sum,
};

// What comes to the sums of a key.
#[derive(Clone, Copy)]
enum Step {
    // A tuple of a value at a time, under a watermark, and its rank.
    Put(u64, i64, u64, u64),
    // A move of the watermark.
    Water(u64, u64),
    // No tuple comes before a time any more.
    Settle(u64),
}

// The sums of a key: its tuples, and the changes.
#[derive(Drop)]
struct Pairs {
    lane: CountLane,
    key: KeyText,
    changes: Vec<Change>,
    steps: Steps<Work>,
}

impl Pairs {
    // Sums of key `a` with no tuple yet.
    fn new(alloc: Global, steps: Steps<Work>) -> Result<Pairs, Fail> {
        let key = KeyText::from_bytes(b"a")?;
        Ok(Pairs {
            lane: CountLane::new(alloc),
            key,
            changes: Vec::new(alloc),
            steps,
        })
    }

    // Takes the steps, one after another; each comes with how many changes were told by then.
    fn follow(&mut self, rt: &impl Abort, script: &[(Step, usize)]) -> Result<(), Fail> {
        for k in 0..script.len() {
            let (step, told) = script[k];
            self.take(rt, k as u64, step)?;
            assert_eq!(rt; self.changes.len(), told, "after step {k}");
        }
        Ok(())
    }

    fn take(&mut self, rt: &impl Abort, pos: u64, step: Step) -> Result<(), Fail> {
        match step {
            Step::Put(time, value, water, rank) => {
                let found = self.put(pos, time, value, water)?;
                assert_eq!(rt; found, rank, "at step {pos}");
            }
            Step::Water(old, new) => self.move_water(old, new)?,
            Step::Settle(time) => self.lane.drop_settled(2, time),
        }
        Ok(())
    }

    // One tuple more under a watermark; it answers its rank.
    fn put(&mut self, pos: u64, time: u64, value: i64, water: u64) -> Result<u64, NoMemory> {
        let changes = self.lane.reserve(2, time, water)?;
        self.changes.reserve(changes as usize)?;
        let x = Kept {
            position: pos,
            time,
            value,
        };
        let Shifted { from_rank } = self.lane.put(
            0,
            &PAIRS,
            &self.key,
            x,
            water,
            &mut self.changes,
            &mut self.steps,
        );
        Ok(from_rank)
    }

    // A move of the watermark.
    fn move_water(&mut self, old: u64, new: u64) -> Result<(), NoMemory> {
        let due = self.lane.due(2, old, new);
        self.changes.reserve(due as usize)?;
        self.lane.rows(
            0,
            &PAIRS,
            &self.key,
            old,
            new,
            &mut self.changes,
            &mut self.steps,
        );
        Ok(())
    }
}

// The row of one of those sums, by its start.
fn pair(key: &KeyText, low: u64, sum: i128) -> Row
    requires { low < 100 }
{
    Row {
        window: 0,
        key: *key,
        low,
        high: low + 2,
        number: 2,
        shown: Shown::Whole(sum),
    }
}

fn new(key: &KeyText, low: u64, sum: i128) -> Change
    requires { low < 100 }
{
    Change::New(pair(key, low, sum))
}

fn again(key: &KeyText, low: u64, sum: i128, was: i128) -> Change
    requires { low < 100 }
{
    let former = Former {
        number: 2,
        shown: Shown::Whole(was),
    };
    Change::Again {
        row: pair(key, low, sum),
        former,
    }
}

#[test]
fn a_late_tuple_goes_to_its_rank(rt: HostRuntime) -> Result<(), Fail> {
    let script = [
        (Step::Put(1, 1, 9, 0), 0),
        (Step::Put(5, 2, 9, 1), 1),
        (Step::Put(3, 4, 9, 1), 2),
    ];
    let a = KeyText::from_bytes(b"a")?;
    let told = [new(&a, 0, 3), again(&a, 0, 5, 3)];
    let mut pairs = Pairs::new(rt.alloc(), Steps::start(&rt))?;
    pairs.follow(&rt, &script)?;
    assert_eq!(rt; pairs.changes.as_slice(), told.as_slice());
    Ok(())
}

#[test]
fn a_late_tuple_shifts_each_later_one(rt: HostRuntime) -> Result<(), Fail> {
    let script = [
        (Step::Put(1, 1, 0, 0), 0),
        (Step::Put(5, 2, 0, 1), 0),
        (Step::Put(7, 4, 0, 2), 0),
        (Step::Put(9, 8, 0, 3), 0),
        (Step::Water(0, 9), 2),
        (Step::Put(3, 16, 9, 1), 4),
        (Step::Water(9, FINAL), 4),
    ];
    let a = KeyText::from_bytes(b"a")?;
    let told = [
        new(&a, 0, 3),
        new(&a, 2, 12),
        again(&a, 0, 17, 3),
        again(&a, 2, 6, 12),
    ];
    let mut pairs = Pairs::new(rt.alloc(), Steps::start(&rt))?;
    pairs.follow(&rt, &script)?;
    assert_eq!(rt; pairs.changes.as_slice(), told.as_slice());
    Ok(())
}

#[test]
fn a_late_tuple_fills_an_instance(rt: HostRuntime) -> Result<(), Fail> {
    let script = [
        (Step::Put(1, 1, 0, 0), 0),
        (Step::Put(5, 2, 0, 1), 0),
        (Step::Water(0, 5), 1),
        (Step::Put(3, 16, 5, 1), 2),
        (Step::Put(2, 8, 5, 1), 4),
        (Step::Water(5, FINAL), 4),
    ];
    let a = KeyText::from_bytes(b"a")?;
    let told = [
        new(&a, 0, 3),
        again(&a, 0, 17, 3),
        again(&a, 0, 9, 17),
        new(&a, 2, 18),
    ];
    let mut pairs = Pairs::new(rt.alloc(), Steps::start(&rt))?;
    pairs.follow(&rt, &script)?;
    assert_eq!(rt; pairs.changes.as_slice(), told.as_slice());
    Ok(())
}

// Of six tuples the first four leave, and the others are told by the ranks that they have among all.
#[test]
fn instances_leave_that_no_tuple_shifts(rt: HostRuntime) -> Result<(), Fail> {
    let script = [
        (Step::Put(1, 1, 0, 0), 0),
        (Step::Put(2, 2, 0, 1), 0),
        (Step::Put(3, 4, 0, 2), 0),
        (Step::Put(4, 8, 0, 3), 0),
        (Step::Put(5, 16, 0, 4), 0),
        (Step::Put(6, 32, 0, 5), 0),
        (Step::Water(0, 6), 3),
        (Step::Settle(4), 3),
        (Step::Put(5, 64, 6, 5), 4),
        (Step::Put(4, 128, 6, 4), 6),
        (Step::Settle(6), 6),
        (Step::Put(7, 256, 6, 8), 6),
        (Step::Put(8, 512, 6, 9), 6),
        (Step::Water(6, 8), 7),
        (Step::Put(7, 1024, 8, 9), 8),
    ];
    let a = KeyText::from_bytes(b"a")?;
    let told = [
        new(&a, 0, 3),
        new(&a, 2, 12),
        new(&a, 4, 48),
        again(&a, 4, 80, 48),
        again(&a, 4, 144, 80),
        new(&a, 6, 96),
        new(&a, 8, 768),
        again(&a, 8, 1280, 768),
    ];
    let mut pairs = Pairs::new(rt.alloc(), Steps::start(&rt))?;
    pairs.follow(&rt, &script)?;
    assert_eq!(rt; pairs.changes.as_slice(), told.as_slice());
    Ok(())
}

// The third tuple can't be shifted, but the one that fills its instance is to come.
#[test]
fn a_part_of_an_instance_stays(rt: HostRuntime) -> Result<(), Fail> {
    let script = [
        (Step::Put(1, 1, 0, 0), 0),
        (Step::Put(2, 2, 0, 1), 0),
        (Step::Put(3, 4, 0, 2), 0),
        (Step::Water(0, 3), 1),
        (Step::Settle(3), 1),
        (Step::Put(3, 8, 3, 3), 2),
        (Step::Settle(3), 2),
        (Step::Put(4, 16, 3, 4), 2),
        (Step::Put(3, 32, 3, 4), 2),
        (Step::Water(3, FINAL), 3),
    ];
    let a = KeyText::from_bytes(b"a")?;
    let told = [new(&a, 0, 3), new(&a, 2, 12), new(&a, 4, 48)];
    let mut pairs = Pairs::new(rt.alloc(), Steps::start(&rt))?;
    pairs.follow(&rt, &script)?;
    assert_eq!(rt; pairs.changes.as_slice(), told.as_slice());
    Ok(())
}
