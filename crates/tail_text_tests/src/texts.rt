ghost use Rattle.std.specs.Prelude.{◌≡◌, ◌≤◌, length, IfOk, OnOk};
ghost use Rattle.stream_base.specs.declared.limits.TheConstants.{TIME_MAX};
ghost use Rattle.tail_windows.specs.Walks.{IsTailDef};

use agg_laws::Steps;
use outside::MemSink;
use shard_core::Shard;
use std::alloc::Global;
use std::process::Abort;
use std::test::Fail;
use std::thread::Threads;
use stream_base::{Def, Defs, Entry, Func, KeyText, Kind, What};
use tail_text::{tails_of, write_tails};
use tail_windows::{TailChange, TailDef};

// Keeps the counters of a test apart.
struct Work;

// The last two tuples before each multiple of 10, summed; a late tuple changes both periods.
const LATE: &[u8] = b"shard 0
j 0 t 1 1 a
j 0 t 5 2 a
j 0 t 12 4 a
j 0 w 20
+ 10 2 3 a
+ 20 2 6 a
j 0 t 7 8 a
~ 10 2 10 a
~ 20 2 12 a
j 0 e
end
";

// The last three, counted; a period with no tuple has no row until a late one comes.
const GAP: &[u8] = b"shard 0
j 0 t 1 1 a
j 0 w 30
+ 10 1 1 a
j 0 t 25 1 a
+ 30 2 2 a
j 0 e
end
";

// A shard for one source, whose journal takes entries of this lateness.
fn empty_shard(alloc: Global, lateness: u64) -> Result<Shard, Fail>
    ensures { IfOk result (λ shard. shard.sources ≡ 1) }
{
    let tumbling = Def {
        kind: Kind::Tumbling { length: 10 },
        func: Func::Sum,
    };
    let defs = Defs::new(vec![in alloc; tumbling]?, lateness, 0, 0)?;
    Ok(Shard::new(alloc, defs, 1)?)
}

fn put(rt: &impl Abort, shard: &mut Shard, what: What, steps: &mut Steps<Work>) -> Result<(), Fail>
    requires { shard.old.sources ≡ 1 }
    ensures { OnOk result (shard.new.sources ≡ 1) }
{
    let entry = Entry { source: 0, what };
    assert!(rt; entry.is_within_limits());
    let _applied = shard.apply(&entry, steps)?;
    Ok(())
}

// A shard whose source said this.
fn shard_of(
    rt: &impl Abort,
    alloc: Global,
    lateness: u64,
    said: &[What],
    steps: &mut Steps<Work>,
) -> Result<Shard, Fail>
    ensures { IfOk result (λ shard. shard.sources ≡ 1) }
{
    let mut shard = empty_shard(alloc, lateness)?;
    for what in said {
        put(rt, &mut shard, *what, steps)?;
    }
    Ok(shard)
}

// The changes for each position of the journal of a shard of one source.
fn followed(
    alloc: Global,
    def: TailDef,
    lateness: u64,
    shard: &Shard,
    steps: &mut Steps<Work>,
) -> Result<Vec<Vec<TailChange>>, Fail>
    requires def { IsTailDef def }
    requires lateness { lateness ≤ TIME_MAX }
    requires source { shard.now.sources ≡ 1 }
    ensures { IfOk result (λ tails. length tails.items ≡ length shard.now.journal) }
{
    let _entries = shard.journal_len();
    Ok(tails_of(alloc, def, 1, lateness, shard, steps)?)
}

// Writes the text of a shard whose source said this, and answers whether it went out whole.
fn write_said<R: Abort + Threads>(
    rt: &R,
    alloc: Global,
    def: TailDef,
    lateness: u64,
    said: &[What],
    sink: &mut MemSink,
) -> Result<bool, Fail>
    requires def { IsTailDef def }
    requires lateness { lateness ≤ TIME_MAX }
{
    let mut steps: Steps<Work> = Steps::start(rt);
    let shard = shard_of(rt, alloc, lateness, said, &mut steps)?;
    let tails = followed(alloc, def, lateness, &shard, &mut steps)?;
    Ok(write_tails(&[shard], &[tails], sink).is_ok())
}

fn tuple(key: KeyText, time: u64, value: i64) -> What {
    What::Tuple { key, time, value }
}

// What the source of the first text said.
fn late_said() -> Result<[What; 6], Fail> {
    let a = KeyText::from_bytes(b"a")?;
    let water = What::Water { time: 20 };
    let before = [tuple(a, 1, 1), tuple(a, 5, 2), tuple(a, 12, 4)];
    Ok([
        before[0],
        before[1],
        before[2],
        water,
        tuple(a, 7, 8),
        What::End,
    ])
}

const TWO_OF_TEN: TailDef = TailDef {
    count: 2,
    period: 10,
    func: Func::Sum,
};

const THREE_OF_TEN: TailDef = TailDef {
    count: 3,
    period: 10,
    func: Func::Count,
};

#[test]
fn a_late_tuple_changes_each_period_that_selects_it(rt: HostRuntime) -> Result<(), Fail> {
    let said = late_said()?;
    let mut sink = MemSink::new(rt.alloc(), 1_000, Vec::new(rt.alloc()), 8)?;
    assert!(rt; write_said(&rt, rt.alloc(), TWO_OF_TEN, 20, &said, &mut sink)?);
    assert_eq!(rt; str::from_utf8(sink.bytes())?, str::from_utf8(LATE)?);
    Ok(())
}

#[test]
fn a_period_with_no_tuple_has_no_row(rt: HostRuntime) -> Result<(), Fail> {
    let a = KeyText::from_bytes(b"a")?;
    let water = What::Water { time: 30 };
    let said = [tuple(a, 1, 1), water, tuple(a, 25, 1), What::End];
    let mut sink = MemSink::new(rt.alloc(), 1_000, Vec::new(rt.alloc()), 8)?;
    assert!(rt; write_said(&rt, rt.alloc(), THREE_OF_TEN, 100, &said, &mut sink)?);
    assert_eq!(rt; str::from_utf8(sink.bytes())?, str::from_utf8(GAP)?);
    Ok(())
}

#[test]
fn where_a_write_fails_a_prefix_of_the_text_went_out(rt: HostRuntime) -> Result<(), Fail> {
    let said = late_said()?;
    let pieces = LATE.len().div_ceil(8) as u64;
    for failing in 0..pieces {
        let failing_calls = vec![in rt.alloc(); failing]?;
        let mut sink = MemSink::new(rt.alloc(), 1_000, failing_calls, 8)?;
        let written = write_said(&rt, rt.alloc(), TWO_OF_TEN, 20, &said, &mut sink)?;
        assert!(rt; !written, "write {failing}");
        let count = (8 * failing) as usize;
        assert_eq!(rt; sink.bytes(), &LATE[..count], "write {failing}");
    }
    Ok(())
}
