ghost use Rattle.std.specs.Prelude.{◌≡◌};

use crate::said::{Said, what_of};
use crate::sinks::{failing_sink, is_prefix};
use agg_laws::Steps;
use emission_text::write_report;
use shard_core::Shard;
use std::process::Abort;
use stream_base::{Def, Defs, Entry, Func, Kind, What};

// Keeps the counters of a test apart.
struct Work;

const REPORT: &[u8] = b"shard 0
j 0 t 2 6 b
j 0 w 10
+ 0 0 10 1 6 b
j 0 e
shard 1
j 0 t 1 -5 a
j 0 w 10
+ 0 0 10 1 -5 a
j 0 t 9 7 a
x
j 0 t 19 0 c
j 0 e
+ 0 10 20 1 0 c
end
";

// What the sources of two shards say, whose report this is.
const FIRST: [Said; 3] = [Said::Tuple("b", 2, 6), Said::Water(10), Said::End];

const SECOND: [Said; 5] = [
    Said::Tuple("a", 1, -5),
    Said::Water(10),
    Said::Tuple("a", 9, 7),
    Said::Tuple("c", 19, 0),
    Said::End,
];

// A shard for one source, with sums over tumbling windows of length 10.
fn empty_shard(rt: &(impl AllocGlobal + Abort)) -> Shard
    ensures { result.sources ≡ 1 }
{
    let tumbling = Def {
        kind: Kind::Tumbling { length: 10 },
        func: Func::Sum,
    };
    let Ok(windows) = vec![in rt.alloc(); tumbling] else {
        panic!(rt; "out of memory");
    };
    let Ok(defs) = Defs::new(windows, 0, 0, 0) else {
        panic!(rt; "no definitions");
    };
    let Ok(shard) = Shard::new(rt.alloc(), defs, 1) else {
        panic!(rt; "out of memory");
    };
    shard
}

fn put(rt: &impl Abort, shard: &mut Shard, what: What, steps: &mut Steps<Work>)
    requires { shard.old.sources ≡ 1 }
    ensures { shard.new.sources ≡ 1 }
{
    let entry = Entry { source: 0, what };
    assert!(rt; entry.is_within_limits());
    let Ok(_applied) = shard.apply(&entry, steps) else {
        panic!(rt; "refused");
    };
}

// A shard whose source said this.
fn shard_of(rt: &(impl AllocGlobal + Abort), said: &[Said], steps: &mut Steps<Work>) -> Shard {
    let mut shard = empty_shard(rt);
    for what in said {
        put(rt, &mut shard, what_of(rt, what), steps);
    }
    shard
}

// The report of shards, of which the write of this number fails, where it takes so many.
fn goes_out(rt: &(impl AllocGlobal + Abort), shards: &[Shard; 2], writes: u64, failing: u64) {
    let mut sink = failing_sink(rt, 1_000, failing, 8);
    let written = write_report(shards, &mut sink).is_ok();
    assert_eq!(rt; written, failing == writes, "write {failing}");
    let count = if written {
        REPORT.len() as u64
    } else {
        failing.saturating_mul(8)
    };
    is_prefix(rt, &sink, REPORT, count, failing);
}

// Each write of the report fails in turn, and at last none.
#[test]
fn a_report_goes_out_whole_or_a_prefix_where_a_write_fails(rt: HostRuntime) {
    let mut steps: Steps<Work> = Steps::start(&rt);
    let shards = [
        shard_of(&rt, &FIRST, &mut steps),
        shard_of(&rt, &SECOND, &mut steps),
    ];
    let writes = REPORT.len().div_ceil(8) as u64;
    for failing in 0..=writes {
        goes_out(&rt, &shards, writes, failing);
    }
}
