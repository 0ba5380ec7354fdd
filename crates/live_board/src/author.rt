ghost use Rattle.std.specs.Prelude.{◌≡◌, ◌++◌, ◌∷◌, [], IfOk, OnOk, OnErr};
ghost use Rattle.shard_core.specs.Shard.{IsNext, sharded_with};
ghost use Rattle.live_board.specs.Authoring.{CountsAll, HasNext, IsAuthor, IsStopped};

use crate::counting::tally_after;
use crate::course::Course;
use crate::rule::BoardWriter;
use crate::tally::Tally;
use crate::writing::publish;
use agg_laws::Steps;
use outside::Gate;
use shard_core::{ApplyFault, Shard};
use std::sync::Wait;
use std::thread::Threads;
use stream_base::{Entry, NoMemory};

// The one writer: its shard, and the tally that it has published last.
pub struct Author<'a> {
    pub writer: BoardWriter<'a>,
    pub shard: Shard,
    pub tally: Tally,
}

// Applies an entry, and publishes behind the gate how many rows stand then.
pub fn write_one<'a, 'c, G: Gate, R: Threads + Wait>(
    rt: &R,
    gate: &G,
    course: &Course<'c>,
    by: Author<'a>,
    entry: &Entry,
) -> (Author<'a>, Result<(), NoMemory>)
    requires next { HasNext course.now by entry.now }
    ensures ok { OnOk result.1 (IsAuthor course.now
        (by.entry.shard.journal ++ entry.now ∷ []) result.0) }
    ensures err { OnErr result.1 (IsStopped course.now result.0) }
{
    let _course = course;
    let Author {
        writer,
        mut shard,
        tally,
    } = by;
    match apply(rt, &mut shard, &tally, entry) {
        Ok(next) => {
            gate.pass(0);
            let (writer, published) = publish(rt, writer, next);
            let author = Author {
                writer,
                shard,
                tally: next,
            };
            (author, published)
        }
        Err(NoMemory) => {
            let author = Author {
                writer,
                shard,
                tally,
            };
            (author, Err(NoMemory))
        }
    }
}

// Applies an entry, and tells the tally behind it.
fn apply<R: Threads>(
    rt: &R,
    shard: &mut Shard,
    tally: &Tally,
    entry: &Entry,
) -> Result<Tally, NoMemory>
    requires next { IsNext shard.old.sources shard.old.journal entry.now }
    requires counts { CountsAll shard.old.defs shard.old.sources shard.old.journal tally.now }
    ensures applied { OnOk result (shard.new ≡ sharded_with shard.old entry.now) }
    ensures counts { IfOk result (CountsAll shard.old.defs shard.old.sources
        (shard.old.journal ++ entry.now ∷ [])) }
{
    let mut steps: Steps<()> = Steps::start(rt);
    match shard.apply(entry, &mut steps) {
        Ok(applied) => {
            // Rows that stand were emitted, so no window has more of them than there are changes.
            let _changes = shard.change_count();
            Ok(tally_after(tally, &shard.changes_at(applied.position)))
        }
        Err(ApplyFault::NoMemory) => Err(NoMemory),
        Err(ApplyFault::Ended | ApplyFault::Full) => unreachable!(),
    }
}
