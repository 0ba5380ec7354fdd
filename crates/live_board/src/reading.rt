ghost use Rattle.std.specs.Prelude.{◌≡◌, ◌≤◌, ◌<◌, ◌+◌, ℕ, [], ◌++◌, ◌∷◌, None, length, IfSome};
ghost use Rattle.std.specs.Vec.{vec_capacity};
ghost use Rattle.left_right.specs.Sides.{view};
ghost use Rattle.live_board.specs.Rule.{HasRead};
ghost use Rattle.live_board.specs.Watching.{AreReads, IsReady, HasWatched};

use crate::course::Course;
use crate::rule::{BoardReader, Sees};
use crate::tally::Tally;
use crate::watcher::Watcher;
use outside::Gate;

// Takes so many reads, each behind the gate. Where it can't read, there are fewer.
pub fn read_all<'a, 'c, G: Gate>(
    gate: &G,
    course: &Course<'c>,
    many: u32,
    watcher: &mut Watcher<'a>,
)
    requires ready { IsReady course.now many watcher.old }
    ensures watched { HasWatched course.now many watcher.old watcher.new }
{
    if let Some(reader) = watcher.reader.take() {
        read_many(
            gate,
            course,
            many,
            watcher.number,
            reader,
            &mut watcher.reads,
        );
    }
}

fn read_many<'a, 'c, G: Gate>(
    gate: &G,
    course: &Course<'c>,
    many: u32,
    number: u16,
    reader: BoardReader<'a>,
    reads: &mut Vec<Tally>,
)
    requires room { length reads.old.items + many ≤ vec_capacity reads.old }
    requires known { HasRead course.now (view reader.place) reads.old.items }
    ensures reads { AreReads course.now reads.new.items }
    ensures few { length reads.new.items ≤ length reads.old.items + many }
    ensures room { vec_capacity reads.new ≡ vec_capacity reads.old }
{
    let mut reader = reader;
    'reads: for _ in 0..many {
        gate.pass(number);
        match read_once(course, reader, reads) {
            Some(next) => reader = next,
            None => return,
        }
    }
}

// Takes one read.
fn read_once<'a, 'c>(
    course: &Course<'c>,
    reader: BoardReader<'a>,
    reads: &mut Vec<Tally>,
) -> Option<BoardReader<'a>>
    requires room { length reads.old.items < vec_capacity reads.old }
    requires known { HasRead course.now (view reader.place) reads.old.items }
    ensures some { IfSome result (λ r. HasRead course.now (view r.place) reads.new.items) }
    ensures one_more { IfSome result (λ r. length reads.new.items ≡ length reads.old.items + 1) }
    ensures room { vec_capacity reads.new ≡ vec_capacity reads.old }
    ensures none { result ≡ None → reads.new.items ≡ reads.old.items }
{
    let _course = course;
    match reader.enter_as::<Sees>() {
        Ok(reading) => {
            reads.push_reserved(reading.get().tally);
            Some(reading.leave())
        }
        Err(_) => None,
    }
}
