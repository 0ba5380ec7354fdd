ghost use Rattle.std.specs.Prelude.{◌≡◌, ◌≤◌, All, IfOk, IfSome, [], length};
ghost use Rattle.left_right.specs.Sides.{view};
ghost use Rattle.live_board.specs.Rule.{HasRead};
ghost use Rattle.live_board.specs.Tallies.{none_counted};
ghost use Rattle.live_board.specs.Watching.{IsReady};
ghost use Rattle.live_board.specs.Writing.{IsAt, board_of};

use crate::course::Course;
use crate::rule::{BoardReader, BoardWriter, Tells};
use crate::tally::Tally;
use std::alloc::Global;
use stream_base::NoMemory;

// One reader: its number at the gate, what it reads by, where it was given that, and what it has
// read.
#[derive(Drop)]
pub struct Watcher<'a> {
    pub number: u16,
    pub reader: Option<BoardReader<'a>>,
    pub reads: Vec<Tally>,
}

// Watchers that may read so often and once more.
pub fn new_watchers<'a, 'c>(
    alloc: Global,
    course: &Course<'c>,
    writer: &mut BoardWriter<'a>,
    readers: u16,
    many: u32,
) -> Result<Vec<Watcher<'a>>, NoMemory>
    requires few { (readers ≤ 8) × (many ≤ 1000) }
    requires at { IsAt (board_of course.now none_counted) writer.old }
    ensures at { IsAt (board_of course.now none_counted) writer.new }
    ensures as_many { IfOk result (λ w. length w.items ≡ readers) }
    ensures ready { IfOk result (λ w. All (IsReady course.now many) w.items) }
{
    let _course = course;
    let mut watchers = Vec::with_capacity(alloc, usize::from(readers))?;
    'readers: for reader in 0..readers {
        watchers.push_reserved(new_watcher(alloc, course, writer, reader + 1, many)?);
    }
    Ok(watchers)
}

fn new_watcher<'a, 'c>(
    alloc: Global,
    course: &Course<'c>,
    writer: &mut BoardWriter<'a>,
    number: u16,
    many: u32,
) -> Result<Watcher<'a>, NoMemory>
    requires few { many ≤ 1000 }
    requires at { IsAt (board_of course.now none_counted) writer.old }
    ensures at { IsAt (board_of course.now none_counted) writer.new }
    ensures ready { IfOk result (IsReady course.now many) }
{
    let reads = Vec::with_capacity(alloc, many as usize + 1)?;
    Ok(Watcher {
        number,
        reader: new_reader(course, writer),
        reads,
    })
}

// A reader that was told of the board, where there is one.
fn new_reader<'a, 'c>(course: &Course<'c>, writer: &mut BoardWriter<'a>) -> Option<BoardReader<'a>>
    requires { IsAt (board_of course.now none_counted) writer.old }
    ensures at { IsAt (board_of course.now none_counted) writer.new }
    ensures told { IfSome result (λ r. HasRead course.now (view r.place) []) }
{
    let _course = course;
    match writer.factory().reader() {
        Ok(mut reader) => {
            reader.learn::<Tells>(writer.tell::<Tells>());
            Some(reader)
        }
        Err(_) => None,
    }
}
