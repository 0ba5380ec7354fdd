ghost use Rattle.std.specs.Prelude.{◌≡◌, ◌≤◌, ◌<◌, ◌+◌, ℕ, IfOk, OnOk, OnErr, length};
ghost use Rattle.live_board.specs.Rule.{IsTallyIn, with_tally};
ghost use Rattle.live_board.specs.Tallies.{none_counted};
ghost use Rattle.live_board.specs.Writing.{IsAt, MayShow, board_of, shown_by};

use crate::board::Board;
use crate::course::Course;
use crate::rule::{BoardWriter, Sees, Tells};
use crate::tally::Tally;
use std::alloc::Global;
use std::sync::Wait;
use stream_base::NoMemory;

// A board of no entry yet, for so many readers. The first publication shows it as it is: from then
// on the writer has seen a board of the course, and may tell readers of it.
pub fn open<'a, R: Wait>(
    rt: &R,
    alloc: Global,
    course: Course<'a>,
    readers: usize,
) -> Result<BoardWriter<'a>, NoMemory>
    requires readers { (0 < readers) × (readers ≤ 16) }
    ensures opened { IfOk result (IsAt (board_of course.entry none_counted)) }
{
    let board = Board {
        course,
        tally: Tally::none(),
    };
    let writer: BoardWriter<'a> = BoardWriter::new(alloc, board, board, readers)?;
    let (writer, _published) = writer.publish_as::<Sees, R>(rt);
    Ok(writer)
}

// Shows readers this tally.
pub fn publish<'a, R: Wait>(
    rt: &R,
    by: BoardWriter<'a>,
    tally: Tally,
) -> (BoardWriter<'a>, Result<(), NoMemory>)
    requires may { MayShow tally by }
    ensures shown { OnOk result.1 (IsAt (with_tally (shown_by by.entry) tally) result.0) }
    ensures refused { OnErr result.1 (IsAt (shown_by by.entry) result.0) }
{
    let mut writer = by;
    match writer.append(tally) {
        Ok(()) => {
            let (writer, _published) = writer.publish_as::<Sees, R>(rt);
            (writer, Ok(()))
        }
        Err(_) => (writer, Err(NoMemory)),
    }
}

// What a reader finds that was told what the writer has published. Where there is no such reader,
// it is what was published.
pub fn last_read<'a>(writer: &mut BoardWriter<'a>) -> Tally
    requires { IsAt (shown_by writer.old) writer.old }
    ensures kept { IsAt (shown_by writer.old) writer.new }
    ensures tally { IsTallyIn (shown_by writer.old).course result }
    ensures no_less { (shown_by writer.old).tally.entries ≤ result.entries }
{
    match writer.factory().reader() {
        Ok(mut reader) => {
            reader.learn::<Tells>(writer.tell::<Tells>());
            match reader.enter_as::<Sees>() {
                Ok(reading) => {
                    let tally = reading.get().tally;
                    reading.leave();
                    tally
                }
                Err(_) => writer.published().tally,
            }
        }
        Err(_) => writer.published().tally,
    }
}
