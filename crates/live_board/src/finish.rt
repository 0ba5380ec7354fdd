ghost use Rattle.std.specs.Prelude.{◌≡◌, ◌≤◌, ◌+◌, [], All, length, map};
ghost use Rattle.std.specs.Vec.{vec_capacity};
ghost use Rattle.live_board.specs.Ending.{AreReadsIn, HasShownAll};
ghost use Rattle.live_board.specs.Watching.{MayEnd};

use crate::course::Course;
use crate::rule::BoardWriter;
use crate::tally::Tally;
use crate::watcher::Watcher;
use crate::writing::last_read;

// Each watcher's reads, up to one behind the last publication.
pub fn finish<'a, 'c>(
    course: &Course<'c>,
    writer: &mut BoardWriter<'a>,
    watchers: Vec<Watcher<'a>>,
    many: u32,
    lists: &mut Vec<Vec<Tally>>,
)
    requires all { HasShownAll course.now writer.old }
    requires watched { All (λ w. MayEnd course.now many w.reads) watchers.items }
    requires empty { lists.old.items ≡ [] }
    requires room { length watchers.items ≤ vec_capacity lists.old }
    ensures one_each { length lists.new.items ≡ length watchers.entry.items }
    ensures reads { All (AreReadsIn course.now many) (map (λ v. v.items) lists.new.items) }
{
    let mut watchers = watchers;
    'watchers: for _ in 0..watchers.len() {
        let Watcher {
            number: _,
            reader: _reader,
            mut reads,
        } = watchers.remove(0);
        read_last(course, writer, &mut reads, many);
        lists.push_reserved(reads);
    }
}

// Reads once more, and in place of each read that is lacking.
fn read_last<'a, 'c>(
    course: &Course<'c>,
    writer: &mut BoardWriter<'a>,
    reads: &mut Vec<Tally>,
    many: u32,
)
    requires all { HasShownAll course.now writer.old }
    requires may { MayEnd course.now many reads.old }
    ensures all { HasShownAll course.now writer.new }
    ensures reads { AreReadsIn course.now many reads.new.items }
{
    let _course = course;
    let last = last_read(writer);
    'lacking: for _ in reads.len()..many as usize {
        reads.push_reserved(last);
    }
    reads.push_reserved(last);
}
