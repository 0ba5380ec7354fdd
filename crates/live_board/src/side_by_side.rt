ghost use Rattle.std.specs.Prelude.{◌≡◌, ◌≤◌, ◌<◌, ℕ, [], All, length, slice_index_or, IsSomeAnd, OnOk, OnErr};
ghost use Rattle.live_board.specs.Rule.{sources_of};
ghost use Rattle.live_board.specs.Authoring.{IsAuthor, IsStopped};
ghost use Rattle.live_board.specs.Tallies.{turns};
ghost use Rattle.live_board.specs.Turning.{AreEntriesIn};
ghost use Rattle.live_board.specs.Watching.{IsReady, HasWatched};

use crate::author::Author;
use crate::course::Course;
use crate::reading::read_all;
use crate::turns::write_all;
use crate::watcher::Watcher;
use outside::Gate;
use std::sync::Wait;
use std::thread;
use std::thread::Threads;
use stream_base::NoMemory;

// Lets all watchers read, each in a thread of its own where one can be started.
pub fn watch_all<'a, 'c, G: Gate, R: Threads + Sync>(
    rt: &R,
    gate: &G,
    course: &Course<'c>,
    many: u32,
    watchers: &mut [Watcher<'a>],
)
    requires some { 1 ≤ length watchers.old }
    requires ready { All (λ w. IsReady course.now many w) watchers.old }
    ensures same { length watchers.new ≡ length watchers.old }
    ensures watched { (i : ℕ) (w : _) → i < length watchers.old
        → HasWatched course.now many (slice_index_or watchers.old i w)
        (slice_index_or watchers.new i w) }
{
    let threads = watchers.len();
    thread::for_each_mut(
        rt,
        watchers,
        threads,
        &|_, watcher: &mut Watcher|
            requires { IsReady course.now many watcher.now }
            ensures { HasWatched course.entry.now many watcher.entry.now watcher.exit.now }
        { read_all(gate, course, many, watcher) },
    );
}

// Lets the writer write, beside the watchers.
pub fn write_beside<'a, 'c, G: Gate, R: Threads + Wait + Sync>(
    rt: &R,
    gate: &G,
    course: &Course<'c>,
    many: u32,
    author: Author<'a>,
    watchers: &mut [Watcher<'a>],
) -> (Author<'a>, Result<(), NoMemory>)
    requires first { IsAuthor course.now [] author }
    requires entries { AreEntriesIn (sources_of course.now) }
    requires some { 1 ≤ length watchers.old }
    requires ready { All (λ w. IsReady course.now many w) watchers.old }
    ensures ok { OnOk result.1 (IsAuthor course.now (turns (sources_of course.now)) result.0) }
    ensures err { OnErr result.1 (IsStopped course.now result.0) }
    ensures same { length watchers.new ≡ length watchers.old }
    ensures watched { (i : ℕ) (w : _) → i < length watchers.old
        → HasWatched course.now many (slice_index_or watchers.old i w)
        (slice_index_or watchers.new i w) }
{
    let mut slot = Some(author);
    let (_, ended) = thread::join_mut(
        rt,
        &mut ||
            requires { (1 ≤ length watchers.now)
                × All (λ w. IsReady course.now many w) watchers.now }
            ensures { (length watchers.exit.now ≡ length watchers.entry.now)
                × ((i : ℕ) (w : _) → i < length watchers.entry.now
                → HasWatched course.entry.now many (slice_index_or watchers.entry.now i w)
                (slice_index_or watchers.exit.now i w)) }
        { watch_all(rt, gate, course, many, watchers) },
        &mut ||
            requires { IsSomeAnd slot (IsAuthor course.now [])
                × AreEntriesIn (sources_of course.now) }
            ensures { OnOk result (IsSomeAnd slot.exit
                (IsAuthor course.entry.now (turns (sources_of course.entry.now))))
                × OnErr result (IsSomeAnd slot.exit (IsStopped course.entry.now)) }
        { write_from(rt, gate, course, &mut slot) },
    );
    match slot {
        Some(author) => (author, ended),
        None => unreachable!(),
    }
}

// Takes the writer out, and puts it back.
fn write_from<'a, 'c, G: Gate, R: Threads + Wait>(
    rt: &R,
    gate: &G,
    course: &Course<'c>,
    slot: &mut Option<Author<'a>>,
) -> Result<(), NoMemory>
    requires first { IsSomeAnd slot.old (IsAuthor course.now []) }
    requires entries { AreEntriesIn (sources_of course.now) }
    ensures ok { OnOk result (IsSomeAnd slot.new
        (IsAuthor course.now (turns (sources_of course.now)))) }
    ensures err { OnErr result (IsSomeAnd slot.new (IsStopped course.now)) }
{
    match slot.take() {
        Some(author) => {
            let (author, ended) = write_all(rt, gate, course, author);
            match slot.replace(author) {
                None => ended,
                Some(_) => unreachable!(),
            }
        }
        None => unreachable!(),
    }
}
