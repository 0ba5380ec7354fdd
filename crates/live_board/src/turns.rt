ghost use Rattle.std.specs.Prelude.{◌≡◌, ◌≤◌, ◌<◌, ◌+◌, ◌++◌, [], length, max, map, fold, take, slice_get, IfNone, IfSome, None, OnOk, OnErr, Some};
ghost use Rattle.live_board.specs.Authoring.{IsAuthor, IsStopped};
ghost use Rattle.live_board.specs.Rule.{sources_of};
ghost use Rattle.live_board.specs.Tallies.{turn, turns, turns_in};
ghost use Rattle.live_board.specs.Turning.{AreEntriesIn, before_turn};

use crate::author::{Author, write_one};
use crate::course::Course;
use outside::Gate;
use std::sync::Wait;
use std::thread::Threads;
use stream_base::{Entry, NoMemory};

// Applies all entries of a course in turn.
pub fn write_all<'a, 'c, G: Gate, R: Threads + Wait>(
    rt: &R,
    gate: &G,
    course: &Course<'c>,
    by: Author<'a>,
) -> (Author<'a>, Result<(), NoMemory>)
    requires first { IsAuthor course.now [] by }
    requires entries { AreEntriesIn (sources_of course.now) }
    ensures ok { OnOk result.1 (IsAuthor course.now (turns (sources_of course.now)) result.0) }
    ensures err { OnErr result.1 (IsStopped course.now result.0) }
{
    let mut author = by;
    'turns: for n in 0..longest(course.sources) {
        let (next, written) = write_turn(rt, gate, course, n, author);
        author = next;
        match written {
            Ok(()) => {}
            Err(NoMemory) => return (author, Err(NoMemory)),
        }
    }
    (author, Ok(()))
}

// How many entries the longest source has.
fn longest(sources: &[Vec<Entry>]) -> usize
    ensures { result ≡ turns_in (map (λ v. v.items) sources.now) }
{
    let mut most = 0;
    'lists: for entries in sources {
        most = most.max(entries.len());
    }
    most
}

// Applies the entry of this number of each source that has one.
fn write_turn<'a, 'c, G: Gate, R: Threads + Wait>(
    rt: &R,
    gate: &G,
    course: &Course<'c>,
    n: usize,
    by: Author<'a>,
) -> (Author<'a>, Result<(), NoMemory>)
    requires first { IsAuthor course.now (before_turn (sources_of course.now) n) by }
    requires within { n < turns_in (sources_of course.now) }
    requires entries { AreEntriesIn (sources_of course.now) }
    ensures ok { OnOk result.1 (IsAuthor course.now
        (before_turn (sources_of course.now) (n + 1)) result.0) }
    ensures err { OnErr result.1 (IsStopped course.now result.0) }
{
    let mut author = by;
    'lists: for i in 0..course.sources.len() {
        let (next, written) = write_of(rt, gate, course, n, i, author);
        author = next;
        match written {
            Ok(()) => {}
            Err(NoMemory) => return (author, Err(NoMemory)),
        }
    }
    (author, Ok(()))
}

// Applies the entry of this number of one source, if it has one.
fn write_of<'a, 'c, G: Gate, R: Threads + Wait>(
    rt: &R,
    gate: &G,
    course: &Course<'c>,
    n: usize,
    i: usize,
    by: Author<'a>,
) -> (Author<'a>, Result<(), NoMemory>)
    requires first { IsAuthor course.now (before_turn (sources_of course.now) n
        ++ turn (take i (sources_of course.now)) n) by }
    requires within { n < turns_in (sources_of course.now) }
    requires source { i < length (course.now).sources.now }
    requires entries { AreEntriesIn (sources_of course.now) }
    ensures ok { OnOk result.1 (IsAuthor course.now (before_turn (sources_of course.now) n
        ++ turn (take (i + 1) (sources_of course.now)) n) result.0) }
    ensures err { OnErr result.1 (IsStopped course.now result.0) }
{
    match entry_at(&course.sources[i], n) {
        Some(entry) => write_one(rt, gate, course, by, entry),
        None => (by, Ok(())),
    }
}

fn entry_at(entries: &[Entry], n: usize) -> Option<&Entry>
    ensures some { IfSome result (λ e. slice_get entries.now n ≡ Some e.now) }
    ensures none { IfNone result (slice_get entries.now n ≡ None) }
{
    if n < entries.len() {
        return Some(&entries[n]);
    }
    None
}
