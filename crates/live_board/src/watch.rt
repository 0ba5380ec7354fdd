ghost use Rattle.std.specs.Prelude.{◌≡◌, ◌≤◌, ◌<◌, ◌-◌, ◌^◌, ◌↔◌, [], All, IfOk, IsErrOf, OnOk, length, map, min};
ghost use Rattle.std.specs.Vec.{vec_capacity};
ghost use Rattle.stream_base.specs.declared.limits.TheConstants.{JOURNAL_MAX};
ghost use Rattle.live_board.specs.Authoring.{IsAuthor};
ghost use Rattle.live_board.specs.Rule.{sources_of};
ghost use Rattle.live_board.specs.Tallies.{turns};
ghost use Rattle.live_board.specs.Watched.{IsWatched, MayWatch, entries_in};
ghost use Rattle.live_board.specs.Watching.{MayEnd};

use crate::author::Author;
use crate::course::Course;
use crate::finish::finish;
use crate::side_by_side::write_beside;
use crate::tally::Tally;
use crate::watch_fault::WatchFault;
use crate::watched::Watched;
use crate::watcher::{Watcher, new_watchers};
use crate::writing::open;
use outside::Gate;
use shard_core::Shard;
use std::alloc::Global;
use std::sync::Wait;
use std::thread::Threads;
use stream_base::{Defs, Entry, JOURNAL_MAX, NoMemory};

/// Applies the entries of all sources to one shard, one of each source in turn, and publishes after
/// each entry how many rows of each window stand. So many readers, in threads of their own where
/// one can be started, read that so often beside it, and once more at the end. No reader waits for
/// the writer.
///
/// Each read is the tally of some first entries of the journal, none of fewer than the read before
/// it, and the last read of each reader is of all. What a read in the middle finds depends on the
/// schedule.
///
/// The writer passes the gate with 0 before each publication, and a reader with its number, from 1
/// on, before each read but the last.
///
/// `Full` is answered exactly where the sources have more entries than a journal holds.
pub fn watch_entries<G: Gate, R: Threads + Wait + Sync>(
    rt: &R,
    alloc: Global,
    defs: &Defs,
    sources: &[Vec<Entry>],
    readers: u16,
    reads: u32,
    gate: &G,
) -> Result<Watched, WatchFault>
    requires { MayWatch readers reads (map (λ v. v.items) sources.now) }
    ensures watched { IfOk result (λ w. IsWatched defs.now (map (λ v. v.items) sources.now)
        readers reads w.shard (map (λ v. v.items) w.reads.items)) }
    ensures full { IsErrOf result WatchFault.Full
        ↔ (JOURNAL_MAX < entries_in (map (λ v. v.items) sources.now)) }
{
    if count_entries(sources) > JOURNAL_MAX {
        return Err(WatchFault::Full);
    }
    Ok(watch_course(rt, alloc, &Course { defs, sources }, readers, reads, gate)?)
}

// How many entries all sources have.
fn count_entries(sources: &[Vec<Entry>]) -> u64
    ensures { result ≡ min (2 ^ 64 - 1) (entries_in (map (λ v. v.items) sources.now)) }
{
    let mut count: u64 = 0;
    'lists: for entries in sources {
        count = count.saturating_add(entries.len() as u64);
    }
    count
}

fn watch_course<'c, G: Gate, R: Threads + Wait + Sync>(
    rt: &R,
    alloc: Global,
    course: &Course<'c>,
    readers: u16,
    reads: u32,
    gate: &G,
) -> Result<Watched, NoMemory>
    requires may { MayWatch readers reads (sources_of course.now) }
    requires few { entries_in (sources_of course.now) ≤ JOURNAL_MAX }
    ensures { IfOk result (λ w. IsWatched (course.now).defs.now (sources_of course.now)
        readers reads w.shard (map (λ v. v.items) w.reads.items)) }
{
    let defs = course.defs.copy(alloc)?;
    let shard = Shard::new(alloc, defs, course.sources.len() as u16)?;
    let lists = Vec::with_capacity(alloc, usize::from(readers))?;
    let mut writer = open(rt, alloc, *course, usize::from(readers) + 1)?;
    match new_watchers(alloc, course, &mut writer, readers, reads) {
        Ok(mut watchers) => {
            let author = Author {
                writer,
                shard,
                tally: Tally::none(),
            };
            let (author, written) = write_beside(
                rt,
                gate,
                course,
                reads,
                author,
                watchers.as_mut_slice(),
            );
            end(rt, course, author, written, watchers, reads, lists)
        }
        Err(NoMemory) => {
            writer.take(rt);
            Err(NoMemory)
        }
    }
}

// Ends with the last reads, where all entries were written.
fn end<'a, 'c, R: Wait>(
    rt: &R,
    course: &Course<'c>,
    author: Author<'a>,
    written: Result<(), NoMemory>,
    watchers: Vec<Watcher<'a>>,
    reads: u32,
    lists: Vec<Vec<Tally>>,
) -> Result<Watched, NoMemory>
    requires written { OnOk written (IsAuthor course.now (turns (sources_of course.now)) author) }
    requires watched { All (λ w. MayEnd course.now reads w.reads) watchers.items }
    requires empty { lists.items ≡ [] }
    requires room { length watchers.items ≤ vec_capacity lists }
    ensures { IfOk result (λ w. IsWatched (course.now).defs.now (sources_of course.now)
        (length watchers.entry.items) reads w.shard (map (λ v. v.items) w.reads.items)) }
{
    let Author {
        mut writer,
        shard,
        tally: _,
    } = author;
    let mut lists = lists;
    match written {
        Ok(()) => {
            finish(course, &mut writer, watchers, reads, &mut lists);
            writer.take(rt);
            Ok(Watched {
                shard,
                reads: lists,
            })
        }
        Err(NoMemory) => {
            writer.take(rt);
            Err(NoMemory)
        }
    }
}
