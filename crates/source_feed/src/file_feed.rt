ghost use Rattle.std.specs.Prelude.{◌≡◌, ◌≢◌, ◌++◌, [], None, Some, false, IfOk, IfErr, IfNone, option_map};
ghost use Rattle.source_feed.specs.EntryLogs.{entries_in, entries_of};
ghost use Rattle.source_feed.specs.FeedFault.{refusal_of};
ghost use Rattle.source_feed.specs.FileFeedState.{IsAt, feed_view, giving, state_of_rows, unread_feed, unreadable};
ghost use Rattle.source_feed.specs.Gives.{CountsReads, Gives};

use crate::entry_log::{EntryLog, with_entry};
use crate::feed::Feed;
use crate::feed_fault::FeedFault;
use crate::row_fault::RowFault;
use crate::rows::Rows;
use crate::whole::{SOURCE_MAX, read_pieces};
use outside::Source;
use std::alloc::Global;
use std::marker::Model;
use stream_base::{Defs, Entry};

// How far the reading of a source is.
#[derive(Drop)]
enum State {
    Unread,
    Open(Box<Rows>),
    Stopped(FeedFault),
}

/// The feed of a source of the outside. It reads the source whole at the first call of `next`. A
/// feed isn't `Drop`: `into_source` gives the source back.
pub struct FileFeed<S: Source> {
    alloc: Global,
    source: S,
    index: u16,
    every: u64,
    disorder: u64,
    state: State,
    gave: EntryLog,
}

impl<S: Source> Model for FileFeed<S> {
    ghost use Rattle.source_feed.specs.EntryLogs.{entries_in};
    ghost use Rattle.source_feed.specs.FileFeedState.{FileFeedState, IsAt};
    ghost use Rattle.source_feed.specs.FileFeedView.{file_feed_state, reading_of};

    ghost Value = { FileFeedState S };

    ghost view = { file_feed_state };

    ghost invariant = { λ a. IsAt a.index a.every a.disorder (S.reads a.source)
        (entries_in a.gave) (reading_of a.state) };
}

impl<S: Source> FileFeed<S> {
    /// The feed of this source, which has this number; the definitions say when its watermarks are
    /// made.
    pub fn new(alloc: Global, source: S, index: u16, defs: &Defs) -> FileFeed<S>
        requires fresh { ((S.reads source).given ≡ []) × ((S.reads source).ended ≡ false) }
        ensures { result ≡ unread_feed source index defs.now }
    {
        FileFeed {
            alloc,
            source,
            index,
            every: defs.every(),
            disorder: defs.disorder(),
            state: State::Unread,
            gave: EntryLog::Start,
        }
    }

    /// Gives the source back.
    pub fn into_source(self) -> S
        ensures { result ≡ self.from }
    {
        let FileFeed {
            alloc: _,
            source,
            index: _,
            every: _,
            disorder: _,
            state: _,
            gave: _,
        } = self;
        source
    }
}

impl<S: Source> Feed for FileFeed<S> {
    ghost state = { feed_view S.reads S.told };

    ghost faults = { λ f. (S.reads f.from).faults };

    fn next(&mut self) -> Result<Option<Entry>, FeedFault> {
        match &mut self.state {
            State::Open(rows) => next_entry(rows, &mut self.gave),
            State::Stopped(fault) => Err(*fault),
            State::Unread => {
                match read_rows(
                    self.alloc,
                    &mut self.source,
                    self.index,
                    self.every,
                    self.disorder,
                ) {
                    Ok(mut rows) => {
                        let next = next_entry(&mut rows, &mut self.gave);
                        self.state = State::Open(rows);
                        next
                    }
                    Err(fault) => {
                        self.state = State::Stopped(fault);
                        Err(fault)
                    }
                }
            }
        }
    }
}

// The rows of a source, which is read whole. Their reader is large, so it stays in one place,
// and a call of `next` that gives one of them doesn't pay for its making.
#[inline(never)]
fn read_rows<S: Source>(
    alloc: Global,
    source: &mut S,
    index: u16,
    every: u64,
    disorder: u64,
) -> Result<Box<Rows>, FeedFault>
    requires fresh { (S.reads source.old).given ≡ [] }
    ensures rows { IfOk result (λ rows. IsAt index every disorder (S.reads source.new)
        [] (giving rows.value)) }
    ensures start { IfOk result (λ rows. ((rows.value).ended ≡ false)
        × ((rows.value).answered ≡ None)) }
    ensures stopped { IfErr result (λ fault. IsAt index every disorder (S.reads source.new)
        [] (unreadable fault)) }
    ensures place { (S.reads source.new).place ≡ (S.reads source.old).place }
    ensures told { S.told source.new ≡ S.told source.old }
    ensures counts { CountsReads None
        (S.reads source.old).faults result (S.reads source.new).faults }
{
    let bytes = read_pieces(alloc, source, SOURCE_MAX)?;
    let rows = Rows::of_pieces(alloc, bytes, index, every, disorder)?;
    match Box::new(alloc, rows) {
        Ok(rows) => Ok(rows),
        Err(_) => Err(FeedFault::NoMemory),
    }
}

// The next entry, which is logged.
fn next_entry(rows: &mut Rows, gave: &mut EntryLog) -> Result<Option<Entry>, FeedFault>
    ensures gives { Gives refusal_of (state_of_rows rows.old) result (state_of_rows rows.new) }
    ensures logged { entries_in gave.new ≡ entries_in gave.old ++ entries_of result }
    ensures lost { IfNone (rows.new).rest ((rows.new).answered ≡ Some RowFault.NoMemory) }
    ensures not_read { IfErr result (λ fault. fault ≢ FeedFault.Read) }
{
    match rows.next() {
        Ok(Some(entry)) => {
            *gave = with_entry(gave, &entry);
            Ok(Some(entry))
        }
        Ok(None) => Ok(None),
        Err(fault) => Err(FeedFault::from(fault)),
    }
}
