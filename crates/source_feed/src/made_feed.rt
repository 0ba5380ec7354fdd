ghost use Rattle.std.specs.Prelude.{◌≡◌, ◌≤◌, ◌<◌, [], IsSome, None, Some, false, OnErr};
ghost use Rattle.source_feed.specs.FeedFault.{refusal_of};
ghost use Rattle.source_feed.specs.FeedState.{Closes};
ghost use Rattle.source_feed.specs.Generated.{IsMadeSource, made_stream};
ghost use Rattle.source_feed.specs.FeedView.{Steps};
ghost use Rattle.source_feed.specs.Gives.{CountsReads, Gives};
ghost use Rattle.source_feed.specs.MadeView.{no_origin};
ghost use Rattle.source_feed.specs.Stream.{entry_of};

use crate::entry_log::{EntryLog, with_entry};
use crate::feed::Feed;
use crate::feed_fault::FeedFault;
use crate::generator::Generator;
use crate::waiting::Waiting;
use std::marker::Model;
use stream_base::{Entry, What};

/// The most tuples of a generated input.
pub const MADE_ROWS_MAX: u64 = 1_000_000;

// The entries of one source of the generated input, as they are made.
#[derive(Drop)]
pub(crate) struct Making {
    generator: Generator,
    waiting: Waiting,
    ended: bool,
}

impl Model for Making {
    ghost use Rattle.source_feed.specs.FeedState.{FeedState};
    ghost use Rattle.source_feed.specs.MadeFeedView.{made_feed_state, IsMaking};
    ghost use Rattle.source_feed.specs.declared.feed_fault.FeedFault.{FeedFault};

    ghost Value = { FeedState FeedFault };

    ghost view = { made_feed_state };

    ghost invariant = { IsMaking };
}

impl Making {
    /// The feed of the source `index` of the input of `rows` tuples that this seed generates for so
    /// many sources. The input has 1 to 1,000,000 tuples and 1 to 16 sources, numbered from 0.
    pub fn new(seed: u64, rows: u64, sources: u16, index: u16) -> Making
        requires { IsMadeSource rows sources index }
        ensures value { result ≡ record {
          source = index;
          ended = false;
          answered = None;
          rest = Some (made_stream seed rows sources index);
        } }
        ensures whole { Closes result }
    {
        Making {
            generator: Generator::start(seed, rows, sources, index),
            waiting: Waiting::nothing(),
            ended: false,
        }
    }

    // An event of the source, as an entry.
    fn entry(&self, what: What) -> Entry
        ensures { result ≡ entry_of (self.now).source what }
    {
        Entry {
            source: self.generator.source,
            what,
        }
    }
}

impl Making {
    fn next(&mut self) -> Result<Option<Entry>, FeedFault>
        ensures gives { Gives refusal_of self.old result self.new }
        ensures told { IsSome (self.new).rest }
        ensures never_refused { OnErr result ⊥ }
    {
        if let Some(what) = self.waiting.next() {
            return Ok(Some(self.entry(what)));
        }
        if self.ended {
            return Ok(None);
        }
        match self.generator.take() {
            Some((tuple, waiting)) => {
                self.waiting = waiting;
                Ok(Some(self.entry(tuple)))
            }
            None => {
                self.ended = true;
                Ok(Some(self.entry(What::End)))
            }
        }
    }
}

/// The feed of one source of the generated input, whose tuples are drawn by a generator of numbers
/// and dealt to the sources in turn. It needs no memory and never answers a fault.
#[derive(Drop)]
pub struct MadeFeed {
    making: Making,
    gave: EntryLog,
}

impl Model for MadeFeed {
    ghost use Rattle.source_feed.specs.FeedView.{FeedView};
    ghost use Rattle.source_feed.specs.MadeView.{IsUnlost, made_view};

    ghost Value = { FeedView };

    ghost view = { made_view };

    ghost invariant = { λ a. IsUnlost a.making };
}

impl MadeFeed {
    /// The feed of the source `index` of the input of `rows` tuples that this seed generates for so
    /// many sources. The input has 1 to 1,000,000 tuples and 1 to 16 sources, numbered from 0.
    pub fn new(seed: u64, rows: u64, sources: u16, index: u16) -> MadeFeed
        requires { IsMadeSource rows sources index }
        ensures { result ≡ record {
          source = index;
          origin = no_origin;
          ended = false;
          answered = None;
          gave = [];
          whole = Some (made_stream seed rows sources index);
        } }
    {
        MadeFeed {
            making: Making::new(seed, rows, sources, index),
            gave: EntryLog::Start,
        }
    }
}

impl Feed for MadeFeed {
    ghost state = { λ feed. feed };

    ghost faults = { λ _. 0 };

    fn next(&mut self) -> Result<Option<Entry>, FeedFault>
        ensures gives { Steps self.old result self.new }
        ensures counts { CountsReads (self.old).answered 0 result 0 }
        ensures never_refused { OnErr result ⊥ }
    {
        match self.making.next() {
            Ok(Some(entry)) => {
                self.gave = with_entry(&self.gave, &entry);
                Ok(Some(entry))
            }
            Ok(None) => Ok(None),
            Err(fault) => Err(fault),
        }
    }
}
