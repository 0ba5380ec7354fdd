//! The shard of the program: over keys on slices.
ghost use Rattle.std.specs.Prelude.{◌≡◌, ◌≤◌, ◌<◌, ◌↔◌, [], length, IfOk, IsErrOf, Some, false, slice_get, true};
ghost use Rattle.stream_base.specs.Limits.{AreWithinLimits};
ghost use Rattle.stream_base.specs.declared.limits.TheConstants.{JOURNAL_MAX};
ghost use Rattle.stream_base.specs.Model.Changes.{changes_at, standing_rows};
ghost use Rattle.stream_base.specs.Model.Watermark.{has_ended};
ghost use Rattle.shard_core.specs.Applying.{Applies};
ghost use Rattle.shard_core.specs.Costs.{IsMarkWithinFolds, IsProgressWithinFolds, IsTupleWithinFolds};
ghost use Rattle.shard_core.specs.Flat.{joined};
ghost use Rattle.shard_core.specs.Shard.{AreSources, IsJournal, IsKnown, changes_behind, slices_after};

use crate::applied::{Applied, ApplyFault};
use crate::shard::KeyedShard;
use agg_laws::Steps;
use agg_queue::Daba;
use aggregates::{Bundle, Summary};
use compact_log::ChangeRange;
use fiba_finger::FingerTree;
use key_slicer::KeyState;
use key_windows::EitherKey;
use std::alloc::Global;
use std::marker::Model;
use stream_base::{Defs, Entry, KeyText, NoMemory, Row};
use window_parts::WindowPart;

// The engine for the windows of a key, of which any function may be asked.
type FullKey = KeyState<Bundle, FingerTree<Bundle>, WindowPart<Bundle, Daba<Bundle>>>;

// The same, of which only functions may be asked for which the order of values makes no difference.
type LeanKey = KeyState<Summary, FingerTree<Summary>, WindowPart<Summary, Daba<Summary>>>;

/// A shard: a journal, and under each of its entries the changes of the results. Contracts see the
/// definitions, the number of sources and the journal.
///
/// Its keys keep their tuples in slices that all windows of a key share: the partials of the slices lie
/// in a tree with fingers at both ends, and those of a tumbling or sliding window in a DABA queue.
/// Where the definitions ask only for functions of which the order of values makes no difference, the
/// partials are summaries, and else bundles of all functions.
#[derive(Drop)]
pub struct Shard {
    keyed: KeyedShard<EitherKey<FullKey, LeanKey>>,
}

impl Model for Shard {
    ghost use Rattle.shard_core.specs.Shard.{Sharded};

    ghost Value = { Sharded };

    ghost view = { λ s. s.keyed };
}

impl Shard {
    /// A shard with an empty journal, for so many sources.
    pub fn new(alloc: Global, defs: Defs, sources: u16) -> Result<Shard, NoMemory>
        requires { AreSources sources }
        ensures { IfOk result (λ shard. shard
            ≡ record { defs = defs; sources = sources; journal = [] }) }
    {
        Ok(Shard {
            keyed: KeyedShard::new(alloc, defs, sources)?,
        })
    }

    /// Appends an entry, and under it the changes that it causes. It takes all its memory first, and
    /// says what that takes of the slices of its key and of the changes that it causes.
    ///
    /// Where a key has n slices and an entry causes k changes, a tuple takes at most
    /// 64 (r + 3) (4 + 2 k) steps for an r with 2^r at most n + 1, one for each tuple of the slices that
    /// it enters, and twice its count for each change of a window that counts events. A mark takes as
    /// much, with the slices that it splits, and 64 (r + 3) for each slice that leaves. A word on
    /// progress takes steps for the keys alone of which something becomes complete or settled by it: for
    /// each of these 10 n for each window that is tumbling or sliding, 1 for each row of such a window,
    /// 64 (r + 2) for each row of a session or between marks, its count for each row of a window that
    /// counts events, and 64 (r + 2) for each slice that leaves. A late or refused entry takes none, nor
    /// does a word on progress that leaves the watermark as it is.
    pub fn apply<L>(&mut self, entry: &Entry, steps: &mut Steps<L>) -> Result<Applied, ApplyFault>
        requires { IsKnown self.old.sources entry.now }
        ensures applies { Applies IsTupleWithinFolds IsMarkWithinFolds IsProgressWithinFolds
            self.old entry.now result self.new steps.old steps.new }
        ensures ended { IsErrOf result ApplyFault.Ended
            ↔ (has_ended entry.now.source self.old.journal ≡ true) }
        ensures full { IsErrOf result ApplyFault.Full
            ↔ ((has_ended entry.now.source self.old.journal ≡ false) × (length self.old.journal
            ≡ JOURNAL_MAX)) }
        ensures limits { AreWithinLimits self.old.defs }
    {
        self.keyed.apply(entry, steps)
    }

    /// The definitions, which are within their limits.
    pub fn defs(&self) -> &Defs
        ensures value { result.now ≡ self.now.defs }
        ensures limits { AreWithinLimits self.now.defs }
    {
        self.keyed.defs()
    }

    /// How many entries the journal has.
    pub fn journal_len(&self) -> u64
        ensures value { result ≡ length self.now.journal }
        ensures journal { IsJournal self.now.sources self.now.journal }
    {
        self.keyed.journal_len()
    }

    /// The entry at a position.
    pub fn entry_at(&self, position: u64) -> Entry
        requires { position < length self.now.journal }
        ensures { slice_get self.now.journal position ≡ Some result }
    {
        self.keyed.entry_at(position)
    }

    /// The changes under the entry at a position.
    pub fn changes_at(&self, position: u64) -> ChangeRange<'_>
        requires { position < length self.now.journal }
        ensures { result ≡ changes_at self.now.defs self.now.sources self.now.journal position }
    {
        self.keyed.changes_at(position)
    }

    /// How many changes stand under all entries.
    pub fn change_count(&self) -> u64
        ensures { result ≡ length (joined
            (changes_behind self.now.defs self.now.sources [] self.now.journal)) }
    {
        self.keyed.change_count()
    }

    /// The rows of all that stands, by key, window, start and end.
    pub fn standing<L>(&self, steps: &mut Steps<L>) -> Result<Vec<Row>, NoMemory>
        ensures { IfOk result (λ rows. rows.items
            ≡ standing_rows self.now.defs self.now.sources self.now.journal) }
    {
        self.keyed.standing(steps)
    }

    /// How many slices a key has: the maximal stretches of its unsettled tuples with no cut between
    /// neighbours. A key that no entry named has none.
    pub fn slice_count(&self, key: &KeyText) -> u64
        ensures { result
            ≡ length (slices_after self.now.defs self.now.sources self.now.journal key.now) }
    {
        self.keyed.slice_count(key)
    }
}
