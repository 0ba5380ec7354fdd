ghost use Rattle.std.specs.Prelude.{◌≡◌, Some, None, true, false, IfOk, IfNone, IsSome};
ghost use Rattle.source_feed.specs.Events.{stream_of};
ghost use Rattle.source_feed.specs.FeedFault.{row_refusal_of};
ghost use Rattle.source_feed.specs.FeedState.{FeedState};
ghost use Rattle.source_feed.specs.Gives.{Gives};

use crate::event::next_event;
use crate::pace::Pace;
use crate::records::reader_of;
use crate::row_fault::RowFault;
use crate::waiting::Waiting;
use byte_pieces::{PieceReader, Pieces};
use csv::{ByteRecord, Reader};
use std::alloc::Global;
use std::marker::Model;
use stream_base::{Entry, NoMemory, What};

// Whether records are still read.
#[derive(Clone, Copy)]
pub enum Stage {
    Open,
    Ended,
    Stopped(RowFault),
}

/// The entries of a source whose bytes are in memory: those of its records, with the watermarks
/// that are made, and its end; or those before the first refused record, and that refusal.
#[derive(Drop)]
pub struct Rows {
    reader: Reader<PieceReader>,
    fields: ByteRecord,
    number: u64,
    pace: Pace,
    waiting: Waiting,
    stage: Stage,
}

impl Model for Rows {
    ghost use Rattle.source_feed.specs.FeedState.{FeedState};
    ghost use Rattle.source_feed.specs.RowsView.{rows_state, IsRunning};
    ghost use Rattle.source_feed.specs.declared.row_fault.RowFault.{RowFault};

    ghost Value = { FeedState RowFault };

    ghost view = { rows_state };

    ghost invariant = { IsRunning };
}

impl Rows {
    /// The entries of the source with this number and these bytes. After each tuple whose number,
    /// from 1, is a multiple of `every` stands a watermark, which is `disorder` behind the greatest
    /// time of the source's tuples; with 0 none is made. A source that said that it is idle wakes with
    /// its next tuple or mark: in front of that stands its greatest watermark again.
    pub fn new(
        alloc: Global,
        bytes: Vec<u8>,
        source: u16,
        every: u64,
        disorder: u64,
    ) -> Result<Rows, NoMemory>
        ensures { IfOk result (λ rows. rows ≡ record {
          source = source;
          ended = false;
          answered = None;
          rest = Some (stream_of source every disorder bytes.items);
        }) }
    {
        Rows::of_pieces(alloc, Pieces::of(alloc, bytes), source, every, disorder)
    }

    /// The same of bytes that are held in pieces, each of which is freed once its records were read.
    pub fn of_pieces(
        alloc: Global,
        bytes: Pieces,
        source: u16,
        every: u64,
        disorder: u64,
    ) -> Result<Rows, NoMemory>
        ensures { IfOk result (λ rows. rows ≡ record {
          source = source;
          ended = false;
          answered = None;
          rest = Some (stream_of source every disorder bytes);
        }) }
    {
        let fields = ByteRecord::with_capacity(alloc, 128, 4)?;
        Ok(Rows {
            reader: reader_of(alloc, bytes),
            fields,
            number: 0,
            pace: Pace::start(source, every, disorder),
            waiting: Waiting::nothing(),
            stage: Stage::Open,
        })
    }

    /// The next entry; nothing once the source has given its end.
    ///
    /// `Refused` is answered where the next record is refused, with its number and its first fault,
    /// and `NoMemory` where an allocation was refused. After a fault each later call answers it.
    pub fn next(&mut self) -> Result<Option<Entry>, RowFault>
        ensures gives { Gives row_refusal_of self.old result self.new }

        // What is left stays told until memory runs out. Behind the end or a fault nothing changes.
        ensures told { IfNone self.old.rest (self.old.answered ≡ Some RowFault.NoMemory) }
        ensures ended { self.old.ended ≡ true → self.new ≡ self.old }
        ensures stopped { IsSome self.old.answered → self.new ≡ self.old }
    {
        if let Some(what) = self.waiting.next() {
            return Ok(Some(self.pace.entry(what)));
        }
        match self.stage {
            Stage::Ended => return Ok(None),
            Stage::Stopped(fault) => return Err(fault),
            Stage::Open => {}
        }
        match next_event(&mut self.reader, &mut self.fields, &mut self.number) {
            Ok(Some(what)) => {
                let first = self.pace.take_in(what, &mut self.waiting);
                Ok(Some(self.pace.entry(first)))
            }
            Ok(None) => {
                self.stage = Stage::Ended;
                Ok(Some(self.pace.entry(What::End)))
            }
            Err(fault) => {
                self.stage = Stage::Stopped(fault);
                Err(fault)
            }
        }
    }
}
