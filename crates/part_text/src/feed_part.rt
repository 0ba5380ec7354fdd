//! The part of the source that a feed reads.
ghost use Rattle.std.specs.Prelude.{◌≡◌, ◌≤◌, ℕ, List, Some, IfOk, IfErr, IsErrOf, OnOk};
ghost use Rattle.csv.specs.Writing.{text_written};
ghost use Rattle.outside.specs.Outside.{Rose};
ghost use Rattle.part_text.specs.Holding.{IsHeld};
ghost use Rattle.part_text.specs.Parting.{HoldsPart, IsNew, IsSameSource, ShowsRefusal};

use crate::event::write_own;
use crate::held_part::HeldPart;
use byte_pieces::Pieces;
use csv::{Writer, WriterBuilder};
use source_feed::{Feed, FeedFault};
use std::alloc::Global;

/// The part for a shard of the source that a feed reads, which gave nothing yet. The feed is read to
/// its end, so a source that is refused has no part. Nothing is kept but the bytes of the part, in
/// pieces; and not even those from where they are more than a source may have: then nothing is answered.
///
/// `Read` is answered where a read of the source failed, `TooLong` where the source has too many
/// bytes, `Row` where a record is refused, with its number in the source, and `NoMemory` where an
/// allocation was refused.
pub fn part_of_feed<F: Feed>(
    alloc: Global,
    feed: &mut F,
    shards: u16,
    shard: u16,
) -> Result<Option<Pieces>, FeedFault>
    requires some { 1 ≤ shards }
    requires unread { IsNew (F.state feed.old) }
    ensures same { IsSameSource (F.state feed.old) (F.state feed.new) }
    ensures part { IfOk result (HoldsPart shards shard (F.state feed.new)) }
    ensures quiet { OnOk result (F.faults feed.new ≡ F.faults feed.old) }
    ensures refused { IfErr result (ShowsRefusal (F.state feed.new)) }
    ensures read { IsErrOf result FeedFault.Read → Rose (F.faults feed.old) (F.faults feed.new) }
{
    let mut writer = WriterBuilder::new().from_writer(HeldPart::new(alloc));
    for _ in 0..u64::MAX {
        match feed.next()? {
            Some(entry) => write_own(&entry.what, shards, shard, &mut writer)?,
            None => return held_of(writer),
        }
    }
    // No memory holds so many entries.
    Err(FeedFault::NoMemory)
}

// What is held of all that was written.
fn held_of(writer: Writer<HeldPart>) -> Result<Option<Pieces>, FeedFault>
    ensures held { (text : List ℕ) → text_written Some writer ≡ Some text
        → IfOk result (IsHeld text) }
    ensures fault { IfErr result (λ fault. fault ≡ FeedFault.NoMemory) }
{
    match writer.into_inner() {
        Ok(part) => Ok(part.into_held()),
        Err(_) => Err(FeedFault::NoMemory),
    }
}
