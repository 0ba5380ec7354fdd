ghost use Rattle.std.specs.Prelude.{ℕ};
ghost use Rattle.source_feed.specs.FeedView.{FeedView, Steps};
ghost use Rattle.source_feed.specs.Gives.{CountsReads};
ghost use Rattle.source_feed.specs.declared.feed_fault.FeedFault.{FeedFault};

use crate::feed_fault::FeedFault;
use stream_base::Entry;

/// The reader of one source: it gives the source's entries one by one.
pub trait Feed {
    // What it gave so far, and what is known of its source.
    ghost state: { Self → FeedView };

    // How many reads have failed.
    ghost faults: { Self → ℕ };

    /// The next entry; nothing once the feed has given its end.
    ///
    /// `Read` is answered where a read of the source failed, `TooLong` where the source has too
    /// many bytes, `Row` where the next record is refused, and `NoMemory` where memory ran out.
    /// After a fault each later call answers it.
    fn next(&mut self) -> Result<Option<Entry>, FeedFault>
        ensures gives { Steps (state self.old) result (state self.new) }
        ensures counts { CountsReads (state self.old).answered
            (faults self.old) result (faults self.new) };
}
