ghost use Rattle.std.specs.Prelude.{◌≡◌};

use crate::ear::Ear;
use crate::tally::Tally;
use outside::{Failed, Sink};

/// A sink to which somebody listens: what it takes is what the sink below takes, and the last line and a tally of the
/// lines of a report are kept.
#[derive(Drop)]
pub struct Heard<K: Sink> {
    sink: K,
    ear: Ear,
}

impl<K: Sink> Heard<K> {
    /// This sink, and an ear for the report of so many sources. It keeps a tally only if it is to, and else hears the
    /// first line alone.
    pub fn new(sink: K, sources: usize, has_tally: bool) -> Heard<K>
        ensures { result.sink ≡ sink }
    {
        Heard {
            sink,
            ear: Ear::new(sources, has_tally),
        }
    }

    /// The last line that was written whole, without its line feed, or the first where no tally is kept: of a long line
    /// the front.
    pub fn last_line(&self) -> &[u8] {
        self.ear.last_line()
    }

    /// What was heard so far.
    pub fn tally(&self) -> &Tally {
        self.ear.tally()
    }
}

impl<K: Sink> Sink for Heard<K> {
    ghost taken = { λ h. K.taken h.sink };

    ghost faults = { λ h. K.faults h.sink };

    fn write(&mut self, bytes: &[u8]) -> Result<usize, Failed> {
        match self.sink.write(bytes) {
            Ok(count) => {
                self.ear.hear(&bytes[..count]);
                Ok(count)
            }
            Err(failed) => Err(failed),
        }
    }
}
