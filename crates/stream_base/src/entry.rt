ghost use Rattle.std.specs.Prelude.{◌≡◌};
ghost use Rattle.stream_base.specs.Model.Journals.{is_entry_within};

use crate::limits::TIME_MAX;
use crate::what::What;

/// One entry of a journal: what a source said.
#[derive(Clone, Copy, Debug, PartialEq, Eq)]
pub struct Entry {
    pub source: u16,
    pub what: What,
}

impl Entry {
    /// Whether the entry is within the limits: its time is at most 10^15. Its source, value and key
    /// are so by their types.
    pub fn is_within_limits(&self) -> bool
        ensures { result ≡ is_entry_within self.now }
    {
        let _source = self.source;
        match self.what {
            What::Tuple { key, time, value } => {
                let _value = value;
                let _bytes = key.bytes();
                time <= TIME_MAX
            }
            What::Mark { key, time } => {
                let _bytes = key.bytes();
                time <= TIME_MAX
            }
            What::Water { time } => time <= TIME_MAX,
            What::Idle | What::End => true,
        }
    }
}
