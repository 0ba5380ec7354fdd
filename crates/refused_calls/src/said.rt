ghost use Rattle.std.specs.Prelude.{IfOk};
ghost use Rattle.shard_core.specs.Shard.{IsKnown};

use crate::difference::Difference;
use crate::trouble::Trouble;
use stream_base::{Entry, KeyText, What};

/// What the one source of a row says. Each key has one byte.
#[derive(Clone, Copy)]
pub enum Said {
    Tuple { key: u8, time: u64, value: i64 },
    Mark { key: u8, time: u64 },
    Water { time: u64 },
    End,
}

impl Said {
    /// The entry of the one source, whose number is 0.
    pub fn entry(&self) -> Result<Entry, Trouble>
        ensures { IfOk result (λ entry. IsKnown 1 entry) }
    {
        let entry = Entry {
            source: 0,
            what: self.what()?,
        };
        if entry.is_within_limits() {
            Ok(entry)
        } else {
            Err(Trouble::Differs(Difference::Limits))
        }
    }

    fn what(&self) -> Result<What, Trouble> {
        Ok(match *self {
            Said::Tuple { key, time, value } => What::Tuple {
                key: key_of(key)?,
                time,
                value,
            },
            Said::Mark { key, time } => What::Mark {
                key: key_of(key)?,
                time,
            },
            Said::Water { time } => What::Water { time },
            Said::End => What::End,
        })
    }
}

fn key_of(byte: u8) -> Result<KeyText, Trouble> {
    match KeyText::from_bytes(&[byte]) {
        Ok(key) => Ok(key),
        Err(_) => Err(Trouble::Differs(Difference::Limits)),
    }
}
