//! What a source says under the definitions of a row.
ghost use Rattle.std.specs.Prelude.{◌≡◌, [], IfOk};

use crate::difference::Difference;
use crate::said::Said;
use crate::trouble::Trouble;
use shard_core::Shard;
use std::alloc::Global;
use stream_base::{Def, Defs, Func, Kind};

/// A window that is summed, the allowed lateness, and what one source says under them.
#[derive(Clone, Copy)]
pub struct History {
    pub kind: Kind,
    pub lateness: u64,
    pub said: &'static [Said],
}

impl History {
    /// A shard that has taken nothing of it yet.
    pub fn shard(&self, alloc: Global) -> Result<Shard, Trouble>
        ensures sources { IfOk result (λ shard. shard.sources ≡ 1) }
        ensures journal { IfOk result (λ shard. shard.journal ≡ []) }
    {
        let window = Def {
            kind: self.kind,
            func: Func::Sum,
        };
        let windows = vec![in alloc; window]?;
        let Ok(defs) = Defs::new(windows, self.lateness, 0, 0) else {
            return Err(Trouble::Differs(Difference::Limits));
        };
        Ok(Shard::new(alloc, defs, 1)?)
    }
}

/// Tuples in order, and a watermark.
pub const TUMBLING: History = History {
    kind: Kind::Tumbling { length: 10 },
    lateness: 0,
    said: &[
        Said::Tuple {
            key: b'a',
            time: 1,
            value: 5,
        },
        Said::Tuple {
            key: b'a',
            time: 4,
            value: 7,
        },
        Said::Water { time: 10 },
        Said::End,
    ],
};

/// Two sessions that a late tuple makes one.
pub const SESSIONS: History = History {
    kind: Kind::Session { gap: 5 },
    lateness: 20,
    said: &[
        Said::Tuple {
            key: b'a',
            time: 0,
            value: 1,
        },
        Said::Tuple {
            key: b'a',
            time: 8,
            value: 2,
        },
        Said::Water { time: 13 },
        Said::Tuple {
            key: b'a',
            time: 4,
            value: 4,
        },
        Said::End,
    ],
};

/// A late mark, which parts an interval that stands.
pub const MARKS: History = History {
    kind: Kind::Marks,
    lateness: 10,
    said: &[
        Said::Tuple {
            key: b'a',
            time: 2,
            value: 1,
        },
        Said::Tuple {
            key: b'a',
            time: 7,
            value: 2,
        },
        Said::Tuple {
            key: b'a',
            time: 12,
            value: 4,
        },
        Said::Mark {
            key: b'a',
            time: 10,
        },
        Said::Water { time: 10 },
        Said::Mark { key: b'a', time: 6 },
        Said::End,
    ],
};

/// A late tuple, which shifts what was counted.
pub const EVENTS: History = History {
    kind: Kind::Events { count: 2 },
    lateness: 20,
    said: &[
        Said::Tuple {
            key: b'a',
            time: 1,
            value: 1,
        },
        Said::Tuple {
            key: b'a',
            time: 5,
            value: 2,
        },
        Said::Tuple {
            key: b'a',
            time: 7,
            value: 4,
        },
        Said::Tuple {
            key: b'a',
            time: 9,
            value: 8,
        },
        Said::Water { time: 9 },
        Said::Tuple {
            key: b'a',
            time: 3,
            value: 16,
        },
        Said::End,
    ],
};

/// Two keys, of which each goes to a shard of its own among two.
pub const TWO_KEYS: History = History {
    kind: Kind::Tumbling { length: 10 },
    lateness: 0,
    said: &[
        Said::Tuple {
            key: b'a',
            time: 1,
            value: 5,
        },
        Said::Tuple {
            key: b'b',
            time: 2,
            value: 6,
        },
        Said::Water { time: 10 },
        Said::End,
    ],
};
