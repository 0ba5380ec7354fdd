//! The definitions of the generated input.
ghost use Rattle.std.specs.Prelude.{◌≡◌, IfOk};
ghost use Rattle.source_feed.specs.Generated.{made_definitions};

use std::alloc::Global;
use stream_base::{Def, Defs, Func, Kind, NoMemory};

/// The allowed lateness of the generated input.
pub const MADE_LATENESS: u64 = 128;

/// After how many tuples a source of the generated input makes a watermark.
pub const MADE_EVERY: u64 = 50;

/// How far behind its greatest time a source of the generated input makes a watermark.
pub const MADE_DISORDER: u64 = 32;

/// The definitions under which the generated input is run: five windows, one of each kind.
pub fn made_defs(alloc: Global) -> Result<Defs, NoMemory>
    ensures { IfOk result (λ d. d ≡ made_definitions) }
{
    let windows = [
        Def {
            kind: Kind::Tumbling { length: 64 },
            func: Func::Sum,
        },
        Def {
            kind: Kind::Sliding {
                length: 128,
                slide: 32,
            },
            func: Func::Trace,
        },
        Def {
            kind: Kind::Session { gap: 40 },
            func: Func::Count,
        },
        Def {
            kind: Kind::Marks,
            func: Func::First,
        },
        Def {
            kind: Kind::Events { count: 10 },
            func: Func::Last,
        },
    ];
    let windows = Vec::from_slice(alloc, &windows)?;
    Ok(Defs::new(windows, MADE_LATENESS, MADE_EVERY, MADE_DISORDER).unwrap())
}
