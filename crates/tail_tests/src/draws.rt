ghost use Rattle.std.specs.Prelude.{◌≤◌, ◌<◌};
ghost use Rattle.stream_base.specs.declared.limits.TheConstants.{TIME_MAX};
ghost use Rattle.tail_windows.specs.Following.{time_in};
ghost use Rattle.tail_windows.specs.Walks.{IsTailDef};

use stream_base::{Entry, Func, KeyText, What};
use tail_windows::TailDef;

// So many entries are generated from a seed.
pub const ENTRIES: u64 = 160;

// Source 1 ends here, and source 0 a little before the last entry. Both may say more behind it: it
// is taken in like any other, so that behind both ends each tuple and mark is late.
const FIRST_END: u64 = 125;

const LAST_END: u64 = 150;

// A tuple comes before this time.
pub const TIMES: u64 = 120;

// Numbers by a linear congruence, of which the upper bits are drawn.
#[derive(Drop)]
pub struct Draws {
    pub seed: u64,
}

impl Draws {
    pub fn below(&mut self, bound: u64) -> u64
        requires { 1 ≤ bound }
        ensures { result < bound }
    {
        self.seed = self
            .seed
            .wrapping_mul(6_364_136_223_846_793_005)
            .wrapping_add(1_442_695_040_888_963_407);
        (self.seed >> 33) % bound
    }

    // A window of 1 to 4 tuples and a period of 1 to 10.
    pub fn def(&mut self, func: Func) -> TailDef
        ensures { IsTailDef result }
    {
        let count = 1 + self.below(4);
        let period = 1 + self.below(10);
        TailDef {
            count,
            period,
            func,
        }
    }

    // The entry at a number. Times rise by 1 with each second entry, beside their jitter.
    pub fn entry(&mut self, number: u64, keys: &[KeyText; 3]) -> Entry
        requires { number < 160 }
        ensures source { result.source < 2 }
        ensures time { time_in result.what ≤ TIME_MAX }
    {
        match number {
            FIRST_END => Entry {
                source: 1,
                what: What::End,
            },
            LAST_END => Entry {
                source: 0,
                what: What::End,
            },
            _ => {
                let source = self.below(2) as u16;
                let key = keys[self.below(3) as usize];
                let what = self.said(number / 2, key);
                Entry { source, what }
            }
        }
    }

    // Of 100 entries about 66 are tuples, 6 marks, 24 watermarks, and 4 say that the source is
    // idle. A tuple may be 30 behind a watermark of the same age, so the latest are dropped under
    // each lateness.
    fn said(&mut self, base: u64, key: KeyText) -> What
        requires { base < 80 }
        ensures { time_in result ≤ TIME_MAX }
    {
        let draw = self.below(100);
        if draw < 66 {
            let time = base + self.below(40);
            let value = self.below(2_001) as i64 - 1_000;
            What::Tuple { key, time, value }
        } else if draw < 72 {
            let time = base + self.below(40);
            What::Mark { key, time }
        } else if draw < 96 {
            let time = base + 10 + self.below(20);
            What::Water { time }
        } else {
            What::Idle
        }
    }
}
