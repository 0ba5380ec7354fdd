//! Generated entries of two sources, of which a watermark is told now and then.

ghost use Rattle.std.specs.Prelude.{◌≡◌, ◌≤◌, ◌<◌, ◌+◌, ◌*◌, length, true};
ghost use Rattle.stream_base.specs.Model.Journals.{is_entry_within};

use stream_base::{Entry, KeyText, What};

// A course of so many entries. Their times lie so many times as far about those of the entries
// beside them as in a course of spread 1.
#[derive(Clone, Copy)]
pub struct Course {
    pub entries: u64,
    pub spread: u64,
}

// Numbers by a linear congruence, of which the upper bits are drawn.
#[derive(Drop)]
pub struct Draws {
    pub seed: u64,
}

impl Draws {
    fn below(&mut self, bound: u64) -> u64
        requires { 1 ≤ bound }
        ensures { result < bound }
    {
        self.seed = self
            .seed
            .wrapping_mul(6_364_136_223_846_793_005)
            .wrapping_add(1_442_695_040_888_963_407);
        (self.seed >> 33) % bound
    }
}

// The entry at a number. Times rise by 3 from one entry to the next, beside their jitter. Source 1
// ends when a twentieth of the entries are left, and what it says later is refused.
pub fn entry(number: u64, course: Course, draws: &mut Draws, keys: &[KeyText]) -> Entry
    requires number { number < course.entries }
    requires entries { course.entries ≤ 100000 }
    requires spread { course.spread ≤ 100 }
    requires wide { 1 ≤ course.spread }
    requires keys { 0 < length keys.now }
    ensures source { result.source < 2 }
    ensures within { is_entry_within result ≡ true }
{
    if number == course.entries - 1 {
        return Entry {
            source: 0,
            what: What::End,
        };
    }
    if number == course.entries / 20 * 19 {
        return Entry {
            source: 1,
            what: What::End,
        };
    }
    let source = draws.below(2) as u16;
    let key = keys[draws.below(keys.len() as u64) as usize];
    let what = said(300 * course.spread + 3 * number, course.spread, draws, key);
    Entry { source, what }
}

// Of 100 entries about 70 are tuples, 10 marks, 18 watermarks, and 2 say that the source is idle. A
// watermark stands among the times of the entries about it, so many a later tuple is late. The
// other source told its own some ten entries before, so some of those are still accepted.
fn said(base: u64, spread: u64, draws: &mut Draws, key: KeyText) -> What
    requires low { 300 * spread ≤ base }
    requires high { base ≤ 400000 }
    requires spread { spread ≤ 100 }
    requires wide { 1 ≤ spread }
    ensures { is_entry_within (record { source = 0; what = result }) ≡ true }
{
    let draw = draws.below(100);
    if draw < 70 {
        let value = draws.below(2_001) as i64 - 1_000;
        let time = jittered(base, spread, draws);
        What::Tuple { key, time, value }
    } else if draw < 80 {
        let time = jittered(base, spread, draws);
        What::Mark { key, time }
    } else if draw < 98 {
        let time = base + 19 * spread - draws.below(20 * spread);
        What::Water { time }
    } else {
        What::Idle
    }
}

// With spread 1 mostly up to 60 behind or 19 ahead, and for each sixteenth up to 199 behind.
fn jittered(base: u64, spread: u64, draws: &mut Draws) -> u64
    requires low { 300 * spread ≤ base }
    requires high { base ≤ 400000 }
    requires spread { spread ≤ 100 }
    requires wide { 1 ≤ spread }
    ensures { result ≤ 402000 }
{
    if draws.below(16) == 0 {
        base - draws.below(200 * spread)
    } else {
        base + 19 * spread - draws.below(80 * spread)
    }
}
