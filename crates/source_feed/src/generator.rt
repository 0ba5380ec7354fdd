//! The tuples of one source of the generated input.
ghost use Rattle.std.specs.Prelude.{◌≡◌, ◌≢◌, ◌≤◌, ◌<◌, ◌+◌, ◌^◌, ◌↔◌, [], IsTrue};
ghost use Rattle.source_feed.specs.Generated.{dealt, told_of_indices};
ghost use Rattle.source_feed.specs.Generating.{IsAtOther, IsAtOwn, IsOnCourse, LeavesAll, TookNext, TookTuple, left_of, made_then, mark_by, stepped};
ghost use Rattle.source_feed.specs.declared.made_feed.TheConstants.{MADE_ROWS_MAX};

use crate::made_input::{MADE_DISORDER, MADE_EVERY};
use crate::made_tuple::{drawn_from, key_by, next_state, time_by, tuple_by};
use crate::waiting::Waiting;
use stream_base::{KeyText, What};

// The generator of one source: the whole input's seed, number of tuples and number of sources, the
// source's own number, the index that comes next and the state in front of it, and how many tuples
// of the source there were and the greatest of their times.
#[derive(Clone, Copy)]
pub struct Generator {
    pub seed: u64,
    pub rows: u64,
    pub sources: u16,
    pub source: u16,
    pub index: u64,
    pub state: u64,
    pub tuples: u64,
    pub greatest: u64,
}

impl Generator {
    // The generator in front of the first index.
    pub fn start(seed: u64, rows: u64, sources: u16, source: u16) -> Generator
        requires some_source { 1 ≤ sources }
        requires few { rows ≤ MADE_ROWS_MAX }
        ensures course { IsOnCourse result }
        ensures left { left_of result ≡ told_of_indices seed [] (dealt sources source 0 rows) }
        ensures source { result.source ≡ source }
    {
        Generator {
            seed,
            rows,
            sources,
            source,
            index: 0,
            state: seed,
            tuples: 0,
            greatest: 0,
        }
    }

    // The source's next tuple, and what waits behind it: its mark and the watermark that is then
    // made. Nothing where no tuple is left.
    pub fn take(&mut self) -> Option<(What, Waiting)>
        requires { IsOnCourse self.old }
        ensures { TookNext self.old result self.new }
    {
        self.seek();
        if self.index == self.rows {
            return None;
        }
        Some(self.make())
    }

    // Goes on to the next index that is the source's own, or behind the last.
    fn seek(&mut self)
        requires { IsOnCourse self.old }
        ensures all { LeavesAll self.old self.new }
        ensures found { self.new.index ≢ self.new.rows → IsAtOwn self.new }
    {
        while self.is_at_other() {
            self.step();
        }
    }

    // Whether the next index is another source's.
    fn is_at_other(&self) -> bool
        requires { 1 ≤ (self.now).sources }
        ensures { IsTrue result ↔ IsAtOther self.now }
    {
        self.index < self.rows && self.index % u64::from(self.sources) != u64::from(self.source)
    }

    // Takes in the index of another source.
    fn step(&mut self)
        requires { self.old.index + 1 < 2 ^ 64 }
        ensures { self.new ≡ stepped self.old }
    {
        self.state = next_state(self.state);
        self.index += 1;
    }

    // The tuple of the next index, which is the source's own, and what waits behind it.
    fn make(&mut self) -> (What, Waiting)
        requires { IsAtOwn self.old }
        ensures { TookTuple self.old result.0 result.1 self.new }
    {
        let index = self.index;
        self.step();
        let drawn = drawn_from(self.state);
        let key = key_by(drawn);
        let time = time_by(index, drawn);
        self.tuples += 1;
        self.greatest = self.greatest.max(time);
        let event = mark_by(index, key, time);
        let made = self.made();
        (tuple_by(key, time, drawn), Waiting { event, made })
    }

    // The watermark that the source makes after its last tuple.
    fn made(&self) -> Option<u64>
        ensures value { result ≡ made_then self.now }
    {
        if self.tuples % MADE_EVERY != 0 {
            return None;
        }
        Some(self.greatest.saturating_sub(MADE_DISORDER))
    }
}

// The mark that follows the tuple of an index, which has this key and time.
fn mark_by(index: u64, key: KeyText, time: u64) -> Option<What>
    ensures { result ≡ mark_by index key time }
{
    if index % 64 != 63 {
        return None;
    }
    Some(What::Mark { key, time })
}
