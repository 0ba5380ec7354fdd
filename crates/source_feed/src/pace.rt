ghost use Rattle.std.specs.Prelude.{◌≡◌, None, false, ◌<◌, ◌+◌, ◌^◌, ◌∷◌};
ghost use Rattle.stream_base.specs.Model.What.{is_progress};
ghost use Rattle.source_feed.specs.Events.{is_tuple};
ghost use Rattle.source_feed.specs.Pace.{as_waters, made_by, paced, paced_over, told_by, waiting_of, waking_by};
ghost use Rattle.source_feed.specs.Stream.{entry_of};

use crate::waiting::Waiting;
use stream_base::{Entry, What};

// What a source remembers of what it told: its number and when its watermarks are made, how many
// tuples there were and the greatest of their times, whether its last word was that it is idle, and
// the greatest time of its watermarks.
#[derive(Clone, Copy)]
pub struct Pace {
    pub source: u16,
    pub every: u64,
    pub disorder: u64,
    pub tuples: u64,
    pub greatest: u64,
    pub idle: bool,
    pub water: u64,
}

impl Pace {
    // A source that told nothing yet.
    pub fn start(source: u16, every: u64, disorder: u64) -> Pace
        ensures { result ≡ record {
          source = source;
          every = every;
          disorder = disorder;
          tuples = 0;
          greatest = 0;
          idle = false;
          water = 0;
        } }
    {
        Pace {
            source,
            every,
            disorder,
            tuples: 0,
            greatest: 0,
            idle: false,
            water: 0,
        }
    }

    // An event of the source, as an entry.
    pub fn entry(&self, what: What) -> Entry
        ensures { result ≡ entry_of self.now.source what }
    {
        Entry {
            source: self.source,
            what,
        }
    }

    // Takes in the source's next event, where no event waits: answers what is told first of it, and puts
    // what is told behind that where it waits.
    pub fn take_in(&mut self, what: What, waiting: &mut Waiting) -> What
        requires few { self.old.tuples + 1 < 2 ^ 64 }
        requires none { waiting.old.event ≡ None }
        ensures told { result ∷ waiting_of waiting.new ≡ told_by self.old what }
        ensures pace { self.new ≡ paced_over self.old (told_by self.old what) }
        ensures source { self.new.source ≡ self.old.source }
    {
        let waking = self.wake(&what);
        self.tell(&what);
        waiting.made = self.make(&what);
        match waking {
            Some(time) => {
                waiting.event = Some(what);
                What::Water { time }
            }
            None => what,
        }
    }

    // The watermark that wakes the source in front of an event, which is then told.
    fn wake(&mut self, what: &What) -> Option<u64>
        ensures waking { result ≡ waking_by self.old what.now }
        ensures pace { self.new ≡ paced_over self.old (as_waters (waking_by self.old what.now)) }
    {
        if !self.idle || is_progress(what) {
            return None;
        }
        self.idle = false;
        Some(self.water)
    }

    // Remembers what is told.
    fn tell(&mut self, what: &What)
        requires { self.old.tuples + 1 < 2 ^ 64 }
        ensures { self.new ≡ paced self.old what.now }
    {
        match *what {
            What::Tuple { time, .. } => {
                self.tuples += 1;
                self.greatest = self.greatest.max(time);
            }
            What::Mark { .. } => {}
            What::Water { time } => {
                self.idle = false;
                self.water = self.water.max(time);
            }
            What::Idle => self.idle = true,
            What::End => self.idle = false,
        }
    }

    // The watermark that is made after an event, which is then told.
    fn make(&mut self, what: &What) -> Option<u64>
        ensures made { result ≡ made_by self.old what.now }
        ensures pace { self.new ≡ paced_over self.old (as_waters (made_by self.old what.now)) }
    {
        let is_due = self.every >= 1 && self.tuples % self.every == 0;
        if !is_tuple(what) || !is_due {
            return None;
        }
        let time = self.greatest.saturating_sub(self.disorder);
        self.idle = false;
        self.water = self.water.max(time);
        Some(time)
    }
}

fn is_progress(what: &What) -> bool
    ensures { result ≡ is_progress what.now }
{
    matches!(what, What::Water { .. } | What::Idle | What::End)
}

fn is_tuple(what: &What) -> bool
    ensures { result ≡ is_tuple what.now }
{
    matches!(what, What::Tuple { .. })
}
