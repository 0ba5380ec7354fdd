use crate::shard_tally::ShardTally;
use crate::waters::Waters;
use crate::words::{number_in, split_word};
use std::fmt;

// The most shards of a run.
const SHARDS: usize = 16;

/// What the lines of a report come to. It is shown as sentences, one to a line: all shards together, each of several,
/// and a warning where more than half was dropped.
#[derive(Drop)]
pub struct Tally {
    shards: [ShardTally; 16],
    begun: usize,
    waters: Waters,
    time: u64,
}

impl Tally {
    /// No line yet, of a report of so many sources.
    pub fn new(sources: usize) -> Tally {
        Tally {
            shards: [ShardTally::default(); 16],
            begun: 0,
            waters: Waters::new(sources),
            time: 0,
        }
    }

    /// One line more, without its line feed. Its key may be cut off.
    pub fn add(&mut self, line: &[u8]) {
        let (word, rest) = split_word(line);
        match word {
            b"shard" => self.begin(),
            b"j" => self.take_in(rest),
            _ => self.count(word),
        }
    }

    fn begin(&mut self) {
        self.waters = self.waters.anew();
        self.begun = self.begun.saturating_add(1).min(SHARDS);
    }

    // An entry: its source, its kind, and its fields.
    fn take_in(&mut self, words: &[u8]) {
        let (source, rest) = split_word(words);
        let (kind, rest) = split_word(rest);
        let source = number_in(source).min(SHARDS as u64) as usize;
        let time = number_in(split_word(rest).0);
        self.time = time;
        match kind {
            b"w" => self.waters.rise(source, time),
            b"i" => self.waters.fall_idle(source),
            b"e" => self.waters.end(source),
            _ => self.count(kind),
        }
    }

    fn count(&mut self, word: &[u8]) {
        let late = self.waters.watermark().saturating_sub(self.time);
        let Some(last) = self.begun.checked_sub(1) else {
            return;
        };
        if last < SHARDS {
            self.shards[last] = self.shards[last].with(told_by(word, late));
        }
    }
}

// What a line with this word tells, where the entry above it is so far behind the watermark.
fn told_by(word: &[u8], late: u64) -> ShardTally {
    let mut tally = ShardTally::default();
    match word {
        b"t" => tally.tuples = 1,
        b"m" => tally.marks = 1,
        b"+" => tally.emissions = 1,
        b"~" => tally.updates = 1,
        b"-" => tally.retractions = 1,
        b"x" => {
            tally.dropped = 1;
            tally.latest = late;
        }
        _ => {}
    }
    tally
}

fn sum_of(shards: &[ShardTally]) -> ShardTally {
    let mut all = ShardTally::default();
    for shard in shards {
        all = all.with(*shard);
    }
    all
}

impl fmt::Display for Tally {
    fn fmt<W: fmt::Write>(&self, f: &mut fmt::Formatter<W>) -> fmt::Result {
        let all = sum_of(&self.shards);
        writeln!(f, "scotty: {all}")?;
        if self.begun > 1 {
            for (number, shard) in self.shards.iter().enumerate() {
                if number < self.begun {
                    writeln!(f, "scotty: shard {number}: {shard}")?;
                }
            }
        }
        if all.is_mostly_dropped() {
            let latest = all.latest;
            writeln!(
                f,
                "scotty: more than half was dropped as late: with a lateness of {latest} or more all would count"
            )?;
        }
        Ok(())
    }
}
