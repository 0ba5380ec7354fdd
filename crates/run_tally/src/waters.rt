// The most sources of a run.
const SOURCES: usize = 16;

// The watermark of a source that has ended: later than any time.
const FINAL: u64 = 1 << 62;

// How far the sources of a journal are, and with them the journal's watermark: the greatest that the least of the
// sources that are awake ever was.
#[derive(Drop)]
pub struct Waters {
    sources: usize,
    waters: [u64; 16],
    are_idle: [bool; 16],
    greatest: u64,
}

impl Waters {
    pub fn new(sources: usize) -> Waters {
        Waters {
            sources: sources.min(SOURCES),
            waters: [0; 16],
            are_idle: [false; 16],
            greatest: 0,
        }
    }

    // The same at the beginning of another journal.
    pub fn anew(&self) -> Waters {
        Waters::new(self.sources)
    }

    pub fn watermark(&self) -> u64 {
        self.greatest
    }

    pub fn rise(&mut self, source: usize, time: u64) {
        if source < SOURCES {
            self.waters[source] = self.waters[source].max(time);
            self.are_idle[source] = false;
            self.settle();
        }
    }

    pub fn end(&mut self, source: usize) {
        self.rise(source, FINAL);
    }

    pub fn fall_idle(&mut self, source: usize) {
        if source < SOURCES {
            self.are_idle[source] = true;
            self.settle();
        }
    }

    fn settle(&mut self) {
        self.greatest = self.greatest.max(self.least());
    }

    // The least watermark of the sources that are awake, and 0 where none is.
    fn least(&self) -> u64 {
        let mut least = u64::MAX;
        for source in 0..SOURCES {
            if source < self.sources && !self.are_idle[source] {
                least = least.min(self.waters[source]);
            }
        }
        if least == u64::MAX { 0 } else { least }
    }
}
