use stream_base::{FINAL, What};

// What is known of the progress of a source.
#[derive(Clone, Copy, Debug, PartialEq, Eq)]
pub struct Source {
    pub water: u64,
    pub idle: bool,
    pub ended: bool,
}

impl Source {
    // It has said nothing.
    pub const FRESH: Source = Source {
        water: 0,
        idle: false,
        ended: false,
    };

    // What is known of it after it said something.
    pub fn after(self, what: What) -> Source {
        match what {
            What::Water { time } => Source {
                water: self.water.max(time),
                idle: false,
                ended: self.ended,
            },
            What::Idle => Source { idle: true, ..self },
            What::End => Source {
                ended: true,
                ..self
            },
            What::Tuple { .. } | What::Mark { .. } => self,
        }
    }

    fn is_awake(self) -> bool {
        !self.idle && !self.ended
    }

    // The least watermark of those of two sources that are awake.
    pub fn least(self, other: Source) -> u64 {
        match (self.is_awake(), other.is_awake()) {
            (true, true) => self.water.min(other.water),
            (true, false) => self.water,
            (false, true) => other.water,
            (false, false) if self.ended && other.ended => FINAL,
            (false, false) => 0,
        }
    }
}
