use crossbeam_utils::Backoff;
use std::sync::Wait;
use std::sync::atomic::AtomicU64;
use std::time::Duration;

// How many waits spin, each twice as long as the one before, until the next ones sleep.
const SPINS: u32 = 7;

// How long a sleep is, in microseconds.
const NAP: u64 = 50;

// How a thread waits between two looks at what others are to change. Most turns are short, so it
// spins at first. Then the one for which it waits may well have no processor, so it sleeps.
#[derive(Drop)]
pub(crate) struct Patience {
    waits: u32,
    backoff: Backoff,
}

impl Patience {
    pub(crate) fn new() -> Patience {
        Patience {
            waits: 0,
            backoff: Backoff::new(),
        }
    }

    // Waits once.
    pub(crate) fn wait<R: Wait>(&mut self, rt: &R) {
        if self.waits < SPINS {
            self.waits += 1;
            self.backoff.spin();
        } else {
            // Nobody wakes this sleep: it ends by its time.
            AtomicU64::new(0).park_timeout(rt, 0, Duration::from_micros(NAP));
        }
    }
}
