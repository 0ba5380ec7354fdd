use crate::kept::Kept;
use stream_base::{Func, Shown};
use tail_windows::TailDef;

// The tuples that a period's end selects, the last one first.
pub type Chosen = [Option<Kept>; 4];

// A moment: all tuples that were kept among so many first entries, and the watermark behind them.
#[derive(Drop)]
pub struct Moment<'a> {
    pub kept: &'a [Kept],
    pub entries: u64,
    pub water: u64,
}

impl Moment<'_> {
    // The selection of a key at a period's end, where one stands: the watermark has reached the
    // end, and the period has a tuple.
    pub fn standing(&self, def: &TailDef, key: usize, at: u64) -> Option<Chosen> {
        if at <= self.water && self.has_tuple(key, at.saturating_sub(def.period), at) {
            Some(self.chosen(def.count, key, at))
        } else {
            None
        }
    }

    // Whether a key has a tuple in a span, half open.
    fn has_tuple(&self, key: usize, low: u64, high: u64) -> bool {
        for x in self.kept {
            if x.key == key && x.arrival < self.entries && low <= x.time && x.time < high {
                return true;
            }
        }
        false
    }

    // The last tuples of a key before a time, so many at most.
    fn chosen(&self, count: u64, key: usize, at: u64) -> Chosen {
        let mut chosen = [None; 4];
        let mut time = at;
        let mut arrival = 0;
        for k in 0..4 {
            if (k as u64) < count
                && let Some(x) = self.last_before(key, time, arrival)
            {
                chosen[k] = Some(x);
                time = x.time;
                arrival = x.arrival;
            }
        }
        chosen
    }

    // The last tuple of a key that is before a time and an arrival in event order.
    fn last_before(&self, key: usize, time: u64, arrival: u64) -> Option<Kept> {
        let mut last: Option<Kept> = None;
        for x in self.kept {
            let is_one = x.key == key && x.arrival < self.entries && x.is_before(time, arrival);
            if is_one && last.is_none_or(|y| y.is_before(x.time, x.arrival)) {
                last = Some(*x);
            }
        }
        last
    }
}

// How many tuples are chosen.
pub fn number_of(chosen: &Chosen) -> u64 {
    let mut number: u64 = 0;
    for x in chosen {
        if x.is_some() {
            number = number.saturating_add(1);
        }
    }
    number
}

// Whether the same tuples are chosen, by their arrivals.
pub fn are_same(left: &Chosen, right: &Chosen) -> bool {
    for k in 0..4 {
        if left[k].map(|x| x.arrival) != right[k].map(|x| x.arrival) {
            return false;
        }
    }
    true
}

// What a function shows of the chosen tuples.
pub fn shown(func: Func, chosen: &Chosen) -> Shown {
    let count = number_of(chosen);
    let mut sum: i128 = 0;
    let mut trace: u64 = 0;
    let mut rises: i128 = 0;
    let mut least = i64::MAX;
    let mut greatest = i64::MIN;
    let mut first: Option<i64> = None;
    let mut last: i64 = i64::MAX;
    for x in chosen.iter().rev().flatten() {
        sum = sum.wrapping_add(x.value as i128);
        trace = trace
            .wrapping_mul(1_099_511_628_211)
            .wrapping_add(x.value.cast_unsigned());
        rises = rises.wrapping_add((x.value > last) as i128);
        least = least.min(x.value);
        greatest = greatest.max(x.value);
        first = first.or(Some(x.value));
        last = x.value;
    }
    Shown::Whole(match func {
        Func::Count => count as i128,
        Func::Sum => sum,
        Func::Min => least as i128,
        Func::Max => greatest as i128,
        Func::Mean => return Shown::Ratio { sum, count },
        Func::First => first.unwrap_or(0) as i128,
        Func::Last => last as i128,
        Func::Rises => rises,
        Func::Trace => trace as i128,
    })
}
