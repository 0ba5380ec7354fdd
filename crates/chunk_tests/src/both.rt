use agg_laws::{Lift, Monoid, Steps};
use aggregates::{Bundle, Partial};
use std::process::Abort;
use std::test::Fail;
use stream_base::{Func, Kept};
use tuple_chunks::Tuples;

// Keeps the counters of a test apart.
pub struct Work;

// The tuples of a key, and the same ones in a plain list.
#[derive(Drop)]
pub struct Both {
    pub tuples: Tuples,
    pub plain: Vec<Kept>,
    pub steps: Steps<Work>,
}

impl Both {
    pub fn put(&mut self, x: Kept) -> Result<(), Fail> {
        self.tuples.reserve()?;
        self.tuples.put(x);
        let place = self.plain.partition_point(|y| y.time <= x.time);
        self.plain.insert(place, x)?;
        Ok(())
    }

    pub fn drop_before(&mut self, time: u64) {
        self.tuples.drop_before(time);
        self.plain.retain(|x| time <= x.time);
    }

    // A range folds as in the plain list, and the last time is the same.
    pub fn compare(&mut self, rt: &impl Abort, low: u64, high: u64) {
        let bundle = self.tuples.fold(low, high, &mut self.steps);
        let want = plain_fold(&self.plain, low, high, &mut self.steps);
        assert_eq!(rt; bundle.show(Func::Count), want.show(Func::Count));
        assert_eq!(rt; bundle.show(Func::Trace), want.show(Func::Trace));
        assert_eq!(rt; self.tuples.are_by(high), are_by(&self.plain, high));
    }
}

fn plain_fold(plain: &[Kept], low: u64, high: u64, steps: &mut Steps<Work>) -> Bundle {
    let mut bundle = Bundle::unit();
    for x in plain {
        if low <= x.time && x.time < high {
            bundle = bundle.combine(&Bundle::lift(x.value), steps);
        }
    }
    bundle
}

fn are_by(plain: &[Kept], time: u64) -> bool {
    plain.iter().all(|x| x.time <= time)
}
