//! A key's kept tuples, in event order.
ghost use Rattle.std.specs.List.{insert, remove};
ghost use Rattle.std.specs.Prelude.{◌≡◌, ◌≤◌, ◌<◌, ◌+◌, ◌++◌, List, [], length, OnErr, OnOk};
ghost use Rattle.stream_base.specs.declared.limits.TheConstants.{TIME_MAX};
ghost use Rattle.tail_windows.specs.Samples.{IsPlaceOf, IsTimeline, put_sample};
ghost use Rattle.tail_windows.specs.Walks.{ForEachNext, HasAppended, IsTailDef, changes_by_tuple, moved_changes};

use crate::change::TailChange;
use crate::def::TailDef;
use crate::reach::Reach;
use crate::sample::Sample;
use crate::select::{samples_before, stood_before};
use crate::stood::Stood;
use crate::walk::append_from;
use agg_laws::Steps;
use std::alloc::Global;
use std::marker::Model;
use stream_base::{KeyText, NoMemory};

/// The kept tuples of a key, in event order. Contracts see the list of the samples.
#[derive(Drop)]
pub struct Timeline {
    samples: Vec<Sample>,
}

impl Model for Timeline {
    ghost use Rattle.std.specs.Prelude.{List};
    ghost use Rattle.tail_windows.specs.Samples.{IsTimeline};
    ghost use Rattle.tail_windows.specs.declared.sample.Sample.{Sample};

    ghost Value = { List Sample };

    ghost view = { λ s. s.samples.items };

    ghost invariant = { λ s. IsTimeline s.samples.items };
}

impl Timeline {
    /// No tuple yet.
    pub fn new(alloc: Global) -> Timeline
        ensures { result ≡ [] }
    {
        Timeline {
            samples: Vec::new(alloc),
        }
    }

    /// Takes a tuple in, and appends what it changes under a watermark. After want of memory the
    /// timeline is as before.
    pub fn put<L>(
        &mut self,
        def: &TailDef,
        key: &KeyText,
        sample: Sample,
        water: u64,
        out: &mut Vec<TailChange>,
        steps: &mut Steps<L>,
    ) -> Result<(), NoMemory>
        requires def { IsTailDef def.now }
        requires time { sample.time ≤ TIME_MAX }
        ensures put { OnOk result (self.new ≡ put_sample self.old sample) }
        ensures refused { OnErr result (self.new ≡ self.old) }
        ensures changes { ForEachNext self.old sample (λ kept x.
            OnOk result (out.new.items ≡ out.old.items
            ++ changes_by_tuple def.now key.now kept water x)) }
        ensures appended { HasAppended def.now.count out.old.items out.new.items
            steps.old steps.new }
    {
        let place = samples_before(self.samples(), sample.time + 1);
        let reach = Reach {
            most: place + def.count as usize,
            water,
            stood: stood_before(def, self.samples(), sample.time),
        };
        self.insert(place, sample)?;
        match append_from(def, key, self.samples(), reach, place, out, steps) {
            Ok(()) => Ok(()),
            Err(fault) => {
                self.remove(place);
                Err(fault)
            }
        }
    }

    /// Appends what a move of the watermark brings.
    pub fn append_move<L>(
        &self,
        def: &TailDef,
        key: &KeyText,
        old: u64,
        new: u64,
        out: &mut Vec<TailChange>,
        steps: &mut Steps<L>,
    ) -> Result<(), NoMemory>
        requires { IsTailDef def.now }
        ensures changes { OnOk result (out.new.items ≡ out.old.items
            ++ moved_changes def.now key.now old new self.now) }
        ensures appended { HasAppended def.now.count out.old.items out.new.items
            steps.old steps.new }
    {
        let samples = self.samples();
        let reach = Reach {
            most: samples.len(),
            water: new,
            stood: Stood::Nothing,
        };
        let start = samples_before(samples, old / def.period * def.period);
        append_from(def, key, samples, reach, start, out, steps)
    }

    fn samples(&self) -> &[Sample]
        ensures value { result.now ≡ self.now }
        ensures timeline { IsTimeline result.now }
    {
        &self.samples
    }

    fn insert(&mut self, place: usize, sample: Sample) -> Result<(), NoMemory>
        requires place { IsPlaceOf self.old (sample.time + 1) place }
        requires time { sample.time ≤ TIME_MAX }
        ensures inserted { OnOk result (self.new ≡ insert self.old place sample) }
        ensures refused { OnErr result (self.new ≡ self.old) }
    {
        self.samples.insert(place, sample)?;
        Ok(())
    }

    fn remove(&mut self, place: usize)
        requires { place < length self.old }
        ensures { self.new ≡ remove self.old place }
    {
        self.samples.remove(place);
    }
}
