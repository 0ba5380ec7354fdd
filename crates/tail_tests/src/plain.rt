ghost use Rattle.std.specs.Prelude.{◌<◌};

use crate::draws::TIMES;
use crate::kept::Kept;
use crate::moment::{Chosen, Moment, are_same, number_of, shown};
use crate::source::Source;
use std::alloc::{AllocError, Global};
use stream_base::{Entry, KeyText, What};
use tail_windows::{TailChange, TailDef, TailRow};

// A plain body: it keeps each tuple, and behind each entry it selects anew at each multiple of the
// period, before and after the entry, and compares.
#[derive(Drop)]
pub struct Plain {
    def: TailDef,
    lateness: u64,
    // By their bytes.
    keys: [KeyText; 3],
    sources: [Source; 2],
    entries: u64,
    water: u64,
    kept: Vec<Kept>,
}

impl Plain {
    pub fn new(alloc: Global, def: TailDef, lateness: u64, keys: [KeyText; 3]) -> Plain {
        Plain {
            def,
            lateness,
            keys,
            sources: [Source::FRESH; 2],
            entries: 0,
            water: 0,
            kept: Vec::new(alloc),
        }
    }

    // Takes an entry in, and appends its changes.
    pub fn apply(&mut self, entry: &Entry, out: &mut Vec<TailChange>) -> Result<(), AllocError>
        requires { entry.now.source < 2 }
    {
        if self.is_late(entry.what) {
            self.entries = self.entries.wrapping_add(1);
            out.push(TailChange::Dropped)?;
            return Ok(());
        }
        let (entries, water) = (self.entries, self.water);
        self.take(entry)?;
        let before = Moment {
            kept: &self.kept,
            entries,
            water,
        };
        let after = Moment {
            kept: &self.kept,
            entries: self.entries,
            water: self.water,
        };
        for key in 0..3 {
            self.append_key(key, &before, &after, out)?;
        }
        Ok(())
    }

    fn is_late(&self, what: What) -> bool {
        match what {
            What::Tuple { time, .. } | What::Mark { time, .. } => {
                time.saturating_add(self.lateness) < self.water
            }
            What::Water { .. } | What::Idle | What::End => false,
        }
    }

    // Keeps a tuple, or notes the progress of a source.
    fn take(&mut self, entry: &Entry) -> Result<(), AllocError>
        requires { entry.now.source < 2 }
    {
        if let What::Tuple { key, time, value } = entry.what {
            let kept = Kept {
                key: self.place_of(&key),
                time,
                arrival: self.entries,
                value,
            };
            self.kept.push(kept)?;
        }
        let source = entry.source as usize;
        self.sources[source] = self.sources[source].after(entry.what);
        let [first, second] = self.sources;
        self.water = self.water.max(first.least(second));
        self.entries = self.entries.wrapping_add(1);
        Ok(())
    }

    fn place_of(&self, key: &KeyText) -> usize {
        for k in 0..3 {
            if self.keys[k] == *key {
                return k;
            }
        }
        3
    }

    // Appends the changes of a key, by the ends of the periods.
    fn append_key(
        &self,
        key: usize,
        before: &Moment,
        after: &Moment,
        out: &mut Vec<TailChange>,
    ) -> Result<(), AllocError>
        requires { key < 3 }
    {
        for n in 1..=TIMES {
            let at = self.def.period.saturating_mul(n);
            if at <= TIMES + 10
                && let Some(chosen) = after.standing(&self.def, key, at)
            {
                let old = before.standing(&self.def, key, at);
                append_change(self.row(key, at, &chosen), &chosen, old, out)?;
            }
        }
        Ok(())
    }

    fn row(&self, key: usize, at: u64, chosen: &Chosen) -> TailRow
        requires { key < 3 }
    {
        TailRow {
            key: self.keys[key],
            at,
            number: number_of(chosen),
            shown: shown(self.def.func, chosen),
        }
    }
}

// Appends what became of a row, given the selection that stood before.
fn append_change(
    row: TailRow,
    chosen: &Chosen,
    old: Option<Chosen>,
    out: &mut Vec<TailChange>,
) -> Result<(), AllocError> {
    match old {
        None => out.push(TailChange::New(row))?,
        Some(old) if are_same(&old, chosen) => {}
        Some(_) => out.push(TailChange::Again(row))?,
    }
    Ok(())
}
