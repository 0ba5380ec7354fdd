ghost use Rattle.std.specs.List.{list_any};
ghost use Rattle.std.specs.Prelude.{◌≡◌, [], length, nat_eq, IfOk, OnOk, OnErr};
ghost use Rattle.model_laws.specs.Rows.{after_change, finds, is_at_place, with_row, without};
ghost use Rattle.standing_rows.specs.Placed.{row_at};

use crate::place::Place;
use crate::seen::Seen;
use std::alloc::Global;
use std::collections::BTreeMap;
use std::marker::Model;
use stream_base::{Change, NoMemory, Row};

/// The rows that stand, in their order. A contract sees them as a list.
#[derive(Drop)]
pub struct StandingRows {
    rows: BTreeMap<Place, Seen>,
}

impl Model for StandingRows {
    ghost use Rattle.std.specs.Prelude.{List};
    ghost use Rattle.std.specs.List.Sorted.{IsStrictlySortedBy};
    ghost use Rattle.stream_base.specs.Laws.{by_row};
    ghost use Rattle.stream_base.specs.declared.row.Row.{Row};
    ghost use Rattle.standing_rows.specs.Placed.{rows_of};

    ghost Value = { List Row };

    ghost view = { λ s. rows_of (s.rows).entries };

    ghost invariant = { λ s. IsStrictlySortedBy by_row (rows_of (s.rows).entries) };
}

impl StandingRows {
    /// Nothing stands.
    pub fn new(alloc: Global) -> StandingRows
        ensures { result ≡ [] }
    {
        StandingRows {
            rows: BTreeMap::new(alloc),
        }
    }

    /// Takes a change in; after want of memory the rows are as before.
    pub fn apply(&mut self, change: &Change) -> Result<(), NoMemory>
        ensures ok { OnOk result (self.new ≡ after_change self.old change.now) }
        ensures refused { OnErr result (self.new ≡ self.old) }
    {
        match change {
            Change::Gone(row) => {
                self.take(row);
                Ok(())
            }
            Change::New(row) => self.put(row),
            Change::Again { row, .. } => self.put(row),
            Change::Dropped => Ok(()),
        }
    }

    /// Whether a change finds what it takes for granted: a retraction and an update a row in their
    /// place, and an emission none.
    pub fn finds(&self, change: &Change) -> bool
        ensures { result ≡ finds self.now change.now }
    {
        match change {
            Change::Gone(row) => self.has(row),
            Change::New(row) => !self.has(row),
            Change::Again { row, .. } => self.has(row),
            Change::Dropped => true,
        }
    }

    /// How many rows stand.
    pub fn len(&self) -> usize
        ensures { result ≡ length self.now }
    {
        self.rows.len()
    }

    /// Whether none does.
    pub fn is_empty(&self) -> bool
        ensures { result ≡ nat_eq (length self.now) 0 }
    {
        self.len() == 0
    }

    /// The rows, by key, window, start and end.
    pub fn rows(&self, alloc: Global) -> Result<Vec<Row>, NoMemory>
        ensures { IfOk result (λ rows. rows.items ≡ self.now) }
    {
        let mut rows = Vec::new(alloc);
        for (place, seen) in self.rows.iter() {
            rows.push(row_at(place, seen))?;
        }
        Ok(rows)
    }

    // Whether a row stands in the place of this one.
    fn has(&self, row: &Row) -> bool
        ensures { result ≡ list_any (is_at_place row.now) self.now }
    {
        self.rows.contains_key(&Place::of(row))
    }

    fn take(&mut self, row: &Row)
        ensures { self.new ≡ without self.old row.now }
    {
        self.rows.remove(&Place::of(row));
    }

    fn put(&mut self, row: &Row) -> Result<(), NoMemory>
        ensures ok { OnOk result (self.new ≡ with_row self.old row.now) }
        ensures refused { OnErr result (self.new ≡ self.old) }
    {
        let seen = Seen {
            number: row.number,
            shown: row.shown,
        };
        self.rows.insert(Place::of(row), seen)?;
        Ok(())
    }
}

// The row of a place that shows this.
fn row_at(place: &Place, seen: &Seen) -> Row
    ensures { result ≡ row_at (place.now, seen.now) }
{
    Row {
        window: place.window,
        key: place.key,
        low: place.low,
        high: place.high,
        number: seen.number,
        shown: seen.shown,
    }
}
