ghost use Rattle.std.specs.Prelude.{◌≡◌};

use crate::keeps::Keeps;
use crate::pass::Pass;
use crate::plays::Tickets;
use crate::view::View;
use atomic_table::{Refused, Table};
use std::alloc::Global;
use std::snapshot::Snapshot;
use stream_base::NoMemory;

// The words of the table: the next ticket to draw, the ticket that is served, and the next number
// that a new pass gets. The first two count modulo 2^64.
pub(crate) const TICKET: usize = 0;

pub(crate) const SERVING: usize = 1;

pub(crate) const NUMBERS: usize = 2;

/// A value under a ticket lock. Each turn is one event: the value leaves its slot, one call runs on
/// it, and it goes back. The ticket that a turn draws fixes its place.
#[derive(Drop)]
pub struct Turnstile<T: Keeps> {
    pub(crate) table: Table<T, View<T::Item, T::Fixed>, Snapshot<T>, Tickets<T>, Global>,
    ghost sized: { (table.shared.table_id.words ≡ 3) × (table.shared.table_id.slots ≡ 1) },
}

impl<T: Keeps> Turnstile<T> {
    ghost use Rattle.std.specs.Prelude.{◌≡◌, ◌-◌, ◌^◌, [], Some, IfOk};
    ghost use Rattle.turnstile.specs.Passes.{number, room, fixed, seen, made, born, IsPassOf};

    /// A turnstile over this value, and its pass number 0, through which all other numbers may be
    /// drawn.
    pub fn new(alloc: Global, value: T) -> Result<(Turnstile<T>, Pass<T>), NoMemory>
    where
        T: Drop,
        requires { T.items value ≡ [] }
        ensures pass { IfOk result (λ r. IsPassOf r.0 r.1) }
        ensures zero { IfOk result (λ r. (number r.1 ≡ 0) × (room r.1 ≡ 2 ^ 62 - 1)) }
        ensures fixed { IfOk result (λ r. fixed r.1 ≡ Some (T.fixed value)) }
        ensures nothing_yet { IfOk result (λ r. (seen r.1 ≡ []) × (made r.1 ≡ [])
            × (born r.1 ≡ [])) }
    {
        let origin = Snapshot::of(&value);
        let mut slots = Vec::with_capacity(alloc, 1)?;
        slots.push(value)?;
        let words = [0u64, 0, 1];
        match Table::new(alloc, &words, slots, &origin) {
            Ok((table, seat)) => Ok((Turnstile { table }, Pass::first(seat))),
            Err(_) => Err(NoMemory),
        }
    }
}
