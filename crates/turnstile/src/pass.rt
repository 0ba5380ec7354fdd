ghost use Rattle.std.specs.Prelude.{◌≡◌, ◌<◌};
ghost use Rattle.turnstile.specs.Steps.{as_pass};

use crate::keeps::Keeps;
use crate::view::View;
use atomic_table::Seat;

// What a pass steps with. It has no bytes.
pub(crate) type Place<T> = Seat<T, View<<T as Keeps>::Item, <T as Keeps>::Fixed>>;

/// One caller's place at a turnstile. It has a number that no other pass has, and it knows the list
/// that it has seen, the items that it made and the numbers that it gave to new passes.
pub struct Pass<T: Keeps> {
    pub(crate) seat: Seat<T, View<T::Item, T::Fixed>>,
    pub(crate) number: u64,
    pub(crate) room: u64,
    ghost resting: { seat.me ≡ as_pass number room seat.me.0 },
    ghost only_zero: { 0 < room → number ≡ 0 },
}

impl<T: Keeps> Pass<T> {
    ghost use Rattle.turnstile.specs.Passes.{number, room};

    /// The pass's number.
    pub fn number(&self) -> u64
        ensures { result ≡ number self.now }
    {
        self.number
    }

    /// How many numbers may still be drawn through this pass.
    pub fn room(&self) -> u64
        ensures { result ≡ room self.now }
    {
        self.room
    }
}

impl<T: Keeps> Pass<T> {
    ghost use Rattle.std.specs.Prelude.{◌≡◌, ◌-◌, ◌^◌};
    ghost use Rattle.turnstile.specs.Steps.{as_pass};

    // Pass zero, with the first seat of a table.
    pub(crate) fn first(seat: Seat<T, View<T::Item, T::Fixed>>) -> Pass<T>
        requires { seat.me ≡ as_pass 0 (2 ^ 62 - 1) seat.me.0 }
        ensures { (result.seat ≡ seat) × (result.number ≡ 0) × (result.room ≡ 2 ^ 62 - 1) }
    {
        Pass {
            seat,
            number: 0,
            room: (1 << 62) - 1,
        }
    }

    // What the pass steps with.
    pub(crate) fn into_place(self) -> Place<T>
        ensures { result ≡ self.seat }
    {
        let Pass {
            seat,
            number: _,
            room: _,
        } = self;
        seat
    }
}

impl<T: Keeps> Drop for Pass<T> {
    fn drop(self) {
        let Pass {
            seat: _,
            number: _,
            room: _,
        } = self;
    }
}
