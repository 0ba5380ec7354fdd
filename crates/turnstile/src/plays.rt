//! The rule of the lock, and what each step tells. These types are for the proofs alone.

use crate::keeps::Keeps;
use crate::view::View;
use atomic_table::{Join, Play, Split, TableRule};
use std::marker::PhantomData;
use std::snapshot::Snapshot;

/// The rule of a turnstile's table.
pub struct Tickets<T> {
    marker: PhantomData<T>,
}

impl<T: Keeps> TableRule<T, View<T::Item, T::Fixed>, Snapshot<T>> for Tickets<T> {
    ghost use Rattle.turnstile.specs.Rule.{Rule};
    ghost use Rattle.turnstile.specs.Steps.{first_view};

    ghost holds = { λ _. Rule T.items T.fixed };

    ghost first = { λ origin. first_view (T.fixed origin.value) };
}

/// A ticket is drawn.
pub struct Draw<T> {
    marker: PhantomData<T>,
}

impl<T: Keeps> Play<T, View<T::Item, T::Fixed>> for Draw<T> {
    ghost use Rattle.turnstile.specs.Steps.{drew};

    ghost then = { drew T.items T.fixed };
}

/// A look at the ticket that is served. Where it is the own one, the value is taken.
pub struct Look<T> {
    marker: PhantomData<T>,
}

impl<T: Keeps> Play<T, View<T::Item, T::Fixed>> for Look<T> {
    ghost use Rattle.turnstile.specs.Steps.{looked};

    ghost then = { looked T.items T.fixed };
}

/// The value is given back, and the next ticket is served.
pub struct PassOn<T> {
    marker: PhantomData<T>,
}

impl<T: Keeps> Play<T, View<T::Item, T::Fixed>> for PassOn<T> {
    ghost use Rattle.turnstile.specs.Steps.{passed};

    ghost then = { passed T.items T.fixed };
}

/// A number is drawn for a new pass.
pub struct DrawNumber;

impl<T, I, F> Play<T, View<I, F>> for DrawNumber {
    ghost use Rattle.turnstile.specs.Steps.{drew_number};

    ghost then = { drew_number };
}

/// The number that was drawn goes to a new pass.
pub struct HandOver;

impl<I, F> Split<View<I, F>> for HandOver {
    ghost use Rattle.turnstile.specs.Steps.{handed_over, child};

    ghost left = { handed_over };

    ghost right = { child };
}

/// A copy of what a pass knows.
pub struct Copied;

impl<I, F> Split<View<I, F>> for Copied {
    ghost use Rattle.turnstile.specs.Steps.{copy_of};

    ghost left = { λ v. v };

    ghost right = { copy_of };
}

/// A view is joined to another.
pub struct Joined;

impl<I, F> Join<View<I, F>> for Joined {
    ghost use Rattle.turnstile.specs.Steps.{joined, spent};

    ghost both = { joined };

    ghost spent = { spent };
}

/// What a pass has seen is compared with the copy that was joined to it.
pub struct Compare;

impl<T, I, F> Play<T, View<I, F>> for Compare {
    ghost use Rattle.turnstile.specs.Steps.{compared};

    ghost then = { compared };
}

/// A view that knows nothing comes to be.
pub struct Enter;

impl<T, I, F> Play<T, View<I, F>> for Enter {
    ghost use Rattle.turnstile.specs.Steps.{entered};

    ghost then = { entered };
}

/// A look at the ticket that is served, which leaves the value where it lies.
pub struct Reach;

impl<T, I, F> Play<T, View<I, F>> for Reach {
    ghost use Rattle.turnstile.specs.Steps.{reached};

    ghost then = { reached };
}
