//! A list of pairs of a number and a value, with a call that adds one and a call that waits.
ghost use Rattle.std.specs.Prelude.{◌≡◌, ◌∷◌, [], ◌++◌, IfOk};

use std::alloc::{AllocError, Global};
use std::sync::atomic::{AtomicU64, Ordering};
use std::thread;
use turnstile::{Call, Keeps};

#[derive(Drop)]
pub struct Pairs {
    pub items: Vec<(u64, u64)>,
}

impl Pairs {
    pub fn new(alloc: Global) -> Pairs
        ensures { result.items.items ≡ [] }
    {
        Pairs {
            items: Vec::new(alloc),
        }
    }
}

impl Keeps for Pairs {
    type Item = u64;

    type Fixed = ();

    ghost items = { λ p. p.items.items };

    ghost fixed = { λ p. tt };
}

/// Adds a pair of the pass's number and this value.
pub struct Append {
    pub value: u64,
}

impl Call<Pairs> for Append {
    ghost use Rattle.std.specs.Prelude.{◌≡◌, ◌∷◌, [], ◌++◌, IfOk};

    type Reply = Result<(), AllocError>;

    ghost may_run = { λ call fixed number. Unit {0} };

    ghost does = { λ call before after number reply.
        IfOk reply (λ _. after.items.items ≡ before.items.items ++ (number, call.value) ∷ []) };

    fn run(self, value: &mut Pairs, number: u64) -> Result<(), AllocError> {
        let Append { value: item } = self;
        value.items.push((number, item))?;
        Ok(())
    }
}

/// Adds nothing, and waits until the flag is set. The reply says whether it was seen in time.
pub struct WaitFor<'a> {
    pub flag: &'a AtomicU64,
    pub looks: u64,
}

impl Call<Pairs> for WaitFor<'_> {
    type Reply = bool;

    ghost may_run = { λ call fixed number. Unit {0} };

    ghost does = { λ call before after number reply. after.items.items ≡ before.items.items };

    fn run(self, _value: &mut Pairs, _number: u64) -> bool {
        let WaitFor { flag, looks } = self;
        for _ in 0..looks {
            if flag.load(Ordering::SeqCst) == 1 {
                return true;
            }
            thread::yield_now();
        }
        false
    }
}
