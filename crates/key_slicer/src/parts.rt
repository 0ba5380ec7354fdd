//! The parts of a key's windows.
ghost use Rattle.std.specs.Prelude.{◌≡◌, ◌≤◌, ◌+◌, [], ℕ, length, All, IfOk};
ghost use Rattle.stream_base.specs.Limits.{AreWithinLimits};
ghost use Rattle.stream_base.specs.Model.Moments.{moment};
ghost use Rattle.stream_base.specs.declared.limits.TheConstants.{WINDOWS_MAX};
ghost use Rattle.agg_store.specs.Stored.{Stored};
ghost use Rattle.key_slicer.specs.Parts.{AllAhead, AreStanding, all_credit};

use aggregates::Partial;
use key_parts::{AnyPart, KeyPart};
use std::alloc::Global;
use std::marker::PhantomData;
use stream_base::{Defs, NoMemory};

/// The parts of the windows of a key, in the order of the definitions.
#[derive(Drop)]
pub struct Parts<M: Partial, P: KeyPart<M>> {
    pub list: Vec<P>,
    of: PhantomData<M>,
}

impl<M: Partial, P: AnyPart<M>> Parts<M, P> {
    // The parts of a key that has no tuple and no mark yet.
    pub fn fresh(alloc: Global, defs: &Defs) -> Result<Parts<M, P>, NoMemory>
        requires { All (λ w. M.serves w.func) (defs.now).windows }
        ensures stands { (water : ℕ) (s : Stored) → s.slices ≡ [] → IfOk result
            (λ parts. AreStanding P.stands defs.now (moment [] [] water) 0 s parts.list.items) }
        ensures credit { IfOk result (λ parts. all_credit P.credit parts.list.items ≡ 0) }
        ensures ahead { (water : ℕ) (s : Stored) → s.slices ≡ [] → IfOk result
            (λ parts. AllAhead P.is_ahead defs.now water s parts.list.items) }
        ensures limits { AreWithinLimits defs.now }
    {
        let count = window_count(defs);
        let mut list = Vec::with_capacity(alloc, count as usize)?;
        for window in 0..count {
            list.push_reserved(P::fresh(alloc, defs, window));
        }
        Ok(Parts {
            list,
            of: PhantomData,
        })
    }
}

// How many windows there are.
pub fn window_count(defs: &Defs) -> u32
    ensures count { result ≡ length (defs.now).windows }
    ensures few { result ≤ WINDOWS_MAX }
    ensures limits { AreWithinLimits defs.now }
{
    defs.windows().len() as u32
}

// The sum of two numbers of changes. No memory holds more than 2^64 of them.
pub fn sum_of(a: u64, b: u64) -> Result<u64, NoMemory>
    ensures { IfOk result (λ sum. sum ≡ a + b) }
{
    match a.checked_add(b) {
        Some(sum) => Ok(sum),
        None => Err(NoMemory),
    }
}
