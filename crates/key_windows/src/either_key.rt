//! One of two engines for the windows of a key, chosen by the definitions.
ghost use Rattle.std.specs.Prelude.{true, ◌⊎◌};
ghost use Rattle.key_windows.specs.Either.{by_engine, from_engines};

use crate::any_key::AnyKey;
use crate::key_windows::KeyWindows;
use agg_laws::Steps;
use std::alloc::Global;
use stream_base::{Change, Defs, Kept, KeyText, NoMemory};

/// One of two engines for the windows of a key: a lean one where it can show the functions of all
/// windows, and else one that shows all functions.
#[derive(Drop)]
pub enum EitherKey<A, B> {
    Full(A),
    Lean(B),
}

impl<A: AnyKey, B: KeyWindows> AnyKey for EitherKey<A, B> {
    ghost serves_all = { λ d. A.serves_all d };
}

impl<A: AnyKey, B: KeyWindows> KeyWindows for EitherKey<A, B> {
    ghost key_of = { by_engine A.key_of B.key_of };

    ghost fits = { λ d kept marks water. by_engine (A.fits d kept marks water)
        (B.fits d kept marks water) };

    ghost is_ready = { λ d call. by_engine (A.is_ready d call) (B.is_ready d call) };

    ghost promised = { by_engine A.promised B.promised };

    ghost next_position = { by_engine A.next_position B.next_position };

    ghost put_work = { λ d old new time. by_engine (A.put_work d old new time)
        (B.put_work d old new time) };

    ghost mark_work = { λ d old new time. from_engines (A.mark_work d old new time)
        (B.mark_work d old new time) };

    ghost bounds_put = { λ d key old new time most. A.bounds_put d key old new time most
        ⊎ B.bounds_put d key old new time most };

    ghost bounds_mark = { λ d key old new time most. A.bounds_mark d key old new time most
        ⊎ B.bounds_mark d key old new time most };

    ghost bounds_move = { λ d key old new most. A.bounds_move d key old new most
        ⊎ B.bounds_move d key old new most };

    ghost credit = { by_engine A.credit B.credit };

    ghost is_ahead = { λ d water. by_engine (A.is_ahead d water) (B.is_ahead d water) };

    ghost move_work = { λ d old new. from_engines (A.move_work d old new)
        (B.move_work d old new) };

    ghost catch_up = { λ d water. by_engine (A.catch_up d water) (B.catch_up d water) };

    ghost serves = { A.serves };

    fn can_serve(defs: &Defs) -> bool {
        A::can_serve(defs)
    }

    fn fresh(alloc: Global, defs: &Defs, key: KeyText) -> Result<EitherKey<A, B>, NoMemory> {
        if B::can_serve(defs) {
            Ok(EitherKey::Lean(B::fresh(alloc, defs, key)?))
        } else {
            Ok(EitherKey::Full(A::fresh(alloc, defs, key)?))
        }
    }

    fn reserve_put(&mut self, defs: &Defs, time: u64, water: u64) -> Result<u64, NoMemory> {
        match self {
            EitherKey::Full(key) => key.reserve_put(defs, time, water),
            EitherKey::Lean(key) => key.reserve_put(defs, time, water),
        }
    }

    fn put<L>(
        &mut self,
        defs: &Defs,
        x: Kept,
        water: u64,
        out: &mut Vec<Change>,
        steps: &mut Steps<L>,
    ) -> bool {
        match self {
            EitherKey::Full(key) => key.put(defs, x, water, out, steps),
            EitherKey::Lean(key) => key.put(defs, x, water, out, steps),
        }
    }

    fn reserve_mark(&mut self, defs: &Defs, time: u64, water: u64) -> Result<u64, NoMemory> {
        match self {
            EitherKey::Full(key) => key.reserve_mark(defs, time, water),
            EitherKey::Lean(key) => key.reserve_mark(defs, time, water),
        }
    }

    fn mark<L>(
        &mut self,
        defs: &Defs,
        time: u64,
        water: u64,
        out: &mut Vec<Change>,
        steps: &mut Steps<L>,
    ) {
        match self {
            EitherKey::Full(key) => key.mark(defs, time, water, out, steps),
            EitherKey::Lean(key) => key.mark(defs, time, water, out, steps),
        }
    }

    fn reserve_water(&mut self, defs: &Defs, old: u64, new: u64) -> Result<u64, NoMemory> {
        match self {
            EitherKey::Full(key) => key.reserve_water(defs, old, new),
            EitherKey::Lean(key) => key.reserve_water(defs, old, new),
        }
    }

    fn water<L>(
        &mut self,
        defs: &Defs,
        old: u64,
        new: u64,
        out: &mut Vec<Change>,
        steps: &mut Steps<L>,
    ) {
        match self {
            EitherKey::Full(key) => key.water(defs, old, new, out, steps),
            EitherKey::Lean(key) => key.water(defs, old, new, out, steps),
        }
    }

    fn next_due(&self, defs: &Defs, water: u64) -> u64 {
        match self {
            EitherKey::Full(key) => key.next_due(defs, water),
            EitherKey::Lean(key) => key.next_due(defs, water),
        }
    }

    fn slice_count(&self, defs: &Defs, water: u64) -> u64 {
        match self {
            EitherKey::Full(key) => key.slice_count(defs, water),
            EitherKey::Lean(key) => key.slice_count(defs, water),
        }
    }
}
