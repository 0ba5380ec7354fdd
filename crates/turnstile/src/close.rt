ghost use Rattle.std.specs.Prelude.{◌≡◌, ◌≢◌, ℕ, ◌<◌, ◌^◌, [], ◌∷◌, map, vec_len, Some, Contains, All, IfOk, IfErr};
ghost use Rattle.std.specs.List.{AllPairs};
ghost use Rattle.turnstile.specs.declared.view.Stage.TheVariants.{Reached, Idle};
ghost use Rattle.turnstile.specs.History.{BeginsWith, of_number};
ghost use Rattle.turnstile.specs.Rule.{rights};
ghost use Rattle.turnstile.specs.Steps.{at_stage, spent, Closes};
ghost use Rattle.turnstile.specs.Passes.{number, fixed, seen, made, known, numbers, IsPassOf, AreAll};

use crate::ends::{PassEnd, Unclosed};
use crate::keeps::Keeps;
use crate::pass::{Pass, Place};
use crate::patience::Patience;
use crate::plays::{Draw, Enter, Joined, Reach};
use crate::turnstile::{SERVING, TICKET, Turnstile};
use std::alloc::{AllocError, Global};
use std::sync::Wait;

impl<T: Keeps> Turnstile<T> {
    /// Closes the lock, and gives back the value and what is left of each pass, in the order given.
    /// It joins the passes and waits for a turn of its own, since a pass that isn't handed in could
    /// still be in a turn. `Unclosed` is want of memory, which is taken first.
    pub fn close<R: Wait>(
        self,
        rt: &R,
        alloc: Global,
        passes: Vec<Pass<T>>,
    ) -> Result<(T, Vec<PassEnd>), Unclosed<T>>
        requires some { 0 < vec_len passes }
        requires own { All (λ p. IsPassOf self p) passes.items }
        ensures ends { IfOk result (λ r. map (λ e. e.number) r.1.items ≡ numbers passes.items) }
        ensures apart { IfOk result (λ r. AllPairs (λ p q. number p ≢ number q) passes.items) }
        ensures fixed { IfOk result (λ r. All (λ p. fixed p ≡ Some (T.fixed r.0)) passes.items) }
        ensures begins { IfOk result (λ r. All
            (λ p. BeginsWith (T.items r.0) (seen p)) passes.items) }
        ensures made { IfOk result (λ r. All (λ p. of_number (number p) (T.items r.0)
            ≡ made p) passes.items) }
        ensures complete { IfOk result (λ r. AreAll passes.items
            → All (λ e. Contains (numbers passes.items) e.0) (T.items r.0)) }
        ensures refused { IfErr result (λ u. (u.turnstile ≡ self) × (u.passes ≡ passes)) }
    {
        match ends_of(alloc, &passes) {
            Ok(ends) => {
                let mut place = self.gather(passes);
                self.reach(rt, &mut place);
                Ok((self.take_out(place), ends))
            }
            Err(AllocError) => Err(Unclosed {
                turnstile: self,
                passes,
            }),
        }
    }

    // One place that knows all that the passes knew.
    fn gather(&self, mut passes: Vec<Pass<T>>) -> Place<T>
        requires { All (λ p. IsPassOf self.now p) passes.items }
        ensures own { result.table_id ≡ self.now.table.shared.table_id }
        ensures rests { result.me
            ≡ (record spent { others = map known passes.items; room = result.me.0.room }, []) }
    {
        let mut place = self.table.shared.load_new_seat::<Enter>(TICKET).1;
        while let Some(pass) = passes.pop() {
            self.table
                .shared
                .join_seat::<Joined>(&mut place, pass.into_place());
        }
        passes.destroy_empty();
        place
    }

    // Draws a ticket, and waits until it is served.
    fn reach<R: Wait>(&self, rt: &R, place: &mut Place<T>)
        requires own { place.old.table_id ≡ self.now.table.shared.table_id }
        requires rests { (place.old.me.0.stage ≡ Idle) × (place.old.me.1 ≡ [])
            × (0 < rights place.old.me.0) }
        ensures own { place.new.table_id ≡ place.old.table_id }
        ensures reached { (ticket : ℕ) × (place.new.me
            ≡ (at_stage (Reached ticket) place.old.me.0, [])) }
    {
        let ticket = self.table.shared.fetch_add::<Draw<T>>(place, TICKET, 1);
        let mut patience = Patience::new();
        for _ in rt.forever() {
            if self.table.shared.load::<Reach>(place, SERVING) == ticket {
                return;
            }
            patience.wait(rt);
        }
        unreachable!()
    }

    // The value, which lies at home in the turn of this place.
    fn take_out(self, place: Place<T>) -> T
        requires own { place.table_id ≡ self.table.shared.table_id }
        requires reached { (ticket : ℕ) × (place.me.0.stage ≡ Reached ticket) }
        ensures { Closes T.items T.fixed place.me.0 result }
    {
        let Turnstile { table } = self;
        let mut closed = table.close_with(place);
        let value = closed.take(0);
        closed.free();
        value
    }
}

fn ends_of<T: Keeps>(alloc: Global, passes: &[Pass<T>]) -> Result<Vec<PassEnd>, AllocError>
    ensures { IfOk result (λ ends. map (λ e. e.number) ends.items ≡ numbers passes.now) }
{
    let mut ends = Vec::with_capacity(alloc, passes.len())?;
    for pass in passes {
        ends.push(PassEnd {
            number: pass.number,
        })?;
    }
    Ok(ends)
}
