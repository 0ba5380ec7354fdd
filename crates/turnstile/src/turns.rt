ghost use Rattle.std.specs.Prelude.{◌≡◌, ℕ, [], ◌∷◌, Some, IfSome};
ghost use Rattle.turnstile.specs.declared.view.Stage.TheVariants.{Serving};
ghost use Rattle.turnstile.specs.History.{AddsAtMostOne};
ghost use Rattle.turnstile.specs.Passes.{number, fixed, IsPassOf, IsSamePass, IsTurn};
ghost use Rattle.turnstile.specs.Steps.{as_pass, at_stage, Fits};

use crate::keeps::{Call, Keeps};
use crate::pass::{Pass, Place};
use crate::patience::Patience;
use crate::plays::{Draw, Look, PassOn};
use crate::turnstile::{SERVING, TICKET, Turnstile};
use std::sync::Wait;

// How often a caller looks for a quiet moment before it gets in line all the same.
const LOOKS: u32 = 1_000;

impl<T: Keeps> Turnstile<T> {
    /// One turn: draws a ticket, waits until it is served, runs the call on the value and passes
    /// on. A ticket lock (Mellor-Crummey and Scott, 1991) serves the turns in the order in which
    /// they drew their tickets. A caller that finds a ticket out may wait before it draws its own.
    pub fn turn<R: Wait, C: Call<T>>(&self, rt: &R, pass: &mut Pass<T>, call: C) -> C::Reply
        requires own { IsPassOf self.now pass.old }
        requires may { IfSome (fixed pass.old) (λ f. C.may_run call f (number pass.old)) }
        ensures same { IsSamePass pass.old pass.new }
        ensures turn { IsTurn (C.does call) pass.old pass.new result }
    {
        let number = pass.number;
        let place = &mut pass.seat;
        self.await_quiet(rt);
        self.enter(rt, place);
        let reply = self.serve(place, number, call);
        // The value goes back, and the next ticket is served.
        self.table.shared.fetch_add::<PassOn<T>>(place, SERVING, 1);
        reply
    }

    // Waits until a look finds no ticket that is out, but not for ever. With tickets drawn at once, a
    // turn would wait for each thread before it in the line, and most of them may have no processor.
    // So whoever runs goes on, and the others sleep.
    fn await_quiet<R: Wait>(&self, rt: &R) {
        let words = &self.table.shared;
        let mut patience = Patience::new();
        for _ in 0..LOOKS {
            if words.peek(SERVING) == words.peek(TICKET) {
                return;
            }
            patience.wait(rt);
        }
    }

    // Draws a ticket, and takes the value once it is served.
    fn enter<R: Wait>(&self, rt: &R, place: &mut Place<T>)
        requires own { place.old.table_id ≡ self.now.table.shared.table_id }
        requires rests { (number room : ℕ) × (place.old.me ≡ as_pass number room place.old.me.0) }
        ensures own { place.new.table_id ≡ place.old.table_id }
        ensures taken { (ticket : ℕ) × (x : T)
            × (place.new.me ≡ (at_stage (Serving ticket (T.items x)) place.old.me.0, (0, x) ∷ []))
            × Fits T.items T.fixed place.old.me.0.main x }
    {
        let ticket = self.table.shared.fetch_add::<Draw<T>>(place, TICKET, 1);
        let mut patience = Patience::new();
        for _ in rt.forever() {
            if self.table.shared.load::<Look<T>>(place, SERVING) == ticket {
                return;
            }
            patience.wait(rt);
        }
        unreachable!()
    }

    // Runs the call on the value, which the pass has.
    fn serve<C: Call<T>>(&self, place: &mut Place<T>, number: u64, call: C) -> C::Reply
        requires own { place.old.table_id ≡ self.now.table.shared.table_id }
        requires taken { (x : T) × (place.old.me.1 ≡ (0, x) ∷ [])
            × C.may_run call (T.fixed x) number }
        ensures own { place.new.table_id ≡ place.old.table_id }
        ensures ran { (x y : T) × (place.old.me.1 ≡ (0, x) ∷ [])
            × (place.new.me ≡ (place.old.me.0, (0, y) ∷ [])) × (T.fixed y ≡ T.fixed x)
            × AddsAtMostOne number (T.items x) (T.items y) × C.does call x y number result }
    {
        let value = place.slot_mut(&self.table.shared, 0);
        call.run(value, number)
    }
}
