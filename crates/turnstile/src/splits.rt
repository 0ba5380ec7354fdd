ghost use Rattle.std.specs.Prelude.{◌≡◌, ◌≢◌, ◌⊎◌, ℕ, ◌+◌, ◌<◌, ◌^◌, [], ◌∷◌, ◌++◌, Contains, IfOk, OnOk, OnErr};
ghost use Rattle.turnstile.specs.Passes.{number, room, fixed, seen, made, born, IsPassOf};

use crate::keeps::Keeps;
use crate::pass::Pass;
use crate::plays::{DrawNumber, HandOver};
use crate::turnstile::{NUMBERS, Turnstile};
use stream_base::NoMemory;

impl<T: Keeps> Turnstile<T> {
    /// A new pass, which has seen what the given one has, and has made nothing. Its number is one
    /// that no pass has or had: each number is drawn once, from one counter. Only pass zero has room
    /// for numbers, and the new pass has none. A pass takes no memory today, so this is never
    /// refused.
    pub fn split(&self, pass: &mut Pass<T>) -> Result<Pass<T>, NoMemory>
        requires own { IsPassOf self.now pass.old }
        requires room { 0 < room pass.old }
        ensures own { IsPassOf self.now pass.new × IfOk result (λ p. IsPassOf self.now p) }
        ensures number { IfOk result (λ p. number p + room pass.old ≡ 2 ^ 62) }
        ensures fresh { IfOk result (λ p. (number p ≢ number pass.old)
            × (Contains (born pass.old) (number p) → ⊥)) }
        ensures knows { IfOk result (λ p. (fixed p ≡ fixed pass.old) × (seen p ≡ seen pass.old)) }
        ensures nothing_yet { IfOk result (λ p. (made p ≡ []) × (born p ≡ []) × (room p ≡ 0)) }
        ensures born { IfOk result (λ p. born pass.new ≡ born pass.old ++ number p ∷ []) }
        ensures one_less { OnOk result (room pass.new + 1 ≡ room pass.old) }
        ensures same { (number pass.new ≡ number pass.old) × (fixed pass.new ≡ fixed pass.old)
            × (seen pass.new ≡ seen pass.old) × (made pass.new ≡ made pass.old) }
        ensures refused { OnErr result ((born pass.new ≡ born pass.old)
            × ((room pass.new ≡ room pass.old) ⊎ (room pass.new + 1 ≡ room pass.old))) }
    {
        let number = self
            .table
            .shared
            .fetch_add::<DrawNumber>(&mut pass.seat, NUMBERS, 1);
        pass.room -= 1;
        let seat = self.table.shared.split_seat::<HandOver>(&mut pass.seat);
        Ok(Pass {
            seat,
            number,
            room: 0,
        })
    }
}
