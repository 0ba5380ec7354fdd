ghost use Rattle.std.specs.Prelude.{◌≡◌, ◌<◌, ◌↔◌, ◌∷◌, [], ◌++◌, ℕ, length, IsNone, IfNone, IfSome};
ghost use Rattle.mail_lane.specs.Lane.{GivesOne, TakenInOrder, TakenWhole};

use crate::line::{Line, Pass, Settles};
use std::marker::Model;
use std::sync::Wait;

/// A lane that has ended, with its receiver and all its senders. It gives what is left.
#[derive(Drop)]
pub struct Settled<M> {
    pub(crate) line: Line<M>,
    pub(crate) pass: Pass<M>,
}

impl<M> Model for Settled<M> {
    ghost use Rattle.crossbeam_queue.specs.SegTies.{IsSegPassOf};
    ghost use Rattle.mail_lane.specs.Lane.{SettledState};
    ghost use Rattle.mail_lane.specs.Rule.{taken_of, collected_of, IsSettled};

    ghost Value = { SettledState M };

    ghost view = { λ s. record {
      taken = taken_of s.pass.me.view.client;
      sent = collected_of s.pass.me.view.client;
    } };

    ghost invariant = { λ s. IsSegPassOf s.line.queue s.pass × IsSettled s.pass.me.view.client };
}

impl<M: Drop> Settled<M> {
    /// The oldest message that is left, or none where the receiver has all that was sent.
    pub fn next<R: Wait>(&mut self, rt: &R) -> Option<M>
        ensures some { IfSome result (λ message. GivesOne self.old message self.new) }
        ensures none { IfNone result (self.new ≡ self.old) }
        ensures whole { IsNone result ↔ TakenWhole self.old }
        ensures in_order { TakenInOrder self.new }
    {
        let left = self.line.queue.pop_as::<Settles, R>(rt, &mut self.pass)?;
        Some(left.message)
    }
}
