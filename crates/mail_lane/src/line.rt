// The ruled queue of a lane: its rule, and what its steps tell the passes.
ghost use Rattle.std.specs.Prelude.{[]};

use crate::letter::Letter;
use crate::role::Role;
use crossbeam_queue::protocol::{Join, Lesson, Outcome, Protocol, Split};
use crossbeam_queue::{RuledSegQueue, SegPass};

pub struct InOrder;

impl<M> Protocol<Letter<M>, Role<M>> for InOrder {
    ghost use Rattle.mail_lane.specs.Rule.{Delivers, unopened};

    ghost holds = { Delivers };

    ghost first = { unopened };
}

pub type Queue<M> = RuledSegQueue<Letter<M>, Role<M>, InOrder>;

pub type Pass<M> = SegPass<Letter<M>, Role<M>>;

// A queue that is destroyed where it is dropped.
pub struct Line<M> {
    pub queue: Queue<M>,
}

impl<M: Drop> Drop for Line<M> {
    fn drop(self) {
        let Line { queue } = self;
        queue.destroy();
    }
}

// The receiver makes the next sender.
pub struct Opens;

impl<M> Split<Role<M>> for Opens {
    ghost use Rattle.mail_lane.specs.Rule.{with_opened, opened};

    ghost left = { with_opened };

    ghost right = { opened };
}

// The receiver takes a sender back.
pub struct Collects;

impl<M> Join<Role<M>> for Collects {
    ghost use Rattle.mail_lane.specs.Rule.{with_collected, spent_role};

    ghost both = { with_collected };

    ghost spent = { spent_role };
}

pub struct Sends;

impl<M> Outcome<Letter<M>, Role<M>> for Sends {
    ghost use Rattle.std.specs.Prelude.{◌≡◌};
    ghost use Rattle.mail_lane.specs.Rule.{with_sent};

    ghost then = { λ v x w. w ≡ with_sent v x };
}

pub struct Takes;

impl<M> Outcome<Letter<M>, Role<M>> for Takes {
    ghost use Rattle.mail_lane.specs.Rule.{IsTaken};

    ghost then = { IsTaken };
}

impl<M> Lesson<Letter<M>, Role<M>> for Takes {
    ghost use Rattle.mail_lane.specs.Rule.{IsLeft};

    ghost fact = { IsLeft };
}

// The receiver takes, once all senders' passes are back.
pub struct Settles;

impl<M> Outcome<Letter<M>, Role<M>> for Settles {
    ghost use Rattle.mail_lane.specs.Rule.{IsTaken};

    ghost then = { IsTaken };
}

impl<M> Lesson<Letter<M>, Role<M>> for Settles {
    ghost use Rattle.mail_lane.specs.Rule.{IsAccounted};

    ghost fact = { IsAccounted };
}
