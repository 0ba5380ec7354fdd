use crate::line::Pass;
use std::marker::Model;

/// The one sender of its number on a lane. It knows what it sent.
#[derive(Drop)]
pub struct Sender<M> {
    pub(crate) pass: Pass<M>,
    pub(crate) number: u16,
}

impl<M> Model for Sender<M> {
    ghost use Rattle.std.specs.Prelude.{◌≡◌, None};
    ghost use Rattle.mail_lane.specs.declared.role.Role.TheVariants.{Sending};
    ghost use Rattle.mail_lane.specs.Lane.{SenderState};
    ghost use Rattle.mail_lane.specs.Rule.{sent_of};

    ghost Value = { SenderState M };

    ghost view = { λ s. record {
      lane = record { web = s.pass.web; heap = s.pass.heap };
      number = s.number;
      sent = sent_of s.pass.me.view.client;
    } };

    ghost invariant = { λ s. (s.pass.me.hand ≡ None) × (s.pass.me.spare ≡ None)
        × (s.pass.me.view.client ≡ Sending s.number (sent_of s.pass.me.view.client)) };
}
