use crate::line::Pass;
use std::marker::Model;

/// The one receiver of a lane. It knows what it took, each message with its sender's number, and
/// what the senders sent that it took back.
#[derive(Drop)]
pub struct Receiver<M> {
    pub(crate) pass: Pass<M>,
}

impl<M> Model for Receiver<M> {
    ghost use Rattle.std.specs.Prelude.{◌≡◌, None};
    ghost use Rattle.mail_lane.specs.declared.role.Role.TheVariants.{Receiving};
    ghost use Rattle.mail_lane.specs.Lane.{ReceiverState};
    ghost use Rattle.mail_lane.specs.Rule.{senders_of, taken_of, collected_of};

    ghost Value = { ReceiverState M };

    ghost view = { λ r. record {
      lane = record { web = r.pass.web; heap = r.pass.heap };
      senders = senders_of r.pass.me.view.client;
      taken = taken_of r.pass.me.view.client;
      back = collected_of r.pass.me.view.client;
    } };

    ghost invariant = { λ r. (r.pass.me.hand ≡ None) × (r.pass.me.spare ≡ None)
        × (r.pass.me.view.client ≡ Receiving (senders_of r.pass.me.view.client)
        (taken_of r.pass.me.view.client) (collected_of r.pass.me.view.client)) };
}
