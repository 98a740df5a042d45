ghost use Rattle.std.specs.Prelude.{◌≡◌};

use crate::route::Route;
use crate::rule::Hand;
use crossbeam_queue::SegPass;
use std::marker::Model;
use tw_base::Message;

pub(crate) type Pass = SegPass<Message, Hand>;

/// The one right to push on a wire. A contract sees which wire it is, and all that was pushed.
#[derive(Drop)]
pub struct SendPass {
    pub(crate) pass: Pass,
    pub(crate) route: Route,
}

impl Model for SendPass {
    ghost use Rattle.std.specs.Prelude.{◌≡◌, None};
    ghost use Rattle.tw_wire.specs.Carries.{IsSender};
    ghost use Rattle.tw_wire.specs.Sides.{Sending};

    ghost Value = { Sending };

    ghost view = { λ p. record {
      route = p.route;
      wire = record { web = p.pass.web; heap = p.pass.heap };
      sent = p.pass.me.view.client.sent;
    } };

    ghost invariant = { λ p. (p.pass.me.hand ≡ None) × (p.pass.me.spare ≡ None) × IsSender p.pass.me.view.client };
}

/// The one right to take from a wire. A contract sees which wire it is, all that was taken, and how often the wire was
/// looked at in vain.
#[derive(Drop)]
pub struct RecvPass {
    pub(crate) pass: Pass,
    pub(crate) route: Route,
    pub(crate) looks: u64,
}

impl Model for RecvPass {
    ghost use Rattle.std.specs.Prelude.{◌≡◌, None};
    ghost use Rattle.tw_wire.specs.Carries.{IsTaker};
    ghost use Rattle.tw_wire.specs.Sides.{Receiving};

    ghost Value = { Receiving };

    ghost view = { λ p. record {
      route = p.route;
      wire = record { web = p.pass.web; heap = p.pass.heap };
      taken = p.pass.me.view.client.taken;
      looks = p.looks;
    } };

    ghost invariant = { λ p. (p.pass.me.hand ≡ None) × (p.pass.me.spare ≡ None) × IsTaker p.pass.me.view.client };
}

impl RecvPass {
    /// How many pops found nothing, at most 2^64 - 1.
    pub fn looks(&self) -> u64
        ensures { result ≡ self.now.looks }
    {
        self.looks
    }
}
