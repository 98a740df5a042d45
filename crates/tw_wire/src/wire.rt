ghost use Rattle.std.specs.Prelude.{◌≡◌, true, [], ◌++◌, OnOk, IfOk, IfErr, MatchOption};
ghost use Rattle.crossbeam_queue.specs.SegTies.{IsSegPassOf};
ghost use Rattle.tw_wire.specs.Carries.{hand};
ghost use Rattle.tw_wire.specs.Sides.{new_sending, new_receiving, with_sent, with_taken, with_look};

use crate::pass::{Pass, RecvPass, SendPass};
use crate::route::Route;
use crate::rule::{Drains, Hand, InOrder, Sends, Sides, Takes};
use crossbeam_queue::RuledSegQueue;
use std::alloc::Global;
use std::marker::Model;
use std::sync::Wait;
use tw_base::{Memory, Message};

type Queue = RuledSegQueue<Message, Hand, InOrder>;

// A wire. A contract sees its name.
pub struct Wire {
    queue: Queue,
}

impl Model for Wire {
    ghost use Rattle.std.specs.Global.{Global};
    ghost use Rattle.crossbeam_queue.specs.SegTies.{SegId};

    ghost Value = { SegId Global };

    ghost view = { λ w. w.queue };
}

impl Drop for Wire {
    fn drop(self) {
        let Wire { queue } = self;
        queue.destroy();
    }
}

impl Wire {
    // A wire and its two ends.
    pub fn new(alloc: Global, route: &Route) -> Result<(Wire, SendPass, RecvPass), Memory>
        ensures { IfOk result (λ r. (r.1 ≡ new_sending route.now r.0) × (r.2 ≡ new_receiving route.now r.0)) }
    {
        let (queue, mut pass) = Queue::with_rule(alloc)?;
        let other = queue.another::<Sides>(&mut pass);
        Ok((
            Wire { queue },
            SendPass {
                pass,
                route: *route,
            },
            RecvPass {
                pass: other,
                route: *route,
                looks: 0,
            },
        ))
    }

    // Pushes. The message comes back for want of memory.
    pub fn push<R: Wait>(
        &self,
        rt: &R,
        pass: &mut SendPass,
        message: Message,
    ) -> Result<(), Message>
        requires { pass.old.wire ≡ self.now }
        ensures wire { (pass.new.route ≡ pass.old.route) × (pass.new.wire ≡ pass.old.wire) }
        ensures ok { OnOk result (pass.new ≡ with_sent pass.old message) }
        ensures err { IfErr result (λ m. (m ≡ message) × (pass.new ≡ pass.old)) }
    {
        self.queue.push_as::<Sends, R>(rt, &mut pass.pass, message)
    }

    // Takes. A look in vain is counted.
    pub fn pop<R: Wait>(&self, rt: &R, pass: &mut RecvPass) -> Option<Message>
        requires { pass.old.wire ≡ self.now }
        ensures wire { (pass.new.route ≡ pass.old.route) × (pass.new.wire ≡ pass.old.wire) }
        ensures taken { MatchOption result (pass.new ≡ with_look pass.old) (λ m. pass.new ≡ with_taken pass.old m) }
    {
        let message = self.queue.pop_as::<Takes, R>(rt, &mut pass.pass);
        if message.is_none() {
            pass.looks = pass.looks.saturating_add(1);
        }
        message
    }

    // Joins the two ends and takes what is left.
    pub fn close<R: Wait>(
        &self,
        rt: &R,
        alloc: Global,
        send: SendPass,
        recv: RecvPass,
    ) -> Result<Vec<Message>, Memory>
        requires { (send.wire ≡ self.now) × (recv.wire ≡ self.now) }
        ensures { IfOk result (λ left. send.sent ≡ recv.taken ++ left.items) }
    {
        let SendPass {
            pass: other,
            route: _,
        } = send;
        let RecvPass {
            mut pass,
            route: _,
            looks: _,
        } = recv;
        self.queue.absorb::<Sides>(&mut pass, other);
        drained(rt, alloc, &self.queue, pass)
    }
}

// Takes what is left.
fn drained<R: Wait>(
    rt: &R,
    alloc: Global,
    queue: &Queue,
    mut pass: Pass,
) -> Result<Vec<Message>, Memory>
    requires queue { IsSegPassOf queue.now pass }
    requires both { pass.me.view.client ≡ hand true true pass.me.view.client.sent pass.me.view.client.taken }
    ensures { IfOk result (λ left. pass.me.view.client.sent ≡ pass.me.view.client.taken ++ left.items) }
{
    let mut left = Vec::new(alloc);
    for _ in rt.forever() {
        left.reserve(1)?;
        match queue.pop_as::<Drains, R>(rt, &mut pass) {
            Some(message) => left.push_reserved(message),
            None => return Ok(left),
        }
    }
    unreachable!()
}
