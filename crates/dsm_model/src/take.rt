ghost use Rattle.std.specs.Prelude.{◌≡◌, ◌<◌, length, Some, None, IfOk, OnErr};
ghost use Rattle.std.specs.List.{position};
ghost use Rattle.tw_base.specs.Lists.{Each};
ghost use Rattle.tw_base.specs.declared.entry.Act.TheVariants as act;
ghost use Rattle.tw_base.specs.declared.entry.Event.TheVariants as event;
ghost use Rattle.dsm_model.specs.Kept.{IsSound};
ghost use Rattle.dsm_runs.specs.Locals.{IsStale, MayHandle, last_stamp};
ghost use Rattle.dsm_model.specs.Makes.{IsMade};
ghost use Rattle.dsm_model.specs.Posts.{CanSend, HaveMadeRoom};
ghost use Rattle.dsm_model.specs.Views.{AllRoom, local_of};
ghost use Rattle.dsm_runs.specs.Worlds.{MayRedeliver};

use crate::handle::{Made, adopt, defer, handle};
use crate::instruct::block_at;
use crate::outbox::Outbox;
use crate::{Local, Setup, Waiting};
use std::alloc::Global;
use tw_base::{Act, Chan, Memory, Message, NodeId};

/// The place of the first eligible message.
fn first_eligible(deferred: &[Waiting]) -> Option<usize>
    ensures { result ≡ position (λ w. w.eligible) deferred.now }
{
    deferred.iter().position(|waiting| waiting.eligible)
}

/// The node handles its first eligible message again. After an Err it is as before.
pub fn redeliver(
    alloc: Global,
    setup: &Setup,
    me: NodeId,
    l: &mut Local,
    outboxes: &mut [Outbox],
) -> Result<Made, Memory>
    requires me { me < setup.now.shape.nodes }
    requires may { MayRedeliver setup.now (local_of setup.now me l.old) }
    requires sound { IsSound setup.now l.old }
    requires senders { length outboxes.old ≡ setup.now.shape.nodes }
    requires room { AllRoom outboxes.old }
    ensures made { IfOk result (λ made. IsMade setup.now me (event.Redeliver me) l.old None l.new made) }
    ensures same { HaveMadeRoom outboxes.old outboxes.new }
    ensures ready { IfOk result (λ made. CanSend outboxes.new made.sends) }
    ensures err { OnErr result (l.new ≡ l.old) }
{
    let at = first_eligible(l.deferred.items()).unwrap();
    let message = l.deferred.items()[at].message;
    let stamp = l.clock + 1;
    let here = block_at(l, message.block);
    let handling = handle(alloc, setup, me, stamp, &message, here, outboxes)?;
    defer(&mut l.deferred, &handling.ended, &message)?;
    l.deferred.remove(at);
    let _limit = setup.shape().handler_budget();
    l.handled += 1;
    let act = Act::Redelivered {
        kind: message.kind,
        block: message.block,
        from: message.from,
    };
    Ok(adopt(l, me, act, message.block, stamp, handling))
}

/// The node handles a message that came by the wire from a node on a channel. After an Err it is as before.
pub fn deliver(
    alloc: Global,
    setup: &Setup,
    me: NodeId,
    l: &mut Local,
    message: &Message,
    from: NodeId,
    chan: Chan,
    outboxes: &mut [Outbox],
) -> Result<Made, Memory>
    requires me { me < setup.now.shape.nodes }
    requires from { from < setup.now.shape.nodes }
    requires may { MayHandle setup.now (local_of setup.now me l.old) }
    requires stale { Each IsStale l.old.deferred }
    requires early { message.now.stamp < last_stamp }
    requires block { message.now.block < setup.now.shape.blocks }
    requires sound { IsSound setup.now l.old }
    requires senders { length outboxes.old ≡ setup.now.shape.nodes }
    requires room { AllRoom outboxes.old }
    ensures made { IfOk result (λ made. IsMade setup.now me (event.Deliver me from chan) l.old (Some message.now) l.new made) }
    ensures act { IfOk result (λ made. made.entry.act ≡ act.Delivered message.now.kind message.now.block from chan message.now.number) }
    ensures same { HaveMadeRoom outboxes.old outboxes.new }
    ensures ready { IfOk result (λ made. CanSend outboxes.new made.sends) }
    ensures err { OnErr result (l.new ≡ l.old) }
{
    let stamp = l.clock.max(message.stamp) + 1;
    let here = block_at(l, message.block);
    let handling = handle(alloc, setup, me, stamp, message, here, outboxes)?;
    defer(&mut l.deferred, &handling.ended, message)?;
    let _limit = setup.shape().handler_budget();
    l.handled += 1;
    let act = Act::Delivered {
        kind: message.kind,
        block: message.block,
        from,
        chan,
        number: message.number,
    };
    Ok(adopt(l, me, act, message.block, stamp, handling))
}
