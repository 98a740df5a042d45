ghost use Rattle.std.specs.Prelude.{ℕ, ◌≡◌, ◌+◌, ◌<◌, ◌≤◌, ◌^◌, length, slice_index};
ghost use Rattle.node_core.specs.Handlers.{outbox};
ghost use Rattle.node_meaning.specs.Sending.{post_all};

use node_parts::Out;
use tw_base::Message;

/// Posts the messages of an event, for which there is room, in order.
pub fn post_all(out: &mut Out, stamp: u64, sends: &[Message])
    requires room { length out.old.waiting + length sends.now ≤ out.old.room }
    requires few { (k : ℕ) → slice_index out.old.posted k + length sends.now < 2 ^ 64 }
    ensures posted { outbox out.new ≡ post_all stamp sends.now (outbox out.old) }
    ensures room { out.new.room ≡ out.old.room }
{
    for message in sends {
        out.post(message, stamp);
    }
}
