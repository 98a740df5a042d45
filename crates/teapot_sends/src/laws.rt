ghost use Rattle.std.specs.Prelude.{ℕ, ◌+◌, ◌*◌, length, ◌≤◌};
ghost use Rattle.tw_base.specs.declared.message.Message.{Message};
ghost use Rattle.teapot_tree.specs.Rules.{IsAccepted};
ghost use Rattle.teapot_tree.specs.declared.protocol.Protocol.{Protocol};
ghost use Rattle.teapot_meaning.specs.declared.state.Ended.{Ended};
ghost use Rattle.teapot_meaning.specs.declared.state.Here.{Here};
ghost use Rattle.teapot_meaning.specs.Does.{Does};
ghost use Rattle.teapot_meaning.specs.Fits.{Fits, IsMessageOf};
ghost use Rattle.teapot_sends.specs.Counts.{HoldAtMost, steps};

/// Under an accepted protocol a block that fits sends at most 288 messages at a message: nine handlers take part at
/// most, the one of the message and eight that are resumed, and each sends at most 32.
pub fn handlers_send_few()
    ensures { (p : Protocol) (here : Here) (m : Message) (e : Ended) → IsAccepted p → Fits p here →
        IsMessageOf p (length here.words) m → Does p here m e → length e.sends ≤ 288 }
{}

/// Where no handler of an accepted protocol holds more than `n` statements, a block that fits takes at most
/// `73728 * n + 1` steps at a message: nine handlers take part at most, each has at most four loops, which repeat a
/// statement at most 8^4 times, and the turns of the loops at most double that. For 2^20 statements it is below 2^37.
pub fn handlers_take_few_steps()
    ensures { (p : Protocol) (here : Here) (m : Message) (e : Ended) (n : ℕ) → IsAccepted p → Fits p here → HoldAtMost n p →
        (d : Does p here m e) → steps d.goes ≤ 73728 * n + 1 }
{}
