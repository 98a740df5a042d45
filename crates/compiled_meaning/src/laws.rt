ghost use Rattle.std.specs.Prelude.{◌≡◌, length};
ghost use Rattle.teapot_tree.specs.Rules.{IsAccepted};
ghost use Rattle.teapot_tree.specs.declared.protocol.Protocol.{Protocol};
ghost use Rattle.handler_code.specs.declared.code.Code.{Code};
ghost use Rattle.compiled_meaning.specs.Stands.{SavesAll, Simulates};
ghost use Rattle.compiled_meaning.specs.Whole.{DoesWhatIsMeant, IsCode, TakesFewOpsAt};
ghost use Rattle.teapot_sends.specs.Counts.{HoldAtMost};

use handler_code::stops_once;

/// A protocol has one code at most.
pub fn one_code()
    ensures { (p : Protocol) (a b : Code) → IsCode p a → IsCode p b → a ≡ b }
{}

/// Where the code follows the statements, it does what they mean, if each rest saves what it reads.
pub fn simulates()
    ensures { (p : Protocol) (code : Code) → SavesAll code → Simulates p code }
{}

/// The code of an accepted protocol does what its handlers mean: the same sends in the same order, the same tag, words,
/// infos, deferral and end, and a state and a chain of records that stand for the block's state afterwards.
pub fn code_does_what_is_meant()
    ensures { (p : Protocol) (code : Code) → IsAccepted p → IsCode p code → DoesWhatIsMeant p code }
{}

/// The code takes few ops for each step of the meaning: the jumps that lead to a step, and the ops of its statement.
pub fn code_takes_few_ops()
    ensures { (p : Protocol) (code : Code) → IsAccepted p → IsCode p code → TakesFewOpsAt p code }
{
    stops_once();
}

/// No handler holds more statements than the code has ops.
pub fn code_has_an_op_for_each_statement()
    ensures { (p : Protocol) (code : Code) → IsAccepted p → IsCode p code → HoldAtMost (length code.ops) p }
{}
