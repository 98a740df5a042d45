ghost use Rattle.teapot_tree.specs.Rules.{IsAccepted};
ghost use Rattle.teapot_tree.specs.declared.protocol.Protocol.{Protocol};
ghost use Rattle.handler_code.specs.declared.code.Code.{Code};
ghost use Rattle.compiled_meaning.specs.Whole.{IsCode};
ghost use Rattle.code_rules.specs.Rules.{KeepsRules};
ghost use Rattle.compiled_rules.specs.Room.{NeedsLittle};

/// The code of an accepted protocol keeps the rules of code.
pub fn code_keeps_the_rules()
    ensures { (p : Protocol) (code : Code) → IsAccepted p → IsCode p code → KeepsRules code p }
{}

/// No handler of such code has more than 21 slots, and the stack never holds more than 24 values.
pub fn code_needs_little()
    ensures { (p : Protocol) (code : Code) → IsAccepted p → IsCode p code → NeedsLittle p code }
{}
