ghost use Rattle.teapot_tree.specs.declared.protocol.Protocol.{Protocol};
ghost use Rattle.handler_code.specs.declared.code.Code.{Code};
ghost use Rattle.code_rules.specs.Rules.{KeepsRules};
ghost use Rattle.handler_code.specs.Stacks.{HasDepth};
ghost use Rattle.code_rules.specs.Safety.{IsSafe, depth_in};

/// On code that keeps the rules the machine never leaves its handler, and never finds its stack short.
pub fn verified_code_is_safe()
    ensures { (p : Protocol) (code : Code) → KeepsRules code p → IsSafe p code }
{}

/// Code that keeps the rules has at each place one depth of the stack, which is at most 24.
pub fn verified_code_has_depths()
    ensures { (p : Protocol) (code : Code) → KeepsRules code p → HasDepth p code (depth_in p code) }
{}
