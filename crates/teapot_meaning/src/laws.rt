ghost use Rattle.std.specs.Prelude.{List};
ghost use Rattle.tw_base.specs.declared.message.Message.{Message};
ghost use Rattle.teapot_tree.specs.Bare.{bare_protocol};
ghost use Rattle.teapot_tree.specs.Rules.{IsAccepted};
ghost use Rattle.teapot_tree.specs.declared.protocol.Protocol.{Protocol};
ghost use Rattle.teapot_tree.specs.declared.stmt.Stmt.{Stmt};
ghost use Rattle.teapot_meaning.specs.declared.state.Ended.{Ended};
ghost use Rattle.teapot_meaning.specs.declared.state.Here.{Here};
ghost use Rattle.teapot_meaning.specs.declared.state.Running.{Running};
ghost use Rattle.teapot_meaning.specs.Bare.{bare_ended, bare_here};
ghost use Rattle.teapot_meaning.specs.Does.{Does, HasOneMeaning};
ghost use Rattle.teapot_meaning.specs.Fits.{Fits};
ghost use Rattle.teapot_meaning.specs.Goes.{HasOneEnd};
ghost use Rattle.teapot_meaning.specs.Stays.{FittingBlocksStayFit};

/// Statements come to exactly one end, from any state.
pub fn one_end()
    ensures { (p : Protocol) (stmts : List Stmt) (r : Running) → HasOneEnd p stmts r }
{}

/// A message has exactly one meaning at a block that fits an accepted protocol.
pub fn one_meaning()
    ensures { (p : Protocol) (here : Here) (m : Message) → IsAccepted p → Fits p here → HasOneMeaning p here m }
{}

/// A block that fits an accepted protocol fits it again after each message of the protocol, and has as many words; what
/// is sent are messages of the protocol.
pub fn fitting_blocks_stay_fit()
    ensures { FittingBlocksStayFit }
{}

/// The meaning does not look at line numbers: with every line 0, in the protocol and in the block, it is the same but
/// for lines.
pub fn same_without_lines()
    ensures { (p : Protocol) (here : Here) (m : Message) (e : Ended) → Does p here m e →
        Does (bare_protocol p) (bare_here here) m (bare_ended e) }
{}
