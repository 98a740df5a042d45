ghost use Rattle.value_nodes.specs.Within.{CodeHasNoNodes, MessagesStayWithin, RunsStayWithin};

/// Compiled code has no node among its constants: they are numbers, truth values and the empty set.
pub fn code_has_no_nodes()
    ensures { CodeHasNoNodes }
{}

/// A machine within `n` stops within `n`.
pub fn runs_stay_within()
    ensures { RunsStayWithin }
{}

/// With compiled code a message within `n`, at a block within `n`, has receivers below `n` alone, and what is sent and kept
/// is within `n`.
pub fn messages_stay_within()
    ensures { MessagesStayWithin }
{}
