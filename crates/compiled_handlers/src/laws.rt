ghost use Rattle.teapot_tree.specs.Rules.{IsAccepted};
ghost use Rattle.teapot_tree.specs.declared.protocol.Protocol.{Protocol};
ghost use Rattle.handler_code.specs.declared.code.Code.{Code};
ghost use Rattle.compiled_meaning.specs.Whole.{IsCode};
ghost use Rattle.compiled_handlers.specs.Lawful.{IsLawful};

use compiled_meaning::{
    code_does_what_is_meant, code_has_an_op_for_each_statement, code_takes_few_ops,
};
use teapot_meaning::fitting_blocks_stay_fit;
use teapot_sends::{handlers_send_few, handlers_take_few_steps};

/// What is known of the code of an accepted protocol.
pub(crate) fn code_is_lawful()
    ensures { (p : Protocol) (code : Code) → IsAccepted p → IsCode p code → IsLawful p code }
{
    fitting_blocks_stay_fit();
    handlers_send_few();
    handlers_take_few_steps();
    code_does_what_is_meant();
    code_has_an_op_for_each_statement();
    code_takes_few_ops();
}
