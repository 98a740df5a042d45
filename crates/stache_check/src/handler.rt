ghost use Rattle.std.specs.Prelude.{◌≡◌, ◌↔◌, IsTrue, [], ◌∷◌, map};
ghost use Rattle.teapot_tree.specs.Bare.{bare_handler, bare_param};
ghost use Rattle.teapot_tree.specs.declared.protocol.ValType.TheVariants as ty;
ghost use Rattle.stache_tree.specs.Tree.{info};
ghost use Rattle.stache_check.specs.Words.{handler_choosing, handler_of, trigger_of, word_of};

use crate::{Line, Word, are_lines};
use teapot_tree::{Handler, Param, Trigger, ValType};

#[derive(Clone, Copy)]
pub enum On {
    RdFault,
    WrFault,
    Named(Word),
    Default,
}

fn is_on(on: &Trigger, term: On) -> bool
    ensures { IsTrue result ↔ (on.now ≡ trigger_of term) }
{
    match (on, term) {
        (Trigger::RdFault, On::RdFault) => true,
        (Trigger::WrFault, On::WrFault) => true,
        (Trigger::Named(name), On::Named(word)) => word.is(name),
        (Trigger::Default, On::Default) => true,
        _ => false,
    }
}

/// Whether there are none.
pub fn are_none(params: &[Param]) -> bool
    ensures { IsTrue result ↔ (map bare_param params.now ≡ []) }
{
    params.is_empty()
}

/// Whether it has this name and type.
pub fn is_info(a: &Param, word: Word, ty: ValType) -> bool
    ensures { IsTrue result ↔ (bare_param a.now ≡ info (word_of word) ty) }
{
    word.is(&a.name) && a.ty == ty
}

/// Whether there is one alone, a node of this name.
fn is_one_node(params: &[Param], word: Word) -> bool
    ensures { IsTrue result ↔ (map bare_param params.now ≡ info (word_of word) ty.Node ∷ []) }
{
    match params {
        [only] => is_info(only, word, ValType::Node),
        _ => false,
    }
}

pub fn is_handler(h: &Handler, on: On, lines: &[Line]) -> bool
    ensures { IsTrue result ↔ (bare_handler h.now ≡ handler_of on lines.now) }
{
    is_on(&h.on, on)
        && h.args.is_empty()
        && are_none(h.locals.items())
        && are_lines(h.body.items(), lines)
}

/// Whether it is a handler with one variable of its own, a node.
pub fn is_handler_choosing(h: &Handler, on: On, variable: Word, lines: &[Line]) -> bool
    ensures { IsTrue result ↔ (bare_handler h.now ≡ handler_choosing on variable lines.now) }
{
    is_on(&h.on, on)
        && h.args.is_empty()
        && is_one_node(h.locals.items(), variable)
        && are_lines(h.body.items(), lines)
}
