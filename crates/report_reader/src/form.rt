ghost use Rattle.std.specs.Prelude.{◌≡◌, map};
ghost use Rattle.std.specs.List.{list_any};
ghost use Rattle.report_reader.specs.Slots.{fits, shown};
ghost use Rattle.report_reader.specs.Forms.{head_form, is_line};

use crate::kind::LineKind;
use crate::slot::{Slot, fits_what};
use tw_base::Shape;
use tw_lex::Token;

// The line of a node that ended so.
macro_rules! node {
    ($($slot:expr),*) => {
        [
            Slot::Word(b"node"),
            Slot::Next,
            $($slot,)*
            Slot::Word(b"place"),
            Slot::Number,
            Slot::Word(b"instructions"),
            Slot::Number,
            Slot::Word(b"handlers"),
            Slot::Number,
        ]
    };
}

// The line of an event that did this.
macro_rules! event {
    ($($slot:expr),*) => {
        [
            Slot::Word(b"event"),
            Slot::Number,
            Slot::Word(b"stamp"),
            Slot::Number,
            Slot::Word(b"node"),
            Slot::Node,
            $($slot,)*
        ]
    };
}

// The line of an event with a handler, which did this and ended so.
macro_rules! handled {
    ($($slot:expr),*; $($end:expr),*) => {
        [
            Slot::Word(b"event"),
            Slot::Number,
            Slot::Word(b"stamp"),
            Slot::Number,
            Slot::Word(b"node"),
            Slot::Node,
            $($slot,)*
            Slot::Word(b"sends"),
            Slot::Number,
            Slot::Word(b"state"),
            Slot::Name,
            Slot::Word(b"tag"),
            Slot::Tag,
            $($end,)*
        ]
    };
}

// Whether a line has a form. So many lines of its kind stand before.
fn fits(shape: Shape, before: u64, form: &[Slot], tokens: &[Token]) -> bool
    ensures { result ≡ fits shape before (map shown form.now) tokens.now }
{
    if form.len() != tokens.len() {
        return false;
    }
    for (at, slot) in form.iter().enumerate() {
        if !fits_what(shape, before, *slot, &tokens[at].what) {
            return false;
        }
    }
    true
}

// Whether a line has one of these forms.
fn fits_some(shape: Shape, before: u64, forms: &[&[Slot]], tokens: &[Token]) -> bool
    ensures { result ≡ list_any (λ form. fits shape before form tokens.now) (map (λ form. map shown form.now) forms.now) }
{
    for form in forms {
        if fits(shape, before, form, tokens) {
            return true;
        }
    }
    false
}

/// Whether a line is the first of a report.
pub fn is_head(version: u8, shape: Shape, tokens: &[Token]) -> bool
    ensures { result ≡ fits shape 0 (head_form version shape) tokens.now }
{
    let form = [
        Slot::Word(b"tempest"),
        Slot::Word(b"report"),
        Slot::Is(u64::from(version)),
        Slot::Word(b"nodes"),
        Slot::Is(u64::from(shape.nodes())),
        Slot::Word(b"words"),
        Slot::Is(u64::from(shape.words())),
        Slot::Word(b"blocks"),
        Slot::Is(u64::from(shape.blocks())),
        Slot::Word(b"budget"),
        Slot::Is(u64::from(shape.budget())),
    ];
    fits(shape, 0, &form, tokens)
}

fn is_print(shape: Shape, before: u64, tokens: &[Token]) -> bool
    ensures { result ≡ is_line shape LineKind.Print before tokens.now }
{
    let form = [Slot::Word(b"print"), Slot::Node, Slot::Number];
    fits_some(shape, before, &[&form], tokens)
}

fn is_word(shape: Shape, before: u64, tokens: &[Token]) -> bool
    ensures { result ≡ is_line shape LineKind.Word before tokens.now }
{
    let form = [Slot::Word(b"word"), Slot::Address, Slot::Number];
    fits_some(shape, before, &[&form], tokens)
}

fn is_register(shape: Shape, before: u64, tokens: &[Token]) -> bool
    ensures { result ≡ is_line shape LineKind.Register before tokens.now }
{
    let form = [
        Slot::Word(b"register"),
        Slot::Node,
        Slot::Register,
        Slot::Number,
    ];
    fits_some(shape, before, &[&form], tokens)
}

fn is_node(shape: Shape, before: u64, tokens: &[Token]) -> bool
    ensures { result ≡ is_line shape LineKind.Node before tokens.now }
{
    let halted = node![Slot::Word(b"halted")];
    let trapped = node![Slot::Word(b"trapped"), Slot::Trap];
    let spent = node![Slot::Word(b"spent")];
    let stuck = node![Slot::Word(b"stuck")];
    let failed = node![Slot::Word(b"failed"), Slot::Name];
    fits_some(
        shape,
        before,
        &[&halted, &trapped, &spent, &stuck, &failed],
        tokens,
    )
}

fn is_counts(shape: Shape, before: u64, tokens: &[Token]) -> bool
    ensures { result ≡ is_line shape LineKind.Counts before tokens.now }
{
    let form = [
        Slot::Word(b"counts"),
        Slot::Next,
        Slot::Word(b"ops"),
        Slot::Number,
        Slot::Word(b"records"),
        Slot::Number,
    ];
    fits_some(shape, before, &[&form], tokens)
}

fn is_completed(shape: Shape, before: u64, tokens: &[Token]) -> bool
    ensures { result ≡ is_line shape LineKind.Completed before tokens.now }
{
    let load = event![Slot::Word(b"ld"), Slot::Address, Slot::Number];
    let store = event![Slot::Word(b"st"), Slot::Address, Slot::Number];
    let faa = event![
        Slot::Word(b"faa"),
        Slot::Address,
        Slot::Number,
        Slot::Number
    ];
    let print = event![Slot::Word(b"print"), Slot::Number];
    let halt = event![Slot::Word(b"halt")];
    let trap = event![Slot::Word(b"trap"), Slot::Trap];
    let step = event![Slot::Word(b"step")];
    fits_some(
        shape,
        before,
        &[&load, &store, &faa, &print, &halt, &trap, &step],
        tokens,
    )
}

fn is_fault(shape: Shape, before: u64, tokens: &[Token]) -> bool
    ensures { result ≡ is_line shape LineKind.Fault before tokens.now }
{
    let fine = handled![
        Slot::Word(b"fault"),
        Slot::Name,
        Slot::Word(b"block"),
        Slot::Block;
    ];
    let failed = handled![
        Slot::Word(b"fault"),
        Slot::Name,
        Slot::Word(b"block"),
        Slot::Block;
        Slot::Word(b"failed"),
        Slot::Name
    ];
    fits_some(shape, before, &[&fine, &failed], tokens)
}

fn is_redelivered(shape: Shape, before: u64, tokens: &[Token]) -> bool
    ensures { result ≡ is_line shape LineKind.Redelivered before tokens.now }
{
    let fine = handled![
        Slot::Word(b"redeliver"),
        Slot::Name,
        Slot::Word(b"block"),
        Slot::Block,
        Slot::Word(b"from"),
        Slot::Node;
    ];
    let failed = handled![
        Slot::Word(b"redeliver"),
        Slot::Name,
        Slot::Word(b"block"),
        Slot::Block,
        Slot::Word(b"from"),
        Slot::Node;
        Slot::Word(b"failed"),
        Slot::Name
    ];
    fits_some(shape, before, &[&fine, &failed], tokens)
}

fn is_delivered(shape: Shape, before: u64, tokens: &[Token]) -> bool
    ensures { result ≡ is_line shape LineKind.Delivered before tokens.now }
{
    let fine = handled![
        Slot::Word(b"deliver"),
        Slot::Name,
        Slot::Word(b"block"),
        Slot::Block,
        Slot::Word(b"from"),
        Slot::Node,
        Slot::Word(b"channel"),
        Slot::Channel,
        Slot::Word(b"number"),
        Slot::Number;
    ];
    let failed = handled![
        Slot::Word(b"deliver"),
        Slot::Name,
        Slot::Word(b"block"),
        Slot::Block,
        Slot::Word(b"from"),
        Slot::Node,
        Slot::Word(b"channel"),
        Slot::Channel,
        Slot::Word(b"number"),
        Slot::Number;
        Slot::Word(b"failed"),
        Slot::Name
    ];
    fits_some(shape, before, &[&fine, &failed], tokens)
}

fn is_history(shape: Shape, before: u64, tokens: &[Token]) -> bool
    ensures { result ≡ is_line shape LineKind.History before tokens.now }
{
    let agrees = [Slot::Word(b"history"), Slot::Word(b"agrees")];
    let broken = [
        Slot::Word(b"history"),
        Slot::Word(b"broken"),
        Slot::Word(b"event"),
        Slot::Number,
        Slot::Word(b"node"),
        Slot::Node,
        Slot::Word(b"address"),
        Slot::Address,
        Slot::Word(b"read"),
        Slot::Number,
        Slot::Word(b"due"),
        Slot::Number,
    ];
    fits_some(shape, before, &[&agrees, &broken], tokens)
}

fn is_end(shape: Shape, before: u64, tokens: &[Token]) -> bool
    ensures { result ≡ is_line shape LineKind.End before tokens.now }
{
    let form = [Slot::Word(b"end")];
    fits_some(shape, before, &[&form], tokens)
}

/// Whether a line has one of the forms of its kind. So many lines of the kind stand before.
pub fn is_line(shape: Shape, kind: LineKind, before: u64, tokens: &[Token]) -> bool
    ensures { result ≡ is_line shape kind before tokens.now }
{
    match kind {
        LineKind::Print => is_print(shape, before, tokens),
        LineKind::Word => is_word(shape, before, tokens),
        LineKind::Register => is_register(shape, before, tokens),
        LineKind::Node => is_node(shape, before, tokens),
        LineKind::Counts => is_counts(shape, before, tokens),
        LineKind::Completed => is_completed(shape, before, tokens),
        LineKind::Fault => is_fault(shape, before, tokens),
        LineKind::Redelivered => is_redelivered(shape, before, tokens),
        LineKind::Delivered => is_delivered(shape, before, tokens),
        LineKind::History => is_history(shape, before, tokens),
        LineKind::End => is_end(shape, before, tokens),
    }
}
