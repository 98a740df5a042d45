ghost use Rattle.std.specs.Prelude.{◌≡◌, drop};
ghost use Rattle.std.specs.Option.{option_copied};
ghost use Rattle.mini_asm.specs.Spelling.{number_at, word_at};
ghost use Rattle.printed_lines.specs.Reading.{chan_at, chan_numbered, event_in, kind_by, kind_of, node_at, node_numbered};
ghost use Rattle.printed_lines.specs.Reading.{node_of};

use report_reader::LineKind;
use tw_base::{Chan, Event, Name, NodeId};
use tw_lex::{Token, What};

/// The word at a place of a line.
pub fn word_at(tokens: &[Token], at: usize) -> Option<&Name>
    ensures { option_copied result ≡ word_at tokens.now at }
{
    match tokens.get(at) {
        Some(token) => match &token.what {
            What::Word(name) => Some(name),
            _ => None,
        },
        None => None,
    }
}

/// The number at a place of a line.
pub fn number_at(tokens: &[Token], at: usize) -> Option<u64>
    ensures { result ≡ number_at tokens.now at }
{
    match tokens.get(at) {
        Some(token) => match &token.what {
            What::Number(number) => Some(*number),
            _ => None,
        },
        None => None,
    }
}

/// The tokens from a place on.
pub fn behind(tokens: &[Token], at: usize) -> &[Token]
    ensures { result.now ≡ drop at tokens.now }
{
    if at <= tokens.len() {
        tokens.split_at(at).1
    } else {
        &[]
    }
}

fn kind_by(word: &[u8]) -> LineKind
    ensures { result ≡ kind_by word.now }
{
    if word == b"fault".as_slice() {
        LineKind::Fault
    } else if word == b"redeliver".as_slice() {
        LineKind::Redelivered
    } else if word == b"deliver".as_slice() {
        LineKind::Delivered
    } else {
        LineKind::Completed
    }
}

/// The kind of an event, by the word behind its node.
pub fn kind_of(tokens: &[Token]) -> LineKind
    ensures { result ≡ kind_of tokens.now }
{
    match word_at(tokens, 6) {
        Some(word) => kind_by(word.bytes()),
        None => LineKind::Completed,
    }
}

fn node_numbered(number: u64) -> Option<NodeId>
    ensures { result ≡ node_numbered number }
{
    if number < 8 {
        NodeId::new(number as u8)
    } else {
        None
    }
}

/// The node whose number stands at a place of a line.
pub fn node_at(tokens: &[Token], at: usize) -> Option<NodeId>
    ensures { result ≡ node_at tokens.now at }
{
    node_numbered(number_at(tokens, at)?)
}

fn chan_numbered(number: u64) -> Option<Chan>
    ensures { result ≡ chan_numbered number }
{
    match number {
        0 => Some(Chan::Zero),
        1 => Some(Chan::One),
        _ => None,
    }
}

fn chan_at(tokens: &[Token], at: usize) -> Option<Chan>
    ensures { result ≡ chan_at tokens.now at }
{
    chan_numbered(number_at(tokens, at)?)
}

/// The node at which an event happened.
pub fn node_of(tokens: &[Token]) -> Option<NodeId>
    ensures { result ≡ node_of tokens.now }
{
    node_at(tokens, 5)
}

/// The event that a line tells of.
pub fn event_in(tokens: &[Token]) -> Option<Event>
    ensures { result ≡ event_in tokens.now }
{
    let node = node_of(tokens)?;
    match kind_of(tokens) {
        LineKind::Redelivered => Some(Event::Redeliver(node)),
        LineKind::Delivered => {
            let (from, chan) = (node_at(tokens, 11)?, chan_at(tokens, 13)?);
            Some(Event::Deliver {
                at: node,
                from,
                chan,
            })
        }
        _ => Some(Event::Instr(node)),
    }
}
