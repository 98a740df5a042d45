ghost use Rattle.std.specs.Prelude.{◌≡◌};
ghost use Rattle.std.specs.Option.{option_map};
ghost use Rattle.tw_base.specs.declared.entry.Act.TheVariants as act;
ghost use Rattle.printed_lines.specs.Saying.{past, says};
ghost use Rattle.printed_lines.specs.Tokens.{act_tokens, after_tokens, chan_number, entry_tokens, event_tokens, failure_tokens};
ghost use Rattle.printed_lines.specs.Tokens.{left_tokens, whats};

use crate::said::{Said, past, says_nothing};
use printed_text::{Names, fault_text, tag_text, trap_text};
use tw_base::{Act, After, BlockId, Chan, End, Entry, Kind, NodeId, Tag};
use tw_lex::Token;

fn past_event(number: usize, stamp: u64, node: NodeId, tokens: &[Token]) -> Option<&[Token]>
    ensures { option_map (λ rest. whats rest.now) result ≡ past (event_tokens number stamp node) (whats tokens.now) }
{
    let said = [
        Said::Word(b"event"),
        Said::Number(number as u64),
        Said::Word(b"stamp"),
        Said::Number(stamp),
        Said::Word(b"node"),
        Said::Number(u64::from(node.get())),
    ];
    past(&said, tokens)
}

fn chan_number(chan: Chan) -> u64
    ensures { result ≡ chan_number chan }
{
    match chan {
        Chan::Zero => 0,
        Chan::One => 1,
    }
}

fn past_fault<'a>(
    names: &Names,
    store: bool,
    block: BlockId,
    tokens: &'a [Token],
) -> Option<&'a [Token]>
    ensures { option_map (λ rest. whats rest.now) result ≡ past (act_tokens names.now.protocol.now (act.Fault store block))
        (whats tokens.now) }
{
    let said = [
        Said::Word(b"fault"),
        Said::Word(fault_text(store).as_bytes()),
        Said::Word(b"block"),
        Said::Number(u64::from(block.get())),
    ];
    past(&said, tokens)
}

fn past_redelivered<'a>(
    names: &Names,
    kind: Kind,
    block: BlockId,
    from: NodeId,
    tokens: &'a [Token],
) -> Option<&'a [Token]>
    ensures { option_map (λ rest. whats rest.now) result ≡ past
        (act_tokens names.now.protocol.now (act.Redelivered kind block from)) (whats tokens.now) }
{
    let said = [
        Said::Word(b"redeliver"),
        Said::Word(names.kind(kind)),
        Said::Word(b"block"),
        Said::Number(u64::from(block.get())),
        Said::Word(b"from"),
        Said::Number(u64::from(from.get())),
    ];
    past(&said, tokens)
}

fn past_delivered<'a>(
    names: &Names,
    kind: Kind,
    block: BlockId,
    from: NodeId,
    chan: Chan,
    number: u64,
    tokens: &'a [Token],
) -> Option<&'a [Token]>
    ensures { option_map (λ rest. whats rest.now) result ≡ past
        (act_tokens names.now.protocol.now (act.Delivered kind block from chan number)) (whats tokens.now) }
{
    let said = [
        Said::Word(b"deliver"),
        Said::Word(names.kind(kind)),
        Said::Word(b"block"),
        Said::Number(u64::from(block.get())),
        Said::Word(b"from"),
        Said::Number(u64::from(from.get())),
        Said::Word(b"channel"),
        Said::Number(chan_number(chan)),
        Said::Word(b"number"),
        Said::Number(number),
    ];
    past(&said, tokens)
}

/// What stands behind what an event did, None where the line says otherwise.
pub fn past_act<'a>(names: &Names, act: Act, tokens: &'a [Token]) -> Option<&'a [Token]>
    ensures { option_map (λ rest. whats rest.now) result ≡ past (act_tokens names.now.protocol.now act) (whats tokens.now) }
{
    match act {
        Act::Load { address, value } => {
            let address = Said::Number(u64::from(address));
            past(&[Said::Word(b"ld"), address, Said::Number(value)], tokens)
        }
        Act::Store { address, value } => {
            let address = Said::Number(u64::from(address));
            past(&[Said::Word(b"st"), address, Said::Number(value)], tokens)
        }
        Act::Faa {
            address,
            value,
            sum,
        } => {
            let address = Said::Number(u64::from(address));
            let (value, sum) = (Said::Number(value), Said::Number(sum));
            past(&[Said::Word(b"faa"), address, value, sum], tokens)
        }
        Act::Print { value } => past(&[Said::Word(b"print"), Said::Number(value)], tokens),
        Act::Halt => past(&[Said::Word(b"halt")], tokens),
        Act::Trapped { why } => {
            let why = Said::Word(trap_text(why).as_bytes());
            past(&[Said::Word(b"trap"), why], tokens)
        }
        Act::Step => past(&[Said::Word(b"step")], tokens),
        Act::Fault { store, block } => past_fault(names, store, block, tokens),
        Act::Redelivered { kind, block, from } => {
            past_redelivered(names, kind, block, from, tokens)
        }
        Act::Delivered {
            kind,
            block,
            from,
            chan,
            number,
        } => past_delivered(names, kind, block, from, chan, number, tokens),
    }
}

fn past_failure<'a>(names: &Names, end: End, tokens: &'a [Token]) -> Option<&'a [Token]>
    ensures { option_map (λ rest. whats rest.now) result ≡ past (failure_tokens names.now.protocol.now end) (whats tokens.now) }
{
    match end {
        End::Fine => past(&[], tokens),
        End::Failed(number) => {
            let name = Said::Word(names.error(number));
            past(&[Said::Word(b"failed"), name], tokens)
        }
        End::TooDeep => past(&[Said::Word(b"failed"), Said::Word(b"TooDeep")], tokens),
    }
}

fn past_left<'a>(
    names: &Names,
    sends: u16,
    state: u8,
    tag: Tag,
    tokens: &'a [Token],
) -> Option<&'a [Token]>
    ensures { option_map (λ rest. whats rest.now) result ≡ past (left_tokens names.now.protocol.now sends state tag)
        (whats tokens.now) }
{
    let said = [
        Said::Word(b"sends"),
        Said::Number(u64::from(sends)),
        Said::Word(b"state"),
        Said::Word(names.state(state)),
        Said::Word(b"tag"),
        Said::Word(tag_text(tag).as_bytes()),
    ];
    past(&said, tokens)
}

// Whether the end of a line says what a handler left, nothing where none ran.
fn is_after(names: &Names, sends: u16, after: Option<After>, tokens: &[Token]) -> bool
    ensures { result ≡ says (after_tokens names.now.protocol.now sends after) (whats tokens.now) }
{
    let Some(after) = after else {
        return says_nothing(tokens);
    };
    let (state, tag, end) = (after.state, after.tag, after.end);
    let Some(failure) = past_left(names, sends, state, tag, tokens) else {
        return false;
    };
    match past_failure(names, end, failure) {
        Some(rest) => says_nothing(rest),
        None => false,
    }
}

/// Whether a line says just what the own line of an entry does, whose place in a journal is this.
pub fn is_entry(names: &Names, number: usize, entry: &Entry, tokens: &[Token]) -> bool
    ensures { result ≡ says (entry_tokens names.now.protocol.now (number, entry.now)) (whats tokens.now) }
{
    let Some(act) = past_event(number, entry.stamp, entry.node, tokens) else {
        return false;
    };
    match past_act(names, entry.act, act) {
        Some(after) => is_after(names, entry.sends, entry.after, after),
        None => false,
    }
}
