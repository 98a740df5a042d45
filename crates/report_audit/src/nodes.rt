ghost use Rattle.std.specs.Prelude.{◌≡◌, ◌<◌, [], length, map, unwrap_or, Some};
ghost use Rattle.mini_asm.specs.Spelling.{word_at};
ghost use Rattle.report_audit.specs.Nodes.{end_tokens, failed_tokens, handled, is_handled, is_line_of, is_node, is_node_line};
ghost use Rattle.report_audit.specs.Nodes.{is_right, is_tried, node_tokens, tried, wrong_node};
ghost use Rattle.printed_lines.specs.Saying.{meant, says};
ghost use Rattle.printed_lines.specs.Tokens.{whats};

use mini_asm::{Flat, FlatMode};
use printed_lines::{Said, kind_of, node_at, node_of, past, says, word_at};
use printed_text::trap_text;
use report_reader::{LineKind, PrintedLine};
use tw_base::NodeId;
use tw_lex::Token;

fn is_node(node: NodeId, other: Option<NodeId>) -> bool
    ensures { result ≡ is_node node other }
{
    match other {
        Some(other) => other == node,
        None => false,
    }
}

fn is_tried(node: NodeId, tokens: &[Token]) -> bool
    ensures { result ≡ is_tried node tokens.now }
{
    is_node(node, node_of(tokens))
        && matches!(kind_of(tokens), LineKind::Completed | LineKind::Fault)
}

fn is_handled(node: NodeId, tokens: &[Token]) -> bool
    ensures { result ≡ is_handled node tokens.now }
{
    is_node(node, node_of(tokens))
        && matches!(kind_of(tokens), LineKind::Redelivered | LineKind::Delivered)
}

// How many instructions a node tried.
fn tried(node: NodeId, events: &[PrintedLine]) -> usize
    ensures { result ≡ tried node events.now }
{
    events
        .iter()
        .filter(|line| is_tried(node, line.tokens.items()))
        .count()
}

// How many messages a node handled.
fn handled(node: NodeId, events: &[PrintedLine]) -> usize
    ensures { result ≡ handled node events.now }
{
    events
        .iter()
        .filter(|line| is_handled(node, line.tokens.items()))
        .count()
}

/// What the line of a node has to say of its processor and its events.
#[derive(Clone, Copy)]
struct Stands {
    node: u64,
    place: u64,
    tried: u64,
    handled: u64,
}

fn says_so(stands: Stands, end: &[Said], tokens: &[Token]) -> bool
    ensures { result ≡ says (node_tokens stands.node (map meant end.now) stands.place stands.tried stands.handled)
        (whats tokens.now) }
{
    let Some(ending) = past(&[Said::Word(b"node"), Said::Number(stands.node)], tokens) else {
        return false;
    };
    let Some(counts) = past(end, ending) else {
        return false;
    };
    let said = [
        Said::Word(b"place"),
        Said::Number(stands.place),
        Said::Word(b"instructions"),
        Said::Number(stands.tried),
        Said::Word(b"handlers"),
        Said::Number(stands.handled),
    ];
    says(&said, counts)
}

fn says_mode(stands: Stands, mode: FlatMode, tokens: &[Token]) -> bool
    ensures { result ≡ says (node_tokens stands.node (end_tokens mode) stands.place stands.tried stands.handled)
        (whats tokens.now) }
{
    match mode {
        FlatMode::Running => says_so(stands, &[Said::Word(b"stuck")], tokens),
        FlatMode::Halted => says_so(stands, &[Said::Word(b"halted")], tokens),
        FlatMode::Trapped(why) => {
            let why = Said::Word(trap_text(why).as_bytes());
            says_so(stands, &[Said::Word(b"trapped"), why], tokens)
        }
    }
}

fn name_at(tokens: &[Token], at: usize) -> &[u8]
    ensures { result.now ≡ unwrap_or (word_at tokens.now at) [] }
{
    match word_at(tokens, at) {
        Some(name) => name.bytes(),
        None => b"",
    }
}

// Whether a line says that its node failed, by any name.
fn says_failed(stands: Stands, tokens: &[Token]) -> bool
    ensures { result ≡ says (node_tokens stands.node (failed_tokens tokens.now) stands.place stands.tried stands.handled)
        (whats tokens.now) }
{
    let name = Said::Word(name_at(tokens, 3));
    says_so(stands, &[Said::Word(b"failed"), name], tokens)
}

fn is_node_line(stands: Stands, mode: FlatMode, tokens: &[Token]) -> bool
    ensures { result ≡ is_node_line stands.node mode stands.place stands.tried stands.handled tokens.now }
{
    says_mode(stands, mode, tokens)
        || says_so(stands, &[Said::Word(b"spent")], tokens)
        || says_failed(stands, tokens)
}

// Whether the line of a node is right.
fn is_line_of(events: &[PrintedLine], flat: &Flat, node: NodeId, tokens: &[Token]) -> bool
    requires { node < length flat.now.cores }
    ensures { result ≡ is_line_of events.now flat.now (Some node) tokens.now }
{
    let stands = Stands {
        node: u64::from(node.get()),
        place: u64::from(flat.cpu(node).place),
        tried: tried(node, events) as u64,
        handled: handled(node, events) as u64,
    };
    is_node_line(stands, flat.mode(node), tokens)
}

// Whether the line is right of the node that it names, one of so many.
fn is_right(events: &[PrintedLine], nodes: u8, flat: &Flat, tokens: &[Token]) -> bool
    requires { nodes ≡ length flat.now.cores }
    ensures { result ≡ is_right events.now flat.now tokens.now }
{
    match node_at(tokens, 1) {
        Some(node) if node.get() < nodes => is_line_of(events, flat, node, tokens),
        _ => false,
    }
}

/// The first line of a node that is not right. There are so many nodes.
pub fn wrong_node(
    events: &[PrintedLine],
    nodes: u8,
    flat: &Flat,
    lines: &[PrintedLine],
) -> Option<u32>
    requires { nodes ≡ length flat.now.cores }
    ensures { result ≡ wrong_node events.now flat.now lines.now }
{
    for line in lines {
        if !is_right(events, nodes, flat, line.tokens.items()) {
            return Some(line.line);
        }
    }
    None
}
