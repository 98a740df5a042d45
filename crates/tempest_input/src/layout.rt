ghost use Rattle.std.specs.Prelude.{◌≡◌, ◌+◌, ◌^◌, ◌<◌, [], ◌∷◌, ◌++◌, length, IfOk};
ghost use Rattle.tw_base.specs.Answers.{Gives};
ghost use Rattle.tempest_input.specs.Layout.{Steps, is_memory, misfit, peeked, is_end, is_field, number_in, field_in};
ghost use Rattle.tempest_input.specs.Layout.{budget_in, init_in, next_init, inits_in, body_in, next_node, behind};
ghost use Rattle.tempest_input.specs.Layout.{number_of_next, section_in, sections_in, choice_in, is_report, ends_so, ending_in};
ghost use Rattle.tempest_input.specs.Layout.{laid_out};

use crate::error::{InputError, Why};
use crate::head::{Field, Head, Shipped, head_of};
use std::alloc::Global;
use tw_base::{Listed, Memory, Stack};
use tw_lex::Line;

/// A number of the header, and its line.
#[derive(Clone, Copy, Debug, PartialEq, Eq)]
pub struct Numbered {
    pub line: u32,
    pub value: u64,
}

/// The word at an address at the start.
#[derive(Debug, Drop)]
pub struct Init {
    pub line: u32,
    pub address: u64,
    pub value: u64,
}

/// The lines of a section, and the number of its `end`.
#[derive(Debug, Drop)]
pub struct Body {
    pub lines: Listed<Line>,
    pub end: u32,
}

/// The program of a node: its line, and what stands in its section.
#[derive(Debug, Drop)]
pub struct Section {
    pub line: u32,
    pub node: u64,
    pub body: Body,
}

/// Which protocol a text has.
#[derive(Debug, Drop)]
pub enum Choice {
    /// The text says nothing.
    Default,
    /// The line of its section, and what stands in it.
    Own(u32, Body),
    /// The line that names it.
    Shipped(u32, Shipped),
}

/// Where a layout ends.
#[derive(Clone, Copy, Debug, PartialEq, Eq)]
pub enum Ending {
    /// With the last line of its text.
    Text,
    /// At a line `report`, behind which the lines of a report stand.
    Report,
}

/// What the lines of a text are.
#[derive(Debug, Drop)]
pub struct Layout {
    pub version: Numbered,
    pub nodes: Numbered,
    pub words: Numbered,
    pub blocks: Numbered,
    pub budget: Option<Numbered>,
    pub inits: Listed<Init>,
    pub programs: Listed<Section>,
    pub protocol: Choice,
}

fn peek(lines: &Stack<Line>) -> Option<(u32, Head)>
    ensures { result ≡ peeked lines.now }
{
    let line = lines.top()?;
    Some((line.number, head_of(line.tokens.items())))
}

// The next line does not fit.
fn misfit(all: u32, lines: &Stack<Line>) -> InputError
    requires { all + 1 < 2 ^ 32 }
    ensures { result ≡ misfit all lines.now }
{
    let line = match lines.top() {
        Some(line) => line.number,
        None => all + 1,
    };
    InputError::Refused {
        line,
        why: Why::BadLine,
    }
}

fn number_in(wanted: Field, head: Head) -> Option<u64>
    ensures { result ≡ number_in wanted head }
{
    match head {
        Head::Number(field, number) if field == wanted => Some(number),
        _ => None,
    }
}

#[tactic(auto, unfolding(crate::specs::Layout::field_in))]
fn field_in(field: Field, all: u32, lines: &mut Stack<Line>) -> Result<Numbered, InputError>
    requires { all + 1 < 2 ^ 32 }
    ensures { Steps result lines.new (field_in field all lines.old) }
{
    let Some((line, head)) = peek(lines) else {
        return Err(misfit(all, lines));
    };
    let Some(value) = number_in(field, head) else {
        return Err(misfit(all, lines));
    };
    lines.pop();
    Ok(Numbered { line, value })
}

#[tactic(auto, unfolding(crate::specs::Layout::budget_in))]
fn budget_in(lines: &mut Stack<Line>) -> Option<Numbered>
    ensures { budget_in lines.old ≡ (result, lines.new) }
{
    let (line, head) = peek(lines)?;
    let value = number_in(Field::Budget, head)?;
    lines.pop();
    Some(Numbered { line, value })
}

fn init_in(line: u32, head: Head) -> Option<Init>
    ensures { result ≡ init_in line head }
{
    match head {
        Head::Init(address, value) => Some(Init {
            line,
            address,
            value,
        }),
        _ => None,
    }
}

// The next line's, where it is one.
fn next_init(lines: &mut Stack<Line>) -> Option<Init>
    ensures { next_init lines.old ≡ (result, lines.new) }
{
    let (line, head) = peek(lines)?;
    let init = init_in(line, head)?;
    lines.pop();
    Some(init)
}

fn inits_in(alloc: Global, lines: &mut Stack<Line>) -> Result<Listed<Init>, Memory>
    ensures { IfOk result (λ inits. inits_in lines.old ≡ (inits, lines.new)) }
{
    let mut inits = Vec::new(alloc);
    while let Some(init) = next_init(lines) {
        inits.push(init)?;
    }
    Ok(Listed::of(inits))
}

// The lines up to the first that is `end` alone, which is taken too.
fn body_in(alloc: Global, all: u32, lines: &mut Stack<Line>) -> Result<Body, InputError>
    requires { all + 1 < 2 ^ 32 }
    ensures { Steps result lines.new (body_in all lines.old) }
{
    let mut body = Vec::new(alloc);
    while let Some(line) = lines.pop() {
        if is_end(head_of(line.tokens.items())) {
            return Ok(Body {
                lines: Listed::of(body),
                end: line.number,
            });
        }
        body.push(line)?;
    }
    Err(misfit(all, lines))
}

fn is_end(head: Head) -> bool
    ensures { result ≡ is_end head }
{
    head == Head::End
}

// The node whose program begins at the next line.
fn next_node(lines: &Stack<Line>) -> Option<u64>
    ensures { result ≡ next_node lines.now }
{
    match peek(lines)? {
        (_, Head::Program(node)) => Some(node),
        _ => None,
    }
}

fn section_in(
    alloc: Global,
    all: u32,
    node: u64,
    lines: &mut Stack<Line>,
) -> Result<Section, InputError>
    requires { all + 1 < 2 ^ 32 }
    ensures { Steps result lines.new (section_in node all lines.old) }
{
    let line = match lines.pop() {
        Some(line) => line.number,
        None => 0,
    };
    let body = body_in(alloc, all, lines)?;
    Ok(Section { line, node, body })
}

fn sections_in(
    alloc: Global,
    all: u32,
    lines: &mut Stack<Line>,
) -> Result<Listed<Section>, InputError>
    requires { all + 1 < 2 ^ 32 }
    ensures { Steps result lines.new (sections_in all lines.old) }
{
    let mut sections = Vec::new(alloc);
    let most = lines.len();
    for _ in 0..most {
        let Some(node) = next_node(lines) else {
            return Ok(Listed::of(sections));
        };
        sections.push(section_in(alloc, all, node, lines)?)?;
    }
    Ok(Listed::of(sections))
}

#[tactic(auto, unfolding(crate::specs::Layout::choice_in))]
fn choice_in(
    alloc: Global,
    version: u64,
    all: u32,
    lines: &mut Stack<Line>,
) -> Result<Choice, InputError>
    requires { all + 1 < 2 ^ 32 }
    ensures { Steps result lines.new (choice_in version all lines.old) }
{
    let Some((line, head)) = peek(lines) else {
        return Ok(Choice::Default);
    };
    match head {
        Head::Protocol => {
            lines.pop();
            let body = body_in(alloc, all, lines)?;
            Ok(Choice::Own(line, body))
        }
        Head::Shipped(which) if version == 2 => {
            lines.pop();
            Ok(Choice::Shipped(line, which))
        }
        _ => Ok(Choice::Default),
    }
}

fn is_report(head: Head) -> bool
    ensures { result ≡ is_report head }
{
    head == Head::Report
}

// Whether a layout ends here.
fn ends_so(ending: Ending, lines: &Stack<Line>) -> bool
    ensures { result ≡ ends_so ending lines.now }
{
    match (ending, peek(lines)) {
        (Ending::Text, None) => true,
        (Ending::Text, Some(_)) => false,
        (Ending::Report, None) => false,
        (Ending::Report, Some((_, head))) => is_report(head),
    }
}

// The lines of the report behind a layout that ends here.
#[tactic(auto, unfolding(crate::specs::Layout::ending_in))]
fn ending_in(ending: Ending, all: u32, mut lines: Stack<Line>) -> Result<Body, InputError>
    requires { all + 1 < 2 ^ 32 }
    ensures { Gives is_memory (λ b. b) result (ending_in ending all lines) }
{
    if !ends_so(ending, &lines) {
        return Err(misfit(all, &lines));
    }
    lines.pop();
    Ok(Body {
        lines: lines.into_listed(),
        end: all + 1,
    })
}

/// What the lines of a text are, `all` of which there are, and those of the report behind them, of which a missing one would
/// be at `all + 1`; or the first that does not fit.
#[tactic(auto, unfolding(crate::specs::Layout::laid_out))]
pub fn laid_out(
    alloc: Global,
    ending: Ending,
    all: u32,
    lines: Listed<Line>,
) -> Result<(Layout, Body), InputError>
    requires { all + 1 < 2 ^ 32 }
    ensures { Gives is_memory (λ l. l) result (laid_out ending all lines) }
{
    let mut lines = Stack::of(lines.into_vec());
    let version = field_in(Field::Version, all, &mut lines)?;
    let nodes = field_in(Field::Nodes, all, &mut lines)?;
    let words = field_in(Field::Words, all, &mut lines)?;
    let blocks = field_in(Field::Blocks, all, &mut lines)?;
    let budget = budget_in(&mut lines);
    let inits = inits_in(alloc, &mut lines)?;
    let programs = sections_in(alloc, all, &mut lines)?;
    let protocol = choice_in(alloc, version.value, all, &mut lines)?;
    let report = ending_in(ending, all, lines)?;
    let layout = Layout {
        version,
        nodes,
        words,
        blocks,
        budget,
        inits,
        programs,
        protocol,
    };
    Ok((layout, report))
}
