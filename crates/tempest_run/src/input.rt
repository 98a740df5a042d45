ghost use Rattle.std.specs.Prelude.{◌≡◌, ◌+◌, ◌^◌, ◌<◌, length};
ghost use Rattle.tempest_input.specs.declared.layout.Ending.TheVariants.{Text};
ghost use Rattle.tw_base.specs.Answers.{Gives};
ghost use Rattle.teapot_tree.specs.Grammar.{IsTree};
ghost use Rattle.teapot_parse.specs.Given.{AreTextLines};
ghost use Rattle.tempest_input.specs.Layout.{is_memory};
ghost use Rattle.tempest_run.specs.Inputs.{IsOfText, accepted, broken_rule, input_of, protocol_of, section_protocol};
ghost use Rattle.tempest_run.specs.Inputs.{setup_in, shipped_protocol};

use dsm_runs::Setup;
use stache_d_protocol::stache_d;
use stache_l_protocol::stache_l;
use stache_protocol::stache;
use std::alloc::Global;
use teapot_check::{CheckError, check};
use teapot_parse::{ParseError, parse, read_trees_are_given, texts_have_text_lines};
use teapot_tree::{Checked, Protocol, Rule};
use tempest_input::{
    Body, Choice, Ending, InputError, Shipped, Why, layout_is_read_both_ways, settings_and_report,
};

fn refused(line: u32, why: Why) -> InputError
    ensures { result ≡ InputError.Refused line why }
{
    InputError::Refused { line, why }
}

fn broken_rule(rule: Rule) -> Why
    ensures { result ≡ broken_rule rule }
{
    match rule {
        Rule::Undeclared => Why::Undeclared,
        Rule::Twice => Why::Twice,
        Rule::WrongType => Why::WrongType,
        Rule::ArgCount => Why::ArgCount,
        Rule::NoDefault => Why::NoDefault,
        Rule::ContDropped => Why::ContDropped,
        Rule::ResumeNotLast => Why::ResumeNotLast,
        Rule::ResumeForeign => Why::ResumeForeign,
        Rule::AfterSuspend => Why::AfterSuspend,
        Rule::NoData => Why::NoData,
        Rule::TooManySends => Why::TooManySends,
        Rule::NotTwoStarts => Why::NotTwoStarts,
    }
}

#[tactic(auto, using(crate::proofs::Accepting::nothing_broken, crate::proofs::Accepting::first_broken), unfolding(crate::specs::Inputs::accepted))]
fn accepted(alloc: Global, protocol: Protocol) -> Result<Checked, InputError>
    requires { IsTree protocol }
    ensures { Gives is_memory (λ p. p) result (accepted protocol) }
{
    match check(alloc, protocol) {
        Ok(checked) => Ok(checked),
        Err(CheckError::Broken { line, rule }) => Err(refused(line, broken_rule(rule))),
        Err(CheckError::Memory) => Err(InputError::Memory),
    }
}

#[tactic(auto, unfolding(crate::specs::Inputs::section_protocol))]
fn section_protocol(alloc: Global, body: Body) -> Result<Checked, InputError>
    requires { AreTextLines body.lines }
    ensures { Gives is_memory (λ p. p) result (section_protocol body) }
{
    read_trees_are_given();
    match parse(alloc, body.lines, body.end) {
        Ok(protocol) => accepted(alloc, protocol),
        Err(ParseError::BadLine { line }) => Err(refused(line, Why::BadLine)),
        Err(ParseError::BadNest { line }) => Err(refused(line, Why::BadNest)),
        Err(ParseError::TooMany { what: _, line }) => Err(refused(line, Why::TooMany)),
        Err(ParseError::Memory) => Err(InputError::Memory),
    }
}

fn shipped_protocol(alloc: Global, which: Shipped) -> Result<Checked, InputError>
    ensures { Gives is_memory (λ p. p) result (shipped_protocol which) }
{
    match which {
        Shipped::Stache => Ok(stache(alloc)?),
        Shipped::StacheD => Ok(stache_d(alloc)?),
        Shipped::StacheL => Ok(stache_l(alloc)?),
    }
}

// The protocol of the text's section, or the one that it names, else Stache.
#[tactic(auto, unfolding(crate::specs::Inputs::protocol_of))]
fn protocol_of(alloc: Global, choice: Choice) -> Result<Checked, InputError>
    requires { IsOfText choice }
    ensures { Gives is_memory (λ p. p) result (protocol_of choice) }
{
    match choice {
        Choice::Own(_, body) => section_protocol(alloc, body),
        Choice::Default => shipped_protocol(alloc, Shipped::Stache),
        Choice::Shipped(_, which) => shipped_protocol(alloc, which),
    }
}

/// What a text sets up and the lines of its report, or its first fault.
#[tactic(auto, unfolding(crate::specs::Inputs::input_of))]
pub fn read_with_report(
    alloc: Global,
    ending: Ending,
    text: &[u8],
) -> Result<(Setup, Body), InputError>
    requires { length text.now + 2 < 2 ^ 32 }
    ensures { Gives is_memory (λ input. input) result (input_of ending text.now) }
{
    texts_have_text_lines();
    layout_is_read_both_ways();
    let (settings, report) = settings_and_report(alloc, ending, text)?;
    let version = settings.version();
    let (shape, init, programs, choice) = settings.into_parts();
    let protocol = protocol_of(alloc, choice)?;
    Ok((Setup::new(version, shape, init, programs, protocol), report))
}

/// What a text without a report sets up, or its first fault. The text has at most 1,048,576 bytes.
pub fn read_input(alloc: Global, text: &[u8]) -> Result<Setup, InputError>
    requires { length text.now + 2 < 2 ^ 32 }
    ensures { Gives is_memory (λ setup. setup) result (setup_in (input_of Text text.now)) }
{
    let (setup, _) = read_with_report(alloc, Ending::Text, text)?;
    Ok(setup)
}
