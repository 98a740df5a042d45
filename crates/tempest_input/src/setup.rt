ghost use Rattle.std.specs.Prelude.{◌≡◌, ◌+◌, ◌^◌, ◌<◌, ◌≤◌, [], ◌∷◌, ◌==◌, length, position, IfOk};
ghost use Rattle.tw_base.specs.Answers.{Gives};
ghost use Rattle.tw_lex.specs.Lines.{lexed};
ghost use Rattle.mini_asm.specs.Assembled.{program_of};
ghost use Rattle.tempest_input.specs.Layout.{is_memory};
ghost use Rattle.tempest_input.specs.Settings.{in_line, in_program, layout_of, parsed, program_at, program_for, each_below};
ghost use Rattle.tempest_input.specs.Settings.{settings_and_report, settings_in, settings_of};

use crate::error::{InputError, Why};
use crate::layout::{Body, Choice, Ending, Layout, Section, laid_out};
use crate::numbers::{nodes_of, shape_of, words_of};
use mini_asm::{Instr, Program, ProgramError, parse_program};
use std::alloc::Global;
use std::marker::Model;
use tw_base::{Listed, Memory, Shape};
use tw_lex::{LexError, Lexed, lines};

/// What a text sets up, its protocol as the text chooses it.
#[derive(Debug, Drop)]
pub struct Settings {
    version: u8,
    shape: Shape,
    init: Listed<(u32, u64)>,
    programs: Listed<Program>,
    protocol: Choice,
}

impl Model for Settings {
    ghost use Rattle.tempest_input.specs.Settings.{Settings as Fixed, AreSettings};

    ghost Value = { Fixed };

    ghost view = { λ s. record { version = s.version; shape = s.shape; init = s.init; programs = s.programs; protocol = s.protocol } };

    ghost invariant = { λ s. AreSettings (record {
      version = s.version;
      shape = s.shape;
      init = s.init;
      programs = s.programs;
      protocol = s.protocol;
    }) };
}

impl Settings {
    ghost use Rattle.tempest_input.specs.Settings.{AreSettings};

    /// The version of the language, 1 or 2.
    pub fn version(&self) -> u8
        ensures { result ≡ self.now.version }
    {
        self.version
    }

    pub fn shape(&self) -> Shape
        ensures value { result ≡ self.now.shape }
        ensures valid { AreSettings self.now }
    {
        self.shape
    }

    /// The words that are given at the start, by address. The others are 0.
    pub fn init(&self) -> &[(u32, u64)]
        ensures value { result.now ≡ self.now.init }
        ensures valid { AreSettings self.now }
    {
        self.init.items()
    }

    /// A program for each node.
    pub fn programs(&self) -> &[Program]
        ensures value { result.now ≡ self.now.programs }
        ensures valid { AreSettings self.now }
    {
        self.programs.items()
    }

    pub fn protocol(&self) -> &Choice
        ensures { result.now ≡ self.now.protocol }
    {
        &self.protocol
    }

    /// The shape, the words that are given at the start, a program for each node, and the protocol as the text chooses it.
    pub fn into_parts(self) -> (Shape, Listed<(u32, u64)>, Listed<Program>, Choice)
        ensures shape { result.0 ≡ self.shape }
        ensures init { result.1 ≡ self.init }
        ensures programs { result.2 ≡ self.programs }
        ensures protocol { result.3 ≡ self.protocol }
        ensures valid { AreSettings self }
    {
        let Settings {
            version: _,
            shape,
            init,
            programs,
            protocol,
        } = self;
        (shape, init, programs, protocol)
    }
}

fn refused(line: u32, why: Why) -> InputError
    ensures { result ≡ InputError.Refused line why }
{
    InputError::Refused { line, why }
}

/// The lines of a text that have tokens, and the number of all.
pub fn lexed(alloc: Global, text: &[u8]) -> Result<Lexed, InputError>
    requires { length text.now + 1 < 2 ^ 32 }
    ensures value { Gives is_memory (λ found. found) result (in_line (lexed text.now)) }
    ensures count { IfOk result (λ found. found.all ≤ length text.now + 1) }
{
    match lines(alloc, text) {
        Ok(found) => Ok(found),
        Err(LexError::NotAscii { line }) => Err(refused(line, Why::NotAscii)),
        Err(LexError::BadToken { line }) => Err(refused(line, Why::BadToken)),
        Err(LexError::Memory) => Err(InputError::Memory),
    }
}

/// The lines of a text, laid out, and the lines of its report.
#[tactic(auto, unfolding(crate::specs::Settings::layout_of))]
pub fn layout_of(alloc: Global, ending: Ending, text: &[u8]) -> Result<(Layout, Body), InputError>
    requires { length text.now + 2 < 2 ^ 32 }
    ensures { Gives is_memory (λ l. l) result (layout_of ending text.now) }
{
    let found = lexed(alloc, text)?;
    laid_out(alloc, ending, found.all, found.list)
}

fn program_in(alloc: Global, version: u8, section: &Section) -> Result<Program, InputError>
    ensures { Gives is_memory (λ p. p) result (in_program (program_of version section.now.body.lines)) }
{
    match parse_program(alloc, section.body.lines.items(), version) {
        Ok(program) => Ok(program),
        Err(ProgramError::BadLine { line }) => Err(refused(line, Why::BadLine)),
        Err(ProgramError::TooLong { line }) => Err(refused(line, Why::TooLong)),
        Err(ProgramError::LabelTwice { line }) => Err(refused(line, Why::LabelTwice)),
        Err(ProgramError::NoLabel { line }) => Err(refused(line, Why::NoLabel)),
        Err(ProgramError::Memory) => Err(InputError::Memory),
    }
}

fn parsed(alloc: Global, version: u8, sections: &[Section]) -> Result<Vec<Program>, InputError>
    ensures { Gives is_memory (λ v. v.items) result (parsed version sections.now) }
{
    let mut done = Vec::new(alloc);
    for section in sections {
        done.push(program_in(alloc, version, section)?)?;
    }
    Ok(done)
}

fn halting(alloc: Global) -> Result<Program, Memory>
    ensures { IfOk result (λ p. p ≡ Instr.Halt ∷ []) }
{
    let instrs = Listed::from_slice(alloc, &[Instr::Halt])?;
    Ok(Program::of(instrs))
}

fn place_of(nodes: &[u8], node: u8) -> Option<usize>
    ensures { result ≡ position (λ n. n == node) nodes.now }
{
    nodes.iter().position(|n| *n == node)
}

fn program_at(alloc: Global, programs: &[Program], place: Option<usize>) -> Result<Program, Memory>
    ensures { IfOk result (λ p. p ≡ program_at programs.now place) }
{
    let Some(k) = place else {
        return halting(alloc);
    };
    match programs.get(k) {
        Some(program) => program.copied(alloc),
        None => halting(alloc),
    }
}

fn program_for(
    alloc: Global,
    nodes: &[u8],
    programs: &[Program],
    node: u8,
) -> Result<Program, Memory>
    ensures { IfOk result (λ p. p ≡ program_for nodes.now programs.now node) }
{
    program_at(alloc, programs, place_of(nodes, node))
}

// The program of each node.
fn programs_by_node(
    alloc: Global,
    count: u8,
    nodes: &[u8],
    programs: &[Program],
) -> Result<Vec<Program>, Memory>
    ensures { IfOk result (λ v. v.items ≡ each_below (program_for nodes.now programs.now) count) }
{
    let mut by_node = Vec::new(alloc);
    for node in 0..count {
        by_node.push(program_for(alloc, nodes, programs, node)?)?;
    }
    Ok(by_node)
}

/// What a layout sets up, or its first fault.
#[tactic(auto, unfolding(crate::specs::Settings::settings_of))]
pub fn settings_of(alloc: Global, layout: Layout) -> Result<Settings, InputError>
    ensures { Gives is_memory (λ s. s) result (settings_of layout) }
{
    let shape = shape_of(&layout)?;
    let init = words_of(alloc, shape.size(), layout.inits.items())?;
    let nodes = nodes_of(alloc, shape.nodes(), layout.programs.items())?;
    let version = layout.version.value as u8;
    let programs = parsed(alloc, version, layout.programs.items())?;
    let programs = programs_by_node(alloc, shape.nodes(), &nodes, &programs)?;
    Ok(Settings {
        version,
        shape,
        init: Listed::of(init),
        programs: Listed::of(programs),
        protocol: layout.protocol,
    })
}

/// The settings in a text and the lines of its report, or its first fault. A text without a report has no such line.
pub fn settings_and_report(
    alloc: Global,
    ending: Ending,
    text: &[u8],
) -> Result<(Settings, Body), InputError>
    requires { length text.now + 2 < 2 ^ 32 }
    ensures { Gives is_memory (λ s. s) result (settings_and_report ending text.now) }
{
    let (layout, report) = layout_of(alloc, ending, text)?;
    let settings = settings_of(alloc, layout)?;
    Ok((settings, report))
}

/// The settings in a text without a report, or its first fault.
pub fn settings_in(alloc: Global, text: &[u8]) -> Result<Settings, InputError>
    requires { length text.now + 2 < 2 ^ 32 }
    ensures { Gives is_memory (λ s. s) result (settings_in text.now) }
{
    let (settings, _) = settings_and_report(alloc, Ending::Text, text)?;
    Ok(settings)
}
