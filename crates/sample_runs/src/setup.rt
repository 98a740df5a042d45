ghost use Rattle.std.specs.Prelude.{◌≡◌, ◌<◌, IfOk};
ghost use Rattle.stache_tree.specs.Tree.{IsStache};
ghost use Rattle.sample_runs.specs.Samples.{increment_of, rounds_of, sample_program, sample_setup, sample_shape};
ghost use Rattle.sample_runs.specs.Samples.{shipped_protocol};

use dsm_runs::Setup;
use mini_asm::{Instr, Program};
use stache_protocol::stache;
use std::alloc::Global;
use teapot_tree::Checked;
use tw_base::{Listed, Memory, Shape};

/// The places of the labels `outer` and `inner` of a sample's programs.
const OUTER: u32 = 5;

const INNER: u32 = 6;

/// How often each node of a sample goes over its words.
pub fn rounds_of(number: u32) -> u32
    ensures { result ≡ rounds_of number }
{
    20 + number % 13
}

/// What a node adds to each of its words.
fn increment_of(number: u32, node: u8) -> u64
    requires { node < 4 }
    ensures { result ≡ increment_of number node }
{
    let (number, node) = (u64::from(number), u64::from(node));
    1 + (number * (2 * node + 1) + node) % 97
}

/// The instructions of a node's program: it goes over every fourth word from its own number on, adds to each, begins again
/// until all rounds are made, and prints the first of the words.
fn instructions(number: u32, node: u8) -> [Instr; 16]
    requires { node < 4 }
    ensures { result ≡ sample_program number node }
{
    let first = u64::from(node);
    [
        Instr::Li(1, u64::from(rounds_of(number))),
        Instr::Li(2, increment_of(number, node)),
        Instr::Li(4, 64),
        Instr::Li(6, 4),
        Instr::Li(7, 1),
        // outer:
        Instr::Li(3, first),
        // inner:
        Instr::Ld(5, 3, 0),
        Instr::Add(5, 5, 2),
        Instr::St(5, 3, 0),
        Instr::Add(3, 3, 6),
        Instr::Blt(3, 4, INNER),
        Instr::Sub(1, 1, 7),
        Instr::Bne(1, 0, OUTER),
        Instr::Ld(8, 0, first),
        Instr::Print(8),
        Instr::Halt,
    ]
}

fn program(alloc: Global, number: u32, node: u8) -> Result<Program, Memory>
    requires { node < 4 }
    ensures { IfOk result (λ p. p ≡ sample_program number node) }
{
    let instrs = Listed::from_slice(alloc, &instructions(number, node))?;
    Ok(Program::of(instrs))
}

/// The programs, by node.
fn programs(alloc: Global, number: u32) -> Result<Listed<Program>, Memory>
    ensures { IfOk result (λ ps. ps ≡ (sample_setup number).programs) }
{
    let mut programs = Listed::new(alloc);
    programs.push(program(alloc, number, 0)?)?;
    programs.push(program(alloc, number, 1)?)?;
    programs.push(program(alloc, number, 2)?)?;
    programs.push(program(alloc, number, 3)?)?;
    Ok(programs)
}

fn shape() -> Shape
    ensures { result ≡ sample_shape }
{
    Shape::new(4, 4, 16, 4_000).unwrap()
}

/// The shipped protocol.
fn shipped_protocol(alloc: Global) -> Result<Checked, Memory>
    ensures value { IfOk result (λ p. p ≡ shipped_protocol) }
    ensures stache { IfOk result IsStache }
{
    stache(alloc)
}

/// The machine of a sample: four nodes, four words in a block and 16 blocks, under the shipped protocol.
pub fn sample_setup(alloc: Global, number: u32) -> Result<Setup, Memory>
    ensures value { IfOk result (λ s. s ≡ sample_setup number) }
    ensures stache { IfOk result (λ s. IsStache s.protocol) }
{
    let programs = programs(alloc, number)?;
    let protocol = shipped_protocol(alloc)?;
    Ok(Setup::new(1, shape(), Listed::new(alloc), programs, protocol))
}
