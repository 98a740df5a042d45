ghost use Rattle.std.specs.Prelude.{◌≡◌, ◌*◌, ◌<◌, ◌≤◌, ◌^◌, length, true, slice_get, slice_index, IfOk, Some};
ghost use Rattle.std.specs.Option.{option_map};
ghost use Rattle.mini_asm.specs.Run.{IsInit, first_words};

use crate::processor::run_one;
use crate::{Core, Cpu, FlatMode, Program};
use std::alloc::Global;
use std::marker::Model;
use tw_base::{Act, Memory, NodeId, Shape};

/// Processors over one list of words. There are no blocks, no tags and no messages.
#[derive(Debug, Drop)]
pub struct Flat {
    programs: Vec<Program>,
    cores: Vec<Core>,
    words: Vec<u64>,
}

impl Model for Flat {
    ghost use Rattle.std.specs.Prelude.{◌≡◌, ◌≤◌, ◌^◌, length};
    ghost use Rattle.mini_asm.specs.Run.{Machine};

    ghost Value = { Machine };

    ghost view = { λ f. record { programs = f.programs.items; cores = f.cores.items; words = f.words.items } };

    ghost invariant = { λ f. (length f.cores.items ≡ length f.programs.items) × (length f.words.items ≤ 2 ^ 32) };
}

impl Flat {
    ghost use Rattle.mini_asm.specs.Run.{Machine, start_of, is_running, step_of, word_of};

    /// The machine before its first step: a program for each node, and 0 in each word that `init` does not give. It
    /// copies the programs.
    pub fn new(
        alloc: Global,
        shape: Shape,
        init: &[(u32, u64)],
        programs: &[Program],
    ) -> Result<Self, Memory>
        requires programs { length programs.now ≡ shape.nodes }
        requires init { IsInit (shape.words * shape.blocks) init.now }
        ensures { IfOk result (λ flat. flat ≡ start_of shape init.now programs.now) }
    {
        let core = Core {
            cpu: Cpu::new(),
            mode: FlatMode::Running,
        };
        let programs = copies(alloc, programs)?;
        let cores = vec![in alloc; core; shape.nodes() as usize]?;
        let words = first_words(alloc, shape.size(), init)?;
        Ok(Flat {
            programs,
            cores,
            words,
        })
    }

    /// Whether a node has neither halted nor trapped.
    pub fn running(&self, node: NodeId) -> bool
        ensures { result ≡ is_running self.now node }
    {
        match self.cores.get(usize::from(node.get())) {
            Some(core) => core.mode == FlatMode::Running,
            None => false,
        }
    }

    /// Executes one instruction of a node.
    pub fn step(&mut self, node: NodeId) -> Act
        requires { is_running self.old node ≡ true }
        ensures { step_of self.old node ≡ Some (result, self.new) }
    {
        let i = usize::from(node.get());
        let mut core = self.cores[i];
        let act = run_one(&self.programs[i], &mut core, &mut self.words);
        self.cores[i] = core;
        act
    }

    /// The processor of a node.
    pub fn cpu(&self, node: NodeId) -> &Cpu
        requires { node < length self.now.cores }
        ensures { option_map (λ core. core.cpu) (slice_get self.now.cores node) ≡ Some result.now }
    {
        &self.cores[usize::from(node.get())].cpu
    }

    /// Whether a node goes on, or how it ended.
    pub fn mode(&self, node: NodeId) -> FlatMode
        requires { node < length self.now.cores }
        ensures { option_map (λ core. core.mode) (slice_get self.now.cores node) ≡ Some result }
    {
        self.cores[usize::from(node.get())].mode
    }

    /// The word at an address.
    pub fn word(&self, address: u32) -> u64
        requires { address < length self.now.words }
        ensures { result ≡ word_of self.now address }
    {
        self.words[address as usize]
    }

    /// The memory.
    pub fn words(&self) -> &[u64]
        ensures { result.now ≡ self.now.words }
    {
        &self.words
    }
}

fn copies(alloc: Global, programs: &[Program]) -> Result<Vec<Program>, Memory>
    ensures { IfOk result (λ copies. copies.items ≡ programs.now) }
{
    let mut copies = Vec::new(alloc);
    for program in programs {
        copies.push(program.copied(alloc)?)?;
    }
    Ok(copies)
}

/// The words of memory at the start.
fn first_words(alloc: Global, size: u32, init: &[(u32, u64)]) -> Result<Vec<u64>, Memory>
    requires { IsInit size init.now }
    ensures value { IfOk result (λ words. words.items ≡ first_words size init.now) }
    ensures count { IfOk result (λ words. length words.items ≡ size) }
{
    let mut words = vec![in alloc; 0; size as usize]?;
    for (address, value) in init {
        words[*address as usize] = *value;
    }
    Ok(words)
}
