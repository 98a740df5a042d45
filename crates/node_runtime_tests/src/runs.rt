ghost use Rattle.std.specs.Prelude.{ℕ, ◌^◌, ◌<◌, length};
ghost use Rattle.compiled_meaning.specs.Whole.{IsCode};
ghost use Rattle.dsm_runs.specs.Laws.{IsLog};
ghost use Rattle.still_meaning.specs.Gathers.{log_of};

use crate::machines::{code, setup};
use dsm_runs::Setup;
use handler_code::Code;
use journal::{Options, first_break, merge, report};
use mini_asm::Flat;
use node_runtime::{Gate, run_threads};
use std::alloc::Global;
use std::sync::Wait;
use std::test::Fail;
use std::thread::Threads;
use still_nodes::Gathered;
use tw_base::{Entry, Listed};

/// What is known of a run: its journal, and its report.
#[derive(Drop)]
pub struct Run {
    pub journal: Listed<Entry>,
    pub report: Vec<u8>,
}

fn report_of(
    alloc: Global,
    setup: &Setup,
    gathered: &Gathered,
    journal: &[Entry],
) -> Result<Vec<u8>, Fail> {
    if journal.len() > 1 << 20 {
        return Err(Fail::new("too many entries"));
    }
    let mut flat = Flat::new(alloc, setup.shape(), setup.init(), setup.programs())?;
    let broken = first_break(&mut flat, journal);
    let options = Options {
        journal: false,
        counts: false,
    };
    let (finals, words) = (gathered.finals.items(), gathered.words.items());
    Ok(report(alloc, setup, journal, finals, words, broken, options)?)
}

/// What is known of a run, from what was gathered of its nodes.
pub fn told(alloc: Global, setup: &Setup, gathered: &Gathered) -> Result<Run, Fail>
    requires { (i : ℕ) → i < length gathered.now.logs → IsLog i (log_of gathered.now.logs i) }
{
    let journal = merge(alloc, &gathered.logs)?;
    let report = report_of(alloc, setup, gathered, journal.items())?;
    Ok(Run { journal, report })
}

fn run_setup<G: Gate + Sync, R: Threads + Wait + Sync>(
    rt: &R,
    alloc: Global,
    setup: &Setup,
    code: &Code,
    gate: &G,
    q: u32,
) -> Result<Run, Fail>
    requires code { IsCode setup.now.protocol code.now }
    requires short { length code.now.ops < 2 ^ 22 }
{
    let gathered = run_threads(rt, alloc, setup, code, gate, q, 1000)?;
    told(alloc, setup, &gathered)
}

/// Runs what a text sets up on threads, with turns of at most q events.
pub fn run_text<G: Gate + Sync, R: Threads + Wait + Sync>(
    rt: &R,
    alloc: Global,
    text: &str,
    gate: &G,
    q: u32,
) -> Result<Run, Fail> {
    let setup = setup(alloc, text)?;
    let code = code(alloc, &setup)?;
    run_setup(rt, alloc, &setup, &code, gate, q)
}

impl Run {
    /// Whether the report has a line.
    pub fn has_line(&self, line: &str) -> bool {
        self.report
            .split(|byte| *byte == b'\n')
            .any(|other| other == line.as_bytes())
    }
}
