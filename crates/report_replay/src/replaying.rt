ghost use Rattle.std.specs.Prelude.{◌≡◌, [], ◌∷◌, take, true, IfOk, Some};
ghost use Rattle.dsm_model.specs.Globals.{setup_of, world_of};
ghost use Rattle.dsm_runs.specs.Tests.{is_enabled};
ghost use Rattle.dsm_runs.specs.Worlds.{IsEnabled};
ghost use Rattle.report_reader.specs.Reading.{is_memory};
ghost use Rattle.printed_lines.specs.Reading.{event_in};
ghost use Rattle.report_replay.specs.Replaying.{Answers, Leads, Replays};

use dsm_model::{Global, Setup, enabled, step};
use printed_lines::{event_in, is_entry};
use printed_text::Names;
use report_reader::{AuditError, AuditRule, Printed, PrintedLine};
use std::alloc;
use tw_base::Event;

fn denied(line: &PrintedLine, rule: AuditRule) -> AuditError
    ensures { result ≡ AuditError.Denied line.now.line rule }
{
    AuditError::Denied {
        line: line.line,
        rule,
    }
}

// Makes the event of a line, which is enabled.
fn make_event(
    alloc: alloc::Global,
    names: &Names,
    g: &mut Global,
    number: usize,
    line: &PrintedLine,
    event: &Event,
) -> Result<(), AuditError>
    requires names { names.now.protocol.now ≡ (setup_of g.old).protocol }
    requires event { event_in line.now.tokens ≡ Some event.now }
    requires test { is_enabled (setup_of g.old) (world_of g.old) event.now ≡ true }
    requires enabled { IsEnabled (setup_of g.old) (world_of g.old) event.now }
    ensures setup { setup_of g.new ≡ setup_of g.old }
    ensures value { Answers is_memory (λ _. world_of g.new) result
        (Leads (setup_of g.old) (world_of g.old) number (line.now ∷ [])) }
{
    let entry = step(alloc, g, *event)?;
    let _parts = (entry.act, entry.after);
    if is_entry(names, number, &entry, line.tokens.items()) {
        Ok(())
    } else {
        Err(denied(line, AuditRule::OtherEntry))
    }
}

// Makes the event that a line names.
fn make_named(
    alloc: alloc::Global,
    names: &Names,
    g: &mut Global,
    number: usize,
    line: &PrintedLine,
    event: &Event,
) -> Result<(), AuditError>
    requires names { names.now.protocol.now ≡ (setup_of g.old).protocol }
    requires event { event_in line.now.tokens ≡ Some event.now }
    ensures setup { setup_of g.new ≡ setup_of g.old }
    ensures value { Answers is_memory (λ _. world_of g.new) result
        (Leads (setup_of g.old) (world_of g.old) number (line.now ∷ [])) }
{
    if enabled(g, *event) {
        make_event(alloc, names, g, number, line, event)
    } else {
        Err(denied(line, AuditRule::NotEnabled))
    }
}

// Makes the event of a line, whose place among the events is this.
fn make_line(
    alloc: alloc::Global,
    names: &Names,
    g: &mut Global,
    number: usize,
    line: &PrintedLine,
) -> Result<(), AuditError>
    requires { names.now.protocol.now ≡ (setup_of g.old).protocol }
    ensures setup { setup_of g.new ≡ setup_of g.old }
    ensures value { Answers is_memory (λ _. world_of g.new) result
        (Leads (setup_of g.old) (world_of g.old) number (line.now ∷ [])) }
{
    match event_in(line.tokens.items()) {
        Some(event) => make_named(alloc, names, g, number, line, &event),
        None => Err(denied(line, AuditRule::NotEnabled)),
    }
}

// Makes the events of lines, in their order.
fn make_lines(
    alloc: alloc::Global,
    names: &Names,
    g: &mut Global,
    lines: &[PrintedLine],
) -> Result<(), AuditError>
    requires { names.now.protocol.now ≡ (setup_of g.old).protocol }
    ensures setup { setup_of g.new ≡ setup_of g.old }
    ensures value { Answers is_memory (λ _. world_of g.new) result (Leads (setup_of g.old) (world_of g.old) 0 lines.now) }
{
    for (number, line) in lines.iter().enumerate() {
        make_line(alloc, names, g, number, line)?;
    }
    Ok(())
}

// The first lines, so many or all.
fn first(lines: &[PrintedLine], count: usize) -> &[PrintedLine]
    ensures { result.now ≡ take count lines.now }
{
    if count <= lines.len() {
        lines.split_at(count).0
    } else {
        lines
    }
}

/// The state behind the first events of a report, so many, made from the start. Denied at the first line whose event is not
/// enabled there or gives another entry than the line says, and else at the history where there are fewer events.
pub fn replay<'a>(
    alloc: alloc::Global,
    setup: &'a Setup,
    report: &Printed,
    k: u32,
) -> Result<Global<'a>, AuditError>
    ensures setup { IfOk result (λ g. setup_of g ≡ setup.now) }
    ensures value { Answers is_memory world_of result (Replays setup.now report.now k) }
{
    let names = Names::new(alloc, setup.protocol().protocol())?;
    let mut g = Global::new(alloc, setup)?;
    let events = report.events.items();
    make_lines(alloc, &names, &mut g, first(events, k as usize))?;
    if events.len() < k as usize {
        return Err(denied(&report.history, AuditRule::TooFew));
    }
    Ok(g)
}
