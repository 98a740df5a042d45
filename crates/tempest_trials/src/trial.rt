ghost use Rattle.std.specs.Prelude.{◌≡◌, IfOk};
ghost use Rattle.tempest_trials.specs.Trials.{AuditTells, IsAudit, IsReplay, ReplayTells, denial};

use dsm_runs::Setup;
use journal_tools::{
    AuditError, AuditRule, Printed, audit, audit_text, denied_text, read_report, replay,
    replay_text,
};
use std::alloc::Global;
use tw_base::{Listed, Memory};
use tw_lex::Line;

/// What is written of a report.
#[derive(Debug, Drop)]
pub enum Trial {
    /// It is not denied.
    Stands(Listed<u8>),
    /// A line of it is denied.
    Denied(Listed<u8>),
}

fn denial(alloc: Global, line: u32, rule: AuditRule) -> Result<Trial, Memory>
    ensures { IfOk result (λ t. t ≡ denial line rule) }
{
    Ok(Trial::Denied(Listed::of(denied_text(alloc, line, rule)?)))
}

fn audit_told(alloc: Global, setup: &Setup, report: &Printed) -> Result<Trial, Memory>
    ensures { IfOk result (λ t. AuditTells setup.now report.now t) }
{
    match audit(alloc, setup, report) {
        Ok(audited) => Ok(Trial::Stands(Listed::of(audit_text(alloc, audited)?))),
        Err(AuditError::Denied { line, rule }) => denial(alloc, line, rule),
        Err(AuditError::Memory) => Err(Memory),
    }
}

/// A report on a run of a setup beside one flat memory. A line that is missing is denied at `after`.
pub fn audited(alloc: Global, setup: &Setup, lines: &[Line], after: u32) -> Result<Trial, Memory>
    ensures { IfOk result (λ t. IsAudit setup.now after lines.now t) }
{
    match read_report(alloc, setup, lines, after) {
        Ok(report) => audit_told(alloc, setup, &report),
        Err(AuditError::Denied { line, rule }) => denial(alloc, line, rule),
        Err(AuditError::Memory) => Err(Memory),
    }
}

fn replay_told(alloc: Global, setup: &Setup, report: &Printed, count: u32) -> Result<Trial, Memory>
    ensures { IfOk result (λ t. ReplayTells count setup.now report.now t) }
{
    match replay(alloc, setup, report, count) {
        Ok(g) => {
            let text = replay_text(alloc, &g, count, report.events.len())?;
            Ok(Trial::Stands(Listed::of(text)))
        }
        Err(AuditError::Denied { line, rule }) => denial(alloc, line, rule),
        Err(AuditError::Memory) => Err(Memory),
    }
}

/// The first `count` events of a report on a run of a setup, made anew. A line that is missing is denied at `after`.
pub fn replayed(
    alloc: Global,
    setup: &Setup,
    lines: &[Line],
    after: u32,
    count: u32,
) -> Result<Trial, Memory>
    ensures { IfOk result (λ t. IsReplay count setup.now after lines.now t) }
{
    match read_report(alloc, setup, lines, after) {
        Ok(report) => replay_told(alloc, setup, &report, count),
        Err(AuditError::Denied { line, rule }) => denial(alloc, line, rule),
        Err(AuditError::Memory) => Err(Memory),
    }
}
