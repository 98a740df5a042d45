ghost use Rattle.std.specs.Prelude.{◌≡◌, IfOk};
ghost use Rattle.report_audit.specs.Texts.{audit_text, denied_text, rule_text};

use crate::Audited;
use printed_text::Text;
use report_reader::AuditRule;
use std::alloc::Global;
use tw_base::Memory;

fn rule_text(rule: AuditRule) -> &'static str
    ensures { result.now ≡ rule_text rule }
{
    match rule {
        AuditRule::BadLine => "BadLine",
        AuditRule::BadNumber => "BadNumber",
        AuditRule::WrongAct => "WrongAct",
        AuditRule::WrongPrint => "WrongPrint",
        AuditRule::WrongWord => "WrongWord",
        AuditRule::WrongRegister => "WrongRegister",
        AuditRule::WrongNode => "WrongNode",
        AuditRule::WrongHistory => "WrongHistory",
        AuditRule::NotEnabled => "NotEnabled",
        AuditRule::OtherEntry => "OtherEntry",
        AuditRule::TooFew => "TooFew",
    }
}

/// What is written of a report that is explained.
pub fn audit_text(alloc: Global, audited: Audited) -> Result<Vec<u8>, Memory>
    ensures { IfOk result (λ text. text.items ≡ audit_text audited) }
{
    let mut out = Text::new(alloc);
    let (events, completed) = (audited.events, audited.completed);
    writeln!(out, "audit yes events {events} completed {completed}")?;
    Ok(out.into_vec())
}

/// What is written of a report that is denied at a line.
pub fn denied_text(alloc: Global, line: u32, rule: AuditRule) -> Result<Vec<u8>, Memory>
    ensures { IfOk result (λ text. text.items ≡ denied_text line rule) }
{
    let mut out = Text::new(alloc);
    let rule = rule_text(rule);
    writeln!(out, "denied line {line} {rule}")?;
    Ok(out.into_vec())
}
