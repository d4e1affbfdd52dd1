//! The text of a verdict.
ghost use Rattle.std.specs.Prelude.{◌≡◌, ◌++◌, IfOk, OnOk, string_bytes};
ghost use Rattle.run_audit.specs.AuditText.{cause_text, verdict_line};

use crate::verdict::{AuditCause, AuditVerdict};
use bwe_specs::OutOfMemory;
use std::alloc::{AllocError, Global};

/// The row that says the verdict ("Audit text", docs/FORMAT.md).
pub fn audit_text(alloc: Global, verdict: AuditVerdict) -> Result<Vec<u8>, OutOfMemory>
    ensures { IfOk result (λ text. text.items ≡ verdict_line verdict) }
{
    let mut text = String::new(alloc);
    push_verdict(&mut text, verdict)?;
    Ok(text.into_bytes())
}

#[tactic(auto, unfolding(crate::specs::AuditText::verdict_line))]
fn push_verdict(text: &mut String, verdict: AuditVerdict) -> Result<(), AllocError>
    ensures { OnOk result (string_bytes text.new ≡ string_bytes text.old ++ verdict_line verdict) }
{
    match verdict {
        AuditVerdict::Legal => text.push_str("legal\n"),
        AuditVerdict::Wrong { line, cause } => {
            let cause = name_of_cause(cause);
            write!(text, "wrong at line {line}: {cause}\n")
        }
    }
}

#[tactic(auto, unfolding(crate::specs::AuditText::cause_text))]
fn name_of_cause(cause: AuditCause) -> &'static str
    ensures { result.now ≡ cause_text cause }
{
    match cause {
        AuditCause::Form => "form",
        AuditCause::Script => "script",
        AuditCause::Sent => "sent",
        AuditCause::Reader => "reader",
        AuditCause::Length => "length",
        AuditCause::Prefix => "prefix",
        AuditCause::Total => "total",
        AuditCause::Table => "table",
    }
}
