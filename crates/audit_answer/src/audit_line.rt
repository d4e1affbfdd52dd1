//! The command `audit`.

ghost use Rattle.std.specs.Prelude.{◌≡◌, ◌≤◌, All, [], IfOk, length};
ghost use Rattle.bwe_specs.specs.declared.limits.TheConstants.{MAX_AMOUNT, MAX_REPORTS};
ghost use Rattle.bwe_specs.specs.Allocation.{allocation};
ghost use Rattle.allocator.specs.Frames.{task_count};
ghost use Rattle.bwe_specs.specs.Fit.{IsFit};
ghost use Rattle.plan_doc.specs.Conditions.{IsUsable, tasks_in};
ghost use Rattle.doc_names.specs.NameTexts.{texts_of};
ghost use Rattle.plan_doc.specs.Plans.{plan_in};
ghost use Rattle.audit_answer.specs.AuditReply.{IsAuditReply, audit_reply, audit_status};
ghost use Rattle.parted_input.specs.Parted.{IsReplyBehind, accepted_parts};

use crate::known::{KnowingAllocator, known_of};
use crate::rewound::rewound;
use allocator::{Allocator, after_script, capacities_of};
use bwe_specs::{OutOfMemory, Report};
use demand_book::Maker;
use document_scripts::scripts_of_document;
use one_run::Answer;
use opened_document::{OpenedDocument, open};
use parted_input::{Parted, read_parts};
use plan_doc::Document;
use run_audit::{AuditVerdict, audit_text};
use std::alloc::Global;
use table_text::table_text;

/// The answer to its input.
pub fn audit(alloc: Global, input: &[u8]) -> Result<Answer, OutOfMemory>
    ensures { IfOk result (λ answer. IsReplyBehind IsAuditReply (accepted_parts input.now) answer) }
{
    match read_parts(alloc, input)? {
        Parted::Read { document, part } => audit_document(alloc, document, part),
        Parted::Refused { answer } => Ok(answer),
    }
}

// The verdict on a text that is to be that of a run of the document.
fn audit_document(alloc: Global, document: Document, text: &[u8]) -> Result<Answer, OutOfMemory>
    requires usable { IsUsable document }
    requires tasks { task_count (plan_in document) ≡ tasks_in document }
    ensures { IfOk result (λ answer. answer
        ≡ audit_reply (texts_of document.names) (plan_in document) document.script.items text.now) }
{
    let scripts = scripts_of_document(alloc, &document)?;
    let given = capacities_of(alloc, &document.topology)?;
    let OpenedDocument {
        allocator,
        script,
        names,
        ..
    } = open(document);
    let first = solved_and_rewound(alloc, allocator, &script, &given)?;
    let table = table_text(alloc, &first.known.table, &names)?;
    let verdict = run_audit::audit(alloc, first, &scripts, &names, &table, text)?;
    Ok(Answer {
        status: status_of(verdict),
        text: audit_text(alloc, verdict)?,
    })
}

// The allocator of the same plan before any report, which knows the table of the script.
fn solved_and_rewound(
    alloc: Global,
    allocator: Allocator,
    script: &[Report],
    given: &[u64],
) -> Result<KnowingAllocator, OutOfMemory>
    requires first { ⟦<Allocator as Maker>⟧.absorbed allocator [] }
    requires few { length script.now ≤ MAX_REPORTS }
    requires fit { All
        (IsFit (⟦<Allocator as Maker>⟧.plan_tasks (⟦<Allocator as Maker>⟧.plan allocator))
        (⟦<Allocator as Maker>⟧.plan_links (⟦<Allocator as Maker>⟧.plan allocator))) script.now }
    requires given { given.now ≡ (⟦<Allocator as Maker>⟧.plan allocator).capacities }
    requires range { All (λ capacity. capacity ≤ MAX_AMOUNT) given.now }
    ensures table { IfOk result (λ knowing.
        knowing.known.table ≡ allocation (⟦<Allocator as Maker>⟧.plan allocator) script.now) }
    ensures plan { IfOk result (λ knowing.
        ⟦<KnowingAllocator as Maker>⟧.plan knowing ≡ ⟦<Allocator as Maker>⟧.plan allocator) }
    ensures first { IfOk result (λ knowing. ⟦<KnowingAllocator as Maker>⟧.absorbed knowing []) }
{
    let mut allocator = after_script(alloc, allocator, script)?;
    let known = known_of(alloc, &mut allocator)?;
    let allocator = rewound(allocator, given)?;
    Ok(KnowingAllocator { allocator, known })
}

// The exit status of a verdict.
fn status_of(verdict: AuditVerdict) -> u8
    ensures { result ≡ audit_status verdict }
{
    match verdict {
        AuditVerdict::Legal => 0,
        AuditVerdict::Wrong { .. } => 1,
    }
}
