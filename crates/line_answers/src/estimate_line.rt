//! The command `estimate`.

ghost use Rattle.std.specs.Prelude.{◌≡◌, ◌≤◌, ◌-◌, ◌++◌, ℕ, All, IfOk, length};
ghost use Rattle.bwe_specs.specs.declared.limits.TheConstants.{MAX_REPORTS};
ghost use Rattle.bwe_specs.specs.DocumentLimits.{limits_of};
ghost use Rattle.bwe_specs.specs.Fit.{IsFit};
ghost use Rattle.bwe_specs.specs.declared.limits.TheConstants.{MAX_WINDOW, MIN_HEADROOM, MAX_HEADROOM};
ghost use Rattle.doc_names.specs.NameTexts.{texts_of};
ghost use Rattle.plan_doc.specs.Conditions.{IsUsable};
ghost use Rattle.sample_lines.specs.Held.{IsByOwner};
ghost use Rattle.sample_lines.specs.Known.{known_by};
ghost use Rattle.sample_lines.specs.SampleLines.{Answers};
ghost use Rattle.sample_lines.specs.SampleReports.{reports_in};
ghost use Rattle.line_answers.specs.EstimateReply.{estimate_accepted, estimate_reply};
ghost use Rattle.parted_input.specs.Parted.{parts_reply};
ghost use Rattle.plan_doc.specs.Plans.{plan_in};
ghost use Rattle.solve_reply.specs.SolveReply.{table_reply};

use crate::solve_line::solve_document;
use bwe_specs::{DocumentLimits, OutOfMemory, Report};
use one_run::Answer;
use parted_input::{Parted, read_parts};
use plan_doc::Document;
use sample_lines::{SampleError, estimate_reports, sample_refusal_line};
use std::alloc::Global;

/// The answer to its input.
pub fn estimate(
    alloc: Global,
    window: u32,
    headroom: u32,
    input: &[u8],
) -> Result<Answer, OutOfMemory>
    requires some_window { 1 ≤ window }
    requires window { window ≤ MAX_WINDOW }
    requires least { MIN_HEADROOM ≤ headroom }
    requires headroom { headroom ≤ MAX_HEADROOM }
    ensures { IfOk result (λ answer. answer
        ≡ parts_reply (estimate_accepted window headroom) input.now) }
{
    match read_parts(alloc, input)? {
        Parted::Read { document, part } => {
            estimate_document(alloc, document, part, window, headroom)
        }
        Parted::Refused { answer } => Ok(answer),
    }
}

// The table of the document's script with the reports of the estimates behind it, or the first
// sample at fault.
fn estimate_document(
    alloc: Global,
    document: Document,
    part: &[u8],
    window: u32,
    headroom: u32,
) -> Result<Answer, OutOfMemory>
    requires usable { IsUsable document }
    requires some_window { 1 ≤ window }
    requires window { window ≤ MAX_WINDOW }
    requires least { MIN_HEADROOM ≤ headroom }
    requires headroom { headroom ≤ MAX_HEADROOM }
    ensures { IfOk result (λ answer. answer
        ≡ estimate_reply (texts_of document.names)
        (known_by document.names document.task_owners.items)
        (plan_in document) document.script.items (limits_of document.version).reports window
        headroom part.now) }
{
    let most = DocumentLimits::of(document.version).reports;
    match reports_behind(alloc, &document, most, part, window, headroom) {
        Ok(reports) => solve_behind(alloc, document, &reports),
        Err(SampleError::Refused { line }) => Ok(Answer {
            status: 3,
            text: sample_refusal_line(alloc, line)?,
        }),
        Err(SampleError::OutOfMemory) => Err(OutOfMemory),
    }
}

// The reports of the estimates of the part's samples, or the first sample at fault. With those of
// the script there are `most` at most.
fn reports_behind(
    alloc: Global,
    document: &Document,
    most: u64,
    part: &[u8],
    window: u32,
    headroom: u32,
) -> Result<Vec<Report>, SampleError>
    requires some_window { 1 ≤ window }
    requires window { window ≤ MAX_WINDOW }
    requires least { MIN_HEADROOM ≤ headroom }
    requires headroom { headroom ≤ MAX_HEADROOM }
    ensures exact { Answers (λ reports. reports.items) result
        (reports_in (known_by document.now.names document.now.task_owners.items)
        (most - length document.now.script.items) window headroom part.now) }
    ensures few { IfOk result (λ reports.
        length reports.items ≤ most - length document.now.script.items) }
    ensures fit { (links : ℕ) → IfOk result (λ reports.
        All (IsFit (length document.now.names.tasks) links) reports.items) }
    ensures owned { IfOk result (λ reports.
        All (IsByOwner document.now.task_owners.items) reports.items) }
{
    let room = most.saturating_sub(document.script.len() as u64);
    let (names, owners) = (&document.names, &document.task_owners);
    estimate_reports(alloc, part, names, owners, room, window, headroom)
}

// The table of the document's script with these reports behind it.
fn solve_behind(
    alloc: Global,
    document: Document,
    reports: &[Report],
) -> Result<Answer, OutOfMemory>
    requires usable { IsUsable document }
    requires few { length reports.now ≤ MAX_REPORTS - length document.script.items }
    requires fit { (links : ℕ)
        → All (IsFit (length document.names.tasks) links) reports.now }
    requires owned { All (IsByOwner document.task_owners.items) reports.now }
    ensures { IfOk result (λ answer. answer
        ≡ table_reply (texts_of document.names) (plan_in document)
        (document.script.items ++ reports.now)) }
{
    let mut document = document;
    document.script.extend_from_slice(reports)?;
    solve_document(alloc, document)
}
