//! The command `check`.

ghost use Rattle.std.specs.Prelude.{◌≡◌, List, IfOk};
ghost use Rattle.bwe_specs.specs.declared.report.Report.{Report};
ghost use Rattle.bwe_specs.specs.Allocation.{wan_after};
ghost use Rattle.bwe_specs.specs.RightClosings.{verdict as verdict_of};
ghost use Rattle.doc_names.specs.NameTexts.{texts_of};
ghost use Rattle.plan_doc.specs.Conditions.{IsUsable};
ghost use Rattle.plan_doc.specs.Plans.{plan_in};
ghost use Rattle.solve_reply.specs.Refused.{document_reply};
ghost use Rattle.line_answers.specs.Replies.{check_accepted, check_reply, verdict_status};

use allocator::Allocator;
use bottleneck_cert::Verdict;
use bwe_specs::{Closing, OutOfMemory};
use demand_book::Maker;
use document_reader::{read_document, read_document_on_threads};
use one_run::Answer;
use opened_document::{OpenedDocument, open_after_script};
use plan_doc::Document;
use reply_text::check_text;
use solve_reply::refused;
use std::alloc::Global;
use std::mem::forget;
use std::thread::Threads;
use tree_values::TreeValues;

/// The answer to its input.
pub fn check(alloc: Global, input: &[u8]) -> Result<Answer, OutOfMemory>
    ensures { IfOk result (λ answer. answer ≡ document_reply check_accepted input.now) }
{
    match read_document(alloc, input) {
        Ok(document) => check_document(alloc, document),
        Err(error) => refused(alloc, &error),
    }
}

/// The same answer, read on threads.
pub fn check_on_threads<R: Threads + Sync>(
    rt: &R,
    alloc: Global,
    input: &[u8],
) -> Result<Answer, OutOfMemory>
    ensures { IfOk result (λ answer. answer ≡ document_reply check_accepted input.now) }
{
    match read_document_on_threads(rt, alloc, input) {
        Ok(document) => check_document(alloc, document),
        Err(error) => refused(alloc, &error),
    }
}

// The verdict on the document's closings, under the demands and capacities after its script.
fn check_document(alloc: Global, document: Document) -> Result<Answer, OutOfMemory>
    requires { IsUsable document }
    ensures { IfOk result (λ answer. answer
        ≡ check_reply (texts_of document.names) (plan_in document) document.script.items
        document.closings.items) }
{
    let opened = open_after_script(alloc, document)?;
    check_opened(alloc, opened)
}

// The verdict on a document's closings, under the reports that its allocator has taken in.
fn check_opened(alloc: Global, opened: OpenedDocument) -> Result<Answer, OutOfMemory>
    ensures { IfOk result (λ answer. (script : List Report)
        → ⟦<Allocator as Maker>⟧.absorbed opened.allocator script
        → answer ≡ check_reply (texts_of opened.names)
        (⟦<Allocator as Maker>⟧.plan opened.allocator) script opened.closings.items) }
{
    let OpenedDocument {
        allocator,
        names,
        closings,
        ..
    } = opened;
    let verdict = verdict_after(alloc, allocator, &closings)?;
    Ok(Answer {
        status: status_of(verdict),
        text: check_text(alloc, &verdict, &names)?,
    })
}

// The verdict on the closings, under the demands and capacities after the reports that the
// allocator has taken in.
fn verdict_after(
    alloc: Global,
    allocator: Allocator,
    closings: &[Closing],
) -> Result<Verdict, OutOfMemory>
    ensures { IfOk result (λ verdict. (script : List Report)
        → ⟦<Allocator as Maker>⟧.absorbed allocator script
        → verdict ≡ verdict_of (wan_after (⟦<Allocator as Maker>⟧.plan allocator) script)
        closings.now) }
{
    let (mut tree, topology, plan) = allocator.into_parts();
    tree.rematch();
    let values = TreeValues { tree: &tree };
    let verdict = bottleneck_cert::check(alloc, &values, &topology, &plan, closings);
    forget((tree, topology, plan));
    verdict
}

// The exit status of a verdict.
fn status_of(verdict: Verdict) -> u8
    ensures { result ≡ verdict_status verdict }
{
    match verdict {
        Verdict::Right => 0,
        Verdict::Wrong { .. } => 1,
    }
}
