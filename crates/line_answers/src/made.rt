//! The commands `make` and `bulk`, which read nothing.

ghost use Rattle.std.specs.Prelude.{◌≡◌, List, IfOk};
ghost use Rattle.bwe_specs.specs.declared.report.Report.{Report};
ghost use Rattle.doc_maker.specs.Made.{IsSize, made_document};
ghost use Rattle.plan_doc.specs.Conditions.{IsUsable};
ghost use Rattle.doc_parts.specs.Document.{document as document_of};
ghost use Rattle.plan_doc.specs.Plans.{plan_in};
ghost use Rattle.line_answers.specs.MadeLines.{bulk_reply, make_reply, summary_of, summary_reply};

use allocator::Allocator;
use bwe_specs::OutOfMemory;
use demand_book::Maker;
use doc_maker::make_document;
use document_reader::{read_document, read_document_on_threads};
use one_run::Answer;
use opened_document::{OpenedDocument, open_after_script};
use plan_doc::Document;
use reply_text::bulk_text;
use solve_reply::refused;
use std::alloc::Global;
use std::thread::Threads;

/// The made document.
pub fn make(alloc: Global, seed: u64, groups: u32, tasks: u32) -> Result<Answer, OutOfMemory>
    requires { IsSize (record { seed = seed; groups = groups; tasks = tasks }) }
    ensures { IfOk result (λ answer. answer
        ≡ make_reply (record { seed = seed; groups = groups; tasks = tasks })) }
{
    Ok(Answer {
        status: 0,
        text: make_document(alloc, seed, groups, tasks)?,
    })
}

/// The summary of the table of the made document, which is never refused.
pub fn bulk(alloc: Global, seed: u64, groups: u32, tasks: u32) -> Result<Answer, OutOfMemory>
    requires { IsSize (record { seed = seed; groups = groups; tasks = tasks }) }
    ensures { IfOk result (λ answer. answer
        ≡ bulk_reply (record { seed = seed; groups = groups; tasks = tasks })) }
{
    read_summary(alloc, seed, groups, tasks)
}

// The summary of the table of the made document as it is read, or the row of its refusal.
fn read_summary(alloc: Global, seed: u64, groups: u32, tasks: u32) -> Result<Answer, OutOfMemory>
    requires { IsSize (record { seed = seed; groups = groups; tasks = tasks }) }
    ensures { IfOk result (λ answer. answer
        ≡ summary_of (record { seed = seed; groups = groups; tasks = tasks })
        (document_of (made_document (record { seed = seed; groups = groups; tasks = tasks })))) }
{
    let bytes = make_document(alloc, seed, groups, tasks)?;
    match read_document(alloc, &bytes) {
        Ok(document) => summary(alloc, groups, tasks, document),
        Err(error) => refused(alloc, &error),
    }
}

// The summary of the table of a document that has so many groups and tasks.
fn summary(
    alloc: Global,
    groups: u32,
    tasks: u32,
    document: Document,
) -> Result<Answer, OutOfMemory>
    requires { IsUsable document }
    ensures { IfOk result (λ answer. answer
        ≡ summary_reply groups tasks (plan_in document) document.script.items) }
{
    let mut opened = open_after_script(alloc, document)?;
    summary_opened(alloc, groups, tasks, &mut opened)
}

// The summary of the table of what a document's allocator has taken in.
fn summary_opened(
    alloc: Global,
    groups: u32,
    tasks: u32,
    opened: &mut OpenedDocument,
) -> Result<Answer, OutOfMemory>
    ensures { IfOk result (λ answer. (script : List Report)
        → ⟦<Allocator as Maker>⟧.absorbed opened.old.allocator script
        → answer ≡ summary_reply groups tasks
        (⟦<Allocator as Maker>⟧.plan opened.old.allocator) script) }
{
    let table = opened.allocator.table(alloc)?;
    Ok(Answer {
        status: 0,
        text: bulk_text(alloc, groups, tasks, &table)?,
    })
}

/// The summary of `bulk`, whose document is read and solved on threads.
pub fn bulk_on_threads<R: Threads + Sync>(
    rt: &R,
    alloc: Global,
    seed: u64,
    groups: u32,
    tasks: u32,
) -> Result<Answer, OutOfMemory>
    requires { IsSize (record { seed = seed; groups = groups; tasks = tasks }) }
    ensures { IfOk result (λ answer. answer
        ≡ bulk_reply (record { seed = seed; groups = groups; tasks = tasks })) }
{
    read_summary_on_threads(rt, alloc, seed, groups, tasks)
}

// The summary of the table of the made document as it is read, or the row of its refusal.
fn read_summary_on_threads<R: Threads + Sync>(
    rt: &R,
    alloc: Global,
    seed: u64,
    groups: u32,
    tasks: u32,
) -> Result<Answer, OutOfMemory>
    requires { IsSize (record { seed = seed; groups = groups; tasks = tasks }) }
    ensures { IfOk result (λ answer. answer
        ≡ summary_of (record { seed = seed; groups = groups; tasks = tasks })
        (document_of (made_document (record { seed = seed; groups = groups; tasks = tasks })))) }
{
    let bytes = make_document(alloc, seed, groups, tasks)?;
    match read_document_on_threads(rt, alloc, &bytes) {
        Ok(document) => summary_on_threads(rt, alloc, groups, tasks, document),
        Err(error) => refused(alloc, &error),
    }
}

// The summary of the table of a document, made on threads.
fn summary_on_threads<R: Threads + Sync>(
    rt: &R,
    alloc: Global,
    groups: u32,
    tasks: u32,
    document: Document,
) -> Result<Answer, OutOfMemory>
    requires { IsUsable document }
    ensures { IfOk result (λ answer. answer
        ≡ summary_reply groups tasks (plan_in document) document.script.items) }
{
    let mut opened = open_after_script(alloc, document)?;
    summary_opened_on_threads(rt, alloc, groups, tasks, &mut opened)
}

// The summary of the table of what a document's allocator has taken in, made on threads.
fn summary_opened_on_threads<R: Threads + Sync>(
    rt: &R,
    alloc: Global,
    groups: u32,
    tasks: u32,
    opened: &mut OpenedDocument,
) -> Result<Answer, OutOfMemory>
    ensures { IfOk result (λ answer. (script : List Report)
        → ⟦<Allocator as Maker>⟧.absorbed opened.old.allocator script
        → answer ≡ summary_reply groups tasks
        (⟦<Allocator as Maker>⟧.plan opened.old.allocator) script) }
{
    let table = opened.allocator.table_on_threads(rt, alloc)?;
    Ok(Answer {
        status: 0,
        text: bulk_text(alloc, groups, tasks, &table)?,
    })
}
