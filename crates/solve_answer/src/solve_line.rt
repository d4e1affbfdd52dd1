//! The command `solve`, on threads.

ghost use Rattle.std.specs.Prelude.{◌≡◌, List, IfOk};
ghost use Rattle.bwe_specs.specs.declared.report.Report.{Report};
ghost use Rattle.doc_names.specs.NameTexts.{texts_of};
ghost use Rattle.plan_doc.specs.Conditions.{IsUsable};
ghost use Rattle.plan_doc.specs.Plans.{plan_in};
ghost use Rattle.solve_reply.specs.Refused.{document_reply};
ghost use Rattle.solve_reply.specs.SolveReply.{solve_accepted, table_reply};

use allocator::Allocator;
use bwe_specs::OutOfMemory;
use demand_book::Maker;
use document_reader::read_document_on_threads;
use one_run::Answer;
use opened_document::{OpenedDocument, open_after_script};
use plan_doc::Document;
use solve_reply::refused;
use std::alloc::Global;
use std::mem::forget;
use std::thread::Threads;
use table_text::table_text;

/// The answer to its input, read and worked out on threads. The input is let go before the table is
/// made.
pub(crate) fn solve_on_threads<R: Threads + Sync>(
    rt: &R,
    alloc: Global,
    input: Vec<u8>,
) -> Result<Answer, OutOfMemory>
    ensures { IfOk result (λ answer. answer ≡ document_reply solve_accepted input.items) }
{
    match read_document_on_threads(rt, alloc, &input) {
        Ok(document) => {
            drop(input);
            solve_document_on_threads(rt, alloc, document)
        }
        Err(error) => refused(alloc, &error),
    }
}

/// The table of an accepted document's script, worked out on threads.
///
/// What was made of the document is left to the end of the program, which takes its memory back at
/// once, and not piece by piece.
pub(crate) fn solve_document_on_threads<R: Threads + Sync>(
    rt: &R,
    alloc: Global,
    document: Document,
) -> Result<Answer, OutOfMemory>
    requires { IsUsable document }
    ensures { IfOk result (λ answer. answer
        ≡ table_reply (texts_of document.names) (plan_in document) document.script.items) }
{
    let mut opened = open_after_script(alloc, document)?;
    let answer = solve_opened_on_threads(rt, alloc, &mut opened)?;
    forget(opened);
    Ok(answer)
}

// The table of what a document's allocator has taken in.
fn solve_opened_on_threads<R: Threads + Sync>(
    rt: &R,
    alloc: Global,
    opened: &mut OpenedDocument,
) -> Result<Answer, OutOfMemory>
    ensures { IfOk result (λ answer. (script : List Report)
        → ⟦<Allocator as Maker>⟧.absorbed opened.old.allocator script
        → answer ≡ table_reply (texts_of opened.old.names)
        (⟦<Allocator as Maker>⟧.plan opened.old.allocator) script) }
{
    let table = opened.allocator.table_on_threads(rt, alloc)?;
    let text = table_text(alloc, &table, &opened.names)?;
    forget(table);
    Ok(Answer { status: 0, text })
}
