//! The command `solve` in one thread, and its table for `estimate`.

ghost use Rattle.std.specs.Prelude.{◌≡◌, List, IfOk};
ghost use Rattle.bwe_specs.specs.declared.report.Report.{Report};
ghost use Rattle.doc_names.specs.NameTexts.{texts_of};
ghost use Rattle.plan_doc.specs.Conditions.{IsUsable};
ghost use Rattle.plan_doc.specs.Plans.{plan_in};
ghost use Rattle.solve_reply.specs.Refused.{document_reply};
ghost use Rattle.solve_reply.specs.SolveReply.{solve_accepted, table_reply};

use allocator::Allocator;
use bwe_specs::OutOfMemory;
use demand_book::Maker;
use document_reader::read_document;
use one_run::Answer;
use opened_document::{OpenedDocument, open_after_script};
use plan_doc::Document;
use solve_reply::refused;
use std::alloc::Global;
use std::mem::forget;
use table_text::table_text;

/// The answer to its input.
pub fn solve(alloc: Global, input: &[u8]) -> Result<Answer, OutOfMemory>
    ensures { IfOk result (λ answer. answer ≡ document_reply solve_accepted input.now) }
{
    match read_document(alloc, input) {
        Ok(document) => solve_document(alloc, document),
        Err(error) => refused(alloc, &error),
    }
}

/// The table of an accepted document's script.
///
/// What was made of the document is left to the end of the program, which takes its memory back at
/// once, and not piece by piece.
pub(crate) fn solve_document(alloc: Global, document: Document) -> Result<Answer, OutOfMemory>
    requires { IsUsable document }
    ensures { IfOk result (λ answer. answer
        ≡ table_reply (texts_of document.names) (plan_in document) document.script.items) }
{
    let mut opened = open_after_script(alloc, document)?;
    let answer = solve_opened(alloc, &mut opened)?;
    forget(opened);
    Ok(answer)
}

// The table of what a document's allocator has taken in.
fn solve_opened(alloc: Global, opened: &mut OpenedDocument) -> Result<Answer, OutOfMemory>
    ensures { IfOk result (λ answer. (script : List Report)
        → ⟦<Allocator as Maker>⟧.absorbed opened.old.allocator script
        → answer ≡ table_reply (texts_of opened.old.names)
        (⟦<Allocator as Maker>⟧.plan opened.old.allocator) script) }
{
    let table = opened.allocator.table(alloc)?;
    let text = table_text(alloc, &table, &opened.names)?;
    forget(table);
    Ok(Answer { status: 0, text })
}
