//! The answer to an input.

ghost use Rattle.std.specs.Prelude.{◌≡◌, IfOk};
ghost use Rattle.doc_names.specs.NameTexts.{texts_of};
ghost use Rattle.plan_doc.specs.Conditions.{IsUsable};
ghost use Rattle.plan_doc.specs.Plans.{plan_in};
ghost use Rattle.solve_reply.specs.Refused.{document_reply};
ghost use Rattle.solve_reply.specs.SolveCall.{IsForInput};
ghost use Rattle.solve_reply.specs.SolveReply.{solve_accepted, table_reply};

use bwe_specs::OutOfMemory;
use one_run::{Answer, document_is_too_long};
use plain_table::table_after;
use plan_doc::{Document, read_document_by_tree};
use solve_reply::refused;
use std::alloc::Global;
use table_text::table_text;

/// The answer to an input, or `None` where it is too long for what it is: above 67,108,864 bytes,
/// and not a document of version 4.
pub(crate) fn solve_unless_too_long(
    alloc: Global,
    input: Vec<u8>,
) -> Result<Option<Answer>, OutOfMemory>
    ensures { IfOk result (IsForInput input.items) }
{
    if document_is_too_long(alloc, &input)? {
        return Ok(None);
    }
    let answer = solve(alloc, input)?;
    Ok(Some(answer))
}

// The same of an input that is not too long. The input is let go before the table is made.
fn solve(alloc: Global, input: Vec<u8>) -> Result<Answer, OutOfMemory>
    ensures { IfOk result (λ answer. answer ≡ document_reply solve_accepted input.items) }
{
    match read_document_by_tree(alloc, &input) {
        Ok(document) => {
            drop(input);
            solve_document(alloc, document)
        }
        Err(error) => refused(alloc, &error),
    }
}

// The table of an accepted document's script.
fn solve_document(alloc: Global, document: Document) -> Result<Answer, OutOfMemory>
    requires { IsUsable document }
    ensures { IfOk result (λ answer. answer
        ≡ table_reply (texts_of document.names) (plan_in document) document.script.items) }
{
    let Document {
        tree,
        topology,
        plan,
        script,
        names,
        ..
    } = document;
    let table = table_after(alloc, tree, topology, &plan, &script)?;
    let text = table_text(alloc, &table, &names)?;
    Ok(Answer { status: 0, text })
}
