//! The command `tiers`.

ghost use Rattle.std.specs.Prelude.{◌≡◌, IfOk, length};
ghost use Rattle.doc_names.specs.NameTexts.{texts_of};
ghost use Rattle.plan_doc.specs.Conditions.{IsUsable};
ghost use Rattle.plan_doc.specs.Plans.{plan_in};
ghost use Rattle.parted_input.specs.Parted.{parts_reply};
ghost use Rattle.line_answers.specs.TiersReply.{tiered_reply, tiers_accepted, tiers_reply};

use bwe_specs::OutOfMemory;
use one_run::Answer;
use opened_document::{OpenedDocument, open_after_script};
use parted_input::{Parted, read_parts, read_parts_on_threads};
use plan_doc::Document;
use std::alloc::Global;
use std::mem::forget;
use std::thread::Threads;
use tier_text::{TiersError, read_tiers, refused_tiers, tier_text};
use tiers::fill_tiers;

/// The answer to its input.
pub fn tiers(alloc: Global, input: &[u8]) -> Result<Answer, OutOfMemory>
    ensures { IfOk result (λ answer. answer ≡ parts_reply tiers_accepted input.now) }
{
    match read_parts(alloc, input)? {
        Parted::Read { document, part } => tiers_of_document(alloc, document, part),
        Parted::Refused { answer } => Ok(answer),
    }
}

/// The same answer, read on threads.
pub fn tiers_on_threads<R: Threads + Sync>(
    rt: &R,
    alloc: Global,
    input: &[u8],
) -> Result<Answer, OutOfMemory>
    ensures { IfOk result (λ answer. answer ≡ parts_reply tiers_accepted input.now) }
{
    match read_parts_on_threads(rt, alloc, input)? {
        Parted::Read { document, part } => tiers_of_document(alloc, document, part),
        Parted::Refused { answer } => Ok(answer),
    }
}

// The table of tiers of the document's script, or the first byte of the part at fault.
fn tiers_of_document(alloc: Global, document: Document, part: &[u8]) -> Result<Answer, OutOfMemory>
    requires { IsUsable document }
    ensures { IfOk result (λ answer. answer
        ≡ tiers_reply (texts_of document.names) (plan_in document) document.script.items part.now) }
{
    match read_tiers(alloc, part, groups_in(&document)) {
        Ok(tiers) => fill(alloc, document, &tiers),
        Err(TiersError::Refused { at }) => Ok(Answer {
            status: 3,
            text: refused_tiers(alloc, at)?,
        }),
        Err(TiersError::OutOfMemory) => Err(OutOfMemory),
    }
}

// How many groups a document has.
fn groups_in(document: &Document) -> u32
    ensures { result ≡ length document.now.plan }
{
    document.plan.groups()
}

// The table of these tiers of groups, under the demands and capacities after the document's script.
fn fill(alloc: Global, document: Document, tiers: &[u8]) -> Result<Answer, OutOfMemory>
    requires usable { IsUsable document }
    requires one_each { length tiers.now ≡ length document.plan }
    ensures { IfOk result (λ answer. answer
        ≡ tiered_reply (texts_of document.names) (plan_in document) document.script.items
        tiers.now) }
{
    let OpenedDocument {
        allocator,
        names,
        ..
    } = open_after_script(alloc, document)?;
    let prefix = allocator.prefix();
    let (mut tree, topology, plan) = allocator.into_parts();
    tree.rematch();
    let table = fill_tiers(alloc, &tree, topology, &plan, tiers, prefix)?;
    let text = tier_text(alloc, &table, &names)?;
    forget((tree, plan, table, names));
    Ok(Answer { status: 0, text })
}
