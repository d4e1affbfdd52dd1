//! The command `enforce`.

ghost use Rattle.std.specs.Prelude.{◌≡◌, [], IfOk};
ghost use Rattle.enforce_run.specs.EventLines.{AreThere};
ghost use Rattle.plan_doc.specs.Conditions.{IsUsable, reporter_count};
ghost use Rattle.doc_names.specs.NameTexts.{texts_of};
ghost use Rattle.line_answers.specs.EnforceReply.{enforce_accepted, enforce_reply, enforced_reply};
ghost use Rattle.parted_input.specs.Parted.{parts_reply};
ghost use Rattle.plan_doc.specs.Plans.{plan_in};

use bwe_specs::OutOfMemory;
use demand_book::Maker;
use enforce_run::{EventError, EventLine, event_refusal_line, read_events};
use one_run::Answer;
use opened_document::{OpenedDocument, open};
use parted_input::{Parted, read_parts};
use plan_doc::Document;
use std::alloc::Global;

/// The answer to its input.
pub fn enforce(alloc: Global, input: &[u8]) -> Result<Answer, OutOfMemory>
    ensures { IfOk result (λ answer. answer ≡ parts_reply enforce_accepted input.now) }
{
    match read_parts(alloc, input)? {
        Parted::Read { document, part } => enforce_document(alloc, document, part),
        Parted::Refused { answer } => Ok(answer),
    }
}

// What the events of the part do in a world with a region for each of the document's reporters, or
// the first line at fault.
fn enforce_document(alloc: Global, document: Document, part: &[u8]) -> Result<Answer, OutOfMemory>
    requires { IsUsable document }
    ensures { IfOk result (λ answer. answer
        ≡ enforce_reply (texts_of document.names) (plan_in document) document.script.items
        document.task_owners.items part.now) }
{
    let reporters = reporters_in(&document);
    match read_events(alloc, part, reporters) {
        Ok(events) => play(alloc, document, reporters, &events),
        Err(EventError::BadLine { line }) => Ok(Answer {
            status: 3,
            text: event_refusal_line(alloc, line)?,
        }),
        Err(EventError::OutOfMemory) => Err(OutOfMemory),
    }
}

// How many reporters an accepted document has.
fn reporters_in(document: &Document) -> u32
    requires { IsUsable document.now }
    ensures { result ≡ reporter_count document.now }
{
    document.names.reporters.len() as u32
}

// The text of the events, with the allocations of the script's first reports as tables.
fn play(
    alloc: Global,
    document: Document,
    reporters: u32,
    events: &[EventLine],
) -> Result<Answer, OutOfMemory>
    requires usable { IsUsable document }
    requires reporters { reporters ≡ reporter_count document }
    requires there { AreThere reporters [] events.now }
    ensures { IfOk result (λ answer. answer
        ≡ enforced_reply (texts_of document.names) (plan_in document) document.script.items
        document.task_owners.items events.now) }
{
    let OpenedDocument {
        allocator,
        script,
        names,
        task_owners,
        ..
    } = open(document);
    allocator.what_holds();
    Ok(Answer {
        status: 0,
        text: enforce_run::enforce(
            alloc,
            allocator,
            &script,
            reporters,
            &task_owners,
            &names.tasks,
            events,
        )?,
    })
}
