//! The two parts of the input of a command: a document, and what stands behind it.

ghost use Rattle.std.specs.Prelude.{◌≡◌, IfOk};
ghost use Rattle.parted_input.specs.Parted.{AreRead, accepted_parts, no_parts_reply};

use bwe_specs::OutOfMemory;
use document_reader::{read_document, read_document_on_threads};
use one_run::Answer;
use plan_doc::Document;
use solve_reply::refused;
use std::alloc::Global;
use std::thread::Threads;
use two_part::{NO_PARTS, find_parts};

/// The parts of an input, or what is written for a refused one.
#[derive(Drop)]
pub enum Parted<'a> {
    Read { document: Document, part: &'a [u8] },
    Refused { answer: Answer },
}

/// The document of the input and the bytes behind it. An input without parts is refused before a
/// document is read.
pub fn read_parts(alloc: Global, input: &[u8]) -> Result<Parted<'_>, OutOfMemory>
    ensures { IfOk result (AreRead (accepted_parts input.now)) }
{
    let Some(parts) = find_parts(input) else {
        let answer = no_parts(alloc)?;
        return Ok(Parted::Refused { answer });
    };
    match read_document(alloc, parts.document(input)) {
        Ok(document) => Ok(Parted::Read {
            document,
            part: parts.second(input),
        }),
        Err(error) => {
            let answer = refused(alloc, &error)?;
            Ok(Parted::Refused { answer })
        }
    }
}

/// The same, where the document is read on threads.
pub fn read_parts_on_threads<'a, R: Threads + Sync>(
    rt: &R,
    alloc: Global,
    input: &'a [u8],
) -> Result<Parted<'a>, OutOfMemory>
    ensures { IfOk result (AreRead (accepted_parts input.now)) }
{
    let Some(parts) = find_parts(input) else {
        let answer = no_parts(alloc)?;
        return Ok(Parted::Refused { answer });
    };
    match read_document_on_threads(rt, alloc, parts.document(input)) {
        Ok(document) => Ok(Parted::Read {
            document,
            part: parts.second(input),
        }),
        Err(error) => {
            let answer = refused(alloc, &error)?;
            Ok(Parted::Refused { answer })
        }
    }
}

// The row for an input without parts, with exit status 3.
fn no_parts(alloc: Global) -> Result<Answer, OutOfMemory>
    ensures { IfOk result (λ answer.
        answer ≡ no_parts_reply) }
{
    Ok(Answer {
        status: 3,
        text: format!(in alloc; "{NO_PARTS}")?.into_bytes(),
    })
}
