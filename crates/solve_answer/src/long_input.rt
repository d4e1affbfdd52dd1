//! The answer to an input of any length.

ghost use Rattle.std.specs.Prelude.{◌≡◌, ◌≢◌, IfOk, IfSome, IsNone};
ghost use Rattle.doc_names.specs.NameTexts.{texts_of};
ghost use Rattle.doc_parts.specs.Passing.{NamesRefusal};
ghost use Rattle.plan_doc.specs.Conditions.{IsUsable};
ghost use Rattle.doc_parts.specs.Document.{document};
ghost use Rattle.plan_doc.specs.Plans.{plan_in};
ghost use Rattle.solve_reply.specs.SolveCall.{IsForInput};
ghost use Rattle.solve_reply.specs.SolveReply.{table_reply};

use crate::solve_line::{solve_document_on_threads, solve_on_threads};
use bwe_specs::{MAX_INPUT, OutOfMemory};
use document_reader::read_document_on_threads;
use memchr::memmem;
use one_run::{Answer, document_is_too_long};
use plan_doc::{DocError, Document};
use solve_reply::refused;
use std::alloc::Global;
use std::thread::Threads;

// How many bytes at each end of an input are looked at for its version.
const END: usize = 1_024;

/// The answer to an input, or `None` where it is too long for what it is: above 67,108,864 bytes,
/// and not a document of version 4.
///
/// An accepted document that is likely of version 4 is read once, whatever its length: what was read
/// has its version. Any other input that is that long is passed over for its version. The input is
/// let go before a table is made.
pub(crate) fn solve_unless_too_long<R: Threads + Sync>(
    rt: &R,
    alloc: Global,
    input: Vec<u8>,
) -> Result<Option<Answer>, OutOfMemory>
    ensures { IfOk result (IsForInput input.items) }
{
    if input.len() as u64 <= MAX_INPUT || !is_likely_of_version_4(&input) {
        return solve_after_a_look(rt, alloc, input);
    }
    match read_document_on_threads(rt, alloc, &input) {
        Ok(document) => {
            drop(input);
            solve_of_version_4(rt, alloc, document)
        }
        Err(error) => refused_unless_too_long(alloc, &input, &error),
    }
}

// The same, where the version is looked for before anything is read.
fn solve_after_a_look<R: Threads + Sync>(
    rt: &R,
    alloc: Global,
    input: Vec<u8>,
) -> Result<Option<Answer>, OutOfMemory>
    ensures { IfOk result (IsForInput input.items) }
{
    if document_is_too_long(alloc, &input)? {
        return Ok(None);
    }
    let answer = solve_on_threads(rt, alloc, input)?;
    Ok(Some(answer))
}

// The table of an accepted document of version 4, and nothing for another version.
fn solve_of_version_4<R: Threads + Sync>(
    rt: &R,
    alloc: Global,
    document: Document,
) -> Result<Option<Answer>, OutOfMemory>
    requires { IsUsable document }
    ensures table { IfOk result (λ found. IfSome found (λ answer. (document.version ≡ 4) × (answer
        ≡ table_reply (texts_of document.names) (plan_in document) document.script.items))) }
    ensures other { IfOk result (λ found. IsNone found → document.version ≢ 4) }
{
    if document.version != 4 {
        return Ok(None);
    }
    let answer = solve_document_on_threads(rt, alloc, document)?;
    Ok(Some(answer))
}

// The row of a refused document, unless it is too long for what it is.
fn refused_unless_too_long(
    alloc: Global,
    input: &[u8],
    error: &DocError,
) -> Result<Option<Answer>, OutOfMemory>
    requires { NamesRefusal (document input.now) error.now }
    ensures { IfOk result (IsForInput input.now) }
{
    let is_too_long = document_is_too_long(alloc, input)?;
    if is_too_long {
        return Ok(None);
    }
    let answer = refused(alloc, error)?;
    Ok(Some(answer))
}

// Whether an input is likely to be of version 4: it ends as an object does, and a member `version`
// near its begin or its end is 4. Nothing is owed of the answer, and a wrong one costs time or
// memory alone: what is too long is then read before it is refused, or a document of version 4 is
// passed over for its version before it is read.
fn is_likely_of_version_4(input: &[u8]) -> bool {
    let size = input.len().min(END);
    let (first, last) = (&input[..size], &input[input.len() - size..]);
    last.trim_ascii_end().ends_with(b"}")
        && (says_version_4(first) == Some(true) || says_version_4(last) == Some(true))
}

// Whether the first member `version` in a part of a text is 4.
fn says_version_4(part: &[u8]) -> Option<bool> {
    let key = b"\"version\"";
    let place = memmem::find(part, key)?;
    let behind = part.get(place..)?.strip_prefix(key)?;
    let value = behind.trim_ascii_start().strip_prefix(b":")?;
    Some(value.trim_ascii_start().starts_with(b"4"))
}
