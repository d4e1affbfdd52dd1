//! The whole document.

ghost use Rattle.std.specs.Prelude.{◌≡◌, ◌<◌, Some, length, IfSome};
ghost use Rattle.serde_json.specs.Data.{Data};
ghost use Rattle.serde_json.specs.Read.{read};
ghost use Rattle.raw_document.specs.Forms.{document_at};
ghost use Rattle.raw_document.specs.Json.{json};
ghost use Rattle.raw_document.specs.Reading.{Fails};
ghost use Rattle.raw_reader.specs.Takes.{Takes};
ghost use Rattle.fault_scan.specs.Faults.{is_at_version, is_before_version, names_version};

use crate::kinds::{Form, Kind};
use crate::walk::check;
use json::{Reader, Scratch, Token};
use raw_document::{DocKey, Fault, PathStep};
use std::alloc::Global;
use version_scan::pass;

// Most arrays and objects that may stand in one another.
const MAX_DEPTH: usize = 127;

/// The first fault of the shape of a document, or nothing.
///
/// It takes as much memory as the document has bytes, and that of the path.
pub fn find_fault(alloc: Global, bytes: &[u8]) -> Option<Fault>
    // What is told is the fault of the bytes' value. That anything is told is not promised.
    ensures { IfSome result (λ fault. (d : Data) × (json bytes.now ≡ Some d)
        × Fails fault (document_at d)) }
{
    let Ok(text) = simdutf8::compat::from_utf8(bytes) else {
        return None;
    };
    let mut scratch = Scratch::new(alloc);
    let version = last_version(text, &mut scratch)?;
    text_fault(alloc, version, text, &mut scratch)
}

// The last member `version`, where it is a whole number. A wrong one is noticed by the walk.
fn last_version(text: &str, scratch: &mut Scratch) -> Option<Option<u64>> {
    let mut reader = Reader::new(text, scratch).ok()?;
    let Token::BeginObject = reader.next()? else {
        return Some(None);
    };
    let mut version = None;
    'members: while let Some(key) = reader.next_key().ok()? {
        let is_version = key == DocKey::Version.text();
        let whole = pass(&mut reader, MAX_DEPTH - 1)?;
        if is_version {
            version = whole;
        }
    }
    Some(version)
}

// The first fault of a text, of which the version is this one.
fn text_fault(
    alloc: Global,
    version: Option<u64>,
    text: &str,
    scratch: &mut Scratch,
) -> Option<Fault>
    ensures { IfSome result (λ fault. (d : Data) × (read text.now ≡ Some d)
        × Fails fault (document_at d)) }
{
    let mut reader = Reader::new(text, scratch).ok()?;
    let fault = document_fault(alloc, version, &mut reader, MAX_DEPTH)?;
    if reader.next().is_some() {
        return None;
    }
    Some(fault)
}

fn document_fault(
    alloc: Global,
    version: Option<u64>,
    reader: &mut Reader<'_>,
    depth: usize,
) -> Option<Fault>
    ensures { IfSome result (λ fault. Takes depth reader.old reader.new
        (λ d. Fails fault (document_at d))) }
{
    match version {
        Some(version) => dated_fault(alloc, version, reader, depth),
        None => undated_fault(alloc, reader, depth),
    }
}

// The first fault of a document of this version. One at the version says that it has another.
fn dated_fault(alloc: Global, version: u64, reader: &mut Reader<'_>, depth: usize) -> Option<Fault>
    ensures { IfSome result (λ fault. Takes depth reader.old reader.new
        (λ d. Fails fault (document_at d))) }
{
    let Err(fault) = check(alloc, version, Kind::Object(Form::Dated), reader, depth)? else {
        return None;
    };
    if is_at_version(&fault) {
        return None;
    }
    Some(fault)
}

// The first fault of a document whose version is no whole number, or which is no object. Another
// fault than these depends on the version.
fn undated_fault(alloc: Global, reader: &mut Reader<'_>, depth: usize) -> Option<Fault>
    ensures { IfSome result (λ fault. Takes depth reader.old reader.new
        (λ d. Fails fault (document_at d))) }
{
    let Err(fault) = check(alloc, 0, Kind::Object(Form::Undated), reader, depth)? else {
        return None;
    };
    if is_before_version(&fault) {
        return Some(fault);
    }
    None
}

// Whether the fault is at the version.
fn is_at_version(fault: &Fault) -> bool
    ensures { result ≡ is_at_version fault.now }
{
    match fault {
        Fault::OutOfMemory => false,
        Fault::At(path) => match path.steps.first() {
            Some(step) => names_version(*step),
            None => false,
        },
    }
}

// Whether the fault is told before the version counts.
fn is_before_version(fault: &Fault) -> bool
    ensures { result ≡ is_before_version fault.now }
{
    match fault {
        Fault::OutOfMemory => true,
        Fault::At(path) => match path.steps.first() {
            Some(step) => names_version(*step),
            None => true,
        },
    }
}

fn names_version(step: PathStep) -> bool
    ensures { result ≡ names_version step }
{
    match step {
        PathStep::Key { name } => name.text() == DocKey::Version.text(),
        PathStep::Index { .. } => false,
    }
}
