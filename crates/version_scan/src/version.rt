//! The version of a document.

ghost use Rattle.std.specs.Prelude.{◌≡◌, ◌<◌, None, Some, true, false, IsNone, IfOk, IfSome};
ghost use Rattle.json.specs.Json.{value};
ghost use Rattle.json.specs.Reads.{token_of};
ghost use Rattle.raw_document.specs.Words.{word};
ghost use Rattle.serde_json.specs.Data.{Members, object};
ghost use Rattle.serde_json.specs.Read.{converted, of_json, read};
ghost use Rattle.std.specs.Str.{bytes_eq};
ghost use Rattle.version_scan.specs.Passing.{Passes, begins_object, is_4_read, members_in};
ghost use Rattle.version_scan.specs.Version.{is_4_at, is_4_in, is_number_4, is_of_version_4};

use crate::passing::pass;
use crate::whole::MAX_DEPTH;
use json::{Reader, Scratch, Token};
use raw_document::DocKey;
use std::alloc::{AllocError, Global};

/// Whether a document is of version 4: it is a JSON object whose `version` is the whole number 4.
/// Of more members of that name the last one counts.
///
/// It takes as much memory as the document has bytes, and keeps none of it.
pub fn is_of_version_4(alloc: Global, bytes: &[u8]) -> Result<bool, AllocError>
    ensures { IfOk result (λ is. is ≡ is_of_version_4 bytes.now) }
{
    let Ok(text) = simdutf8::compat::from_utf8(bytes) else {
        return Ok(false);
    };
    let mut scratch = Scratch::new(alloc);
    text_is_of_version_4(text, &mut scratch)
}

fn text_is_of_version_4(text: &str, scratch: &mut Scratch) -> Result<bool, AllocError>
    ensures { IfOk result (λ is. is ≡ is_4_in (read text.now)) }
{
    let mut reader = Reader::new(text, scratch)?;
    if !value_is_of_version_4(&mut reader, MAX_DEPTH) {
        return Ok(false);
    }
    Ok(reader.next().is_none())
}

// Whether an object of version 4 comes next.
fn value_is_of_version_4(reader: &mut Reader<'_>, depth: usize) -> bool
    requires { 0 < depth }
    ensures yes { result ≡ true → Passes depth reader.old reader.new (λ d. is_4_at d ≡ true) }
    ensures no { result ≡ false → is_4_read (converted of_json (value depth reader.old)) ≡ false }
{
    let Some(token) = reader.next() else {
        return false;
    };
    if !begins_object(&token) {
        return false;
    }
    match members_are_of_version_4(reader, depth - 1) {
        Some(is) => is,
        None => false,
    }
}

fn begins_object(token: &Token<'_>) -> bool
    ensures { result ≡ begins_object (token_of token.now) }
{
    matches!(token, Token::BeginObject)
}

// The members of an object: whether the last of them that is named `version` is 4.
fn members_are_of_version_4(reader: &mut Reader<'_>, depth: usize) -> Option<bool>
    ensures passed { IfSome result (λ is. (found : Members)
        × (members_in depth reader.old ≡ Some (found, reader.new))
        × (is ≡ is_4_at (object found))) }
    ensures refused { IsNone result → members_in depth reader.old ≡ None }
{
    let mut is_4 = false;
    'members: while let Some(key) = reader.next_key().ok()? {
        let named = is_version(key);
        let whole = pass(reader, depth)?;
        if named {
            is_4 = is_number_4(whole);
        }
    }
    Some(is_4)
}

fn is_version(key: &str) -> bool
    ensures yes { result ≡ true → key.now ≡ word DocKey.Version }
    ensures no { result ≡ false → bytes_eq (word DocKey.Version) key.now ≡ false }
{
    DocKey::Version.text() == key
}

fn is_number_4(whole: Option<u64>) -> bool
    ensures { result ≡ is_number_4 whole }
{
    whole == Some(4)
}
