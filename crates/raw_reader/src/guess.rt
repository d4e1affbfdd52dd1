//! The version of a document, before the document is read.
//!
//! A wrong guess is noticed when the document is read, so nothing is promised of one.

use crate::source::Source;
use crate::values::{MAX_DEPTH, is, number, open_object};
use json::Scratch;
use memchr::memmem;
use raw_document::DocKey;

// The key of the version, as most texts write it.
const QUOTED: &[u8] = b"\"version\"";

/// The number of the version, wherever it stands. The first member is looked at, then the end of
/// the text, and all members only where neither has it.
pub fn guess_version(text: &str, scratch: &mut Scratch) -> Option<u64> {
    let mut reader = Source::passing(text, scratch)?;
    open_object(&mut reader, MAX_DEPTH)?;
    let first = reader.next_key().ok()??;
    if is(first, DocKey::Version) {
        return number(&mut reader);
    }
    let last = guess_by_bytes(text.as_bytes());
    if last.is_some() {
        return last;
    }
    reader.skip_value(MAX_DEPTH)?;
    guess_by_members(&mut reader)
}

/// The number of the version, where it is the first member or stands near the end.
pub fn guess_at_ends(text: &str) -> Option<u64> {
    let bytes = text.as_bytes();
    let members = bytes.trim_ascii_start().strip_prefix(b"{")?;
    match members.trim_ascii_start().strip_prefix(QUOTED) {
        Some(found) => {
            let behind_colon = found
                .trim_ascii_start()
                .strip_prefix(b":")?
                .trim_ascii_start();
            leading_number(behind_colon)
        }
        None => guess_by_bytes(bytes),
    }
}

// The number of the version among the members that are left of an object.
fn guess_by_members(reader: &mut Source<'_, '_>) -> Option<u64> {
    'members: while let Some(key) = reader.next_key().ok()? {
        if is(key, DocKey::Version) {
            return number(reader);
        }
        reader.skip_value(MAX_DEPTH)?;
    }
    None
}

// The number behind the last place of the key, without tokens. What stands there may also be a
// name, or the end of a longer key.
fn guess_by_bytes(text: &[u8]) -> Option<u64> {
    let place = memmem::rfind(text, QUOTED)?;
    let (_, found) = text.split_at_checked(place)?;
    let behind_key = found.strip_prefix(QUOTED)?.trim_ascii_start();
    let behind_colon = behind_key.strip_prefix(b":")?.trim_ascii_start();
    leading_number(behind_colon)
}

// The number of 64 bits that bytes begin with, in digits alone.
fn leading_number(bytes: &[u8]) -> Option<u64> {
    let mut found = None;
    for byte in bytes {
        match *byte {
            b'0'..=b'9' => found = Some(with_digit(found.unwrap_or(0), *byte - b'0')?),
            b'.' | b'e' | b'E' => return None,
            _ => return found,
        }
    }
    found
}

// A number with one more digit behind it.
fn with_digit(number: u64, digit: u8) -> Option<u64> {
    number.checked_mul(10)?.checked_add(u64::from(digit))
}
