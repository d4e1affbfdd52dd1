//! Where a text is cut into stretches.
//!
//! A cut in a wrong place is noticed when the stretches are read, so nothing is promised of where
//! the cuts are.

ghost use Rattle.std.specs.Prelude.{IfSome, IsTrue};
ghost use Rattle.raw_reader.specs.Stretches.{IsCut, IsInList, AreStretches};

use crate::pieces::{Place, Stretch};
use memchr::{memchr, memmem};
use std::alloc::Global;

// A text of fewer bytes is not cut: its threads would cost what they save.
const FEW_BYTES: usize = 262_144;

// About how long a stretch is, and so the scratch that it is read over.
const STRETCH_BYTES: usize = 131_072;

// Into how many stretches a text is cut at least, where its lists can be cut so often.
const LEAST_STRETCHES: usize = 4;

// How many ends of objects are looked at for one cut.
const MOST_TRIES: usize = 1024;

// A list that may be cut: where it begins, and the first two keys of its first item.
#[derive(Clone, Copy, Drop)]
struct LongList<'a> {
    place: Place,
    begin: usize,
    keys: (&'a [u8], &'a [u8]),
}

// Where a comma stands, and in which list.
#[derive(Clone, Copy, Drop)]
struct Cut {
    comma: usize,
    place: Place,
}

// The text behind a mark and blanks, where it begins so.
fn behind<'a>(text: &'a [u8], mark: &[u8]) -> Option<&'a [u8]> {
    Some(
        text.trim_ascii_start()
            .strip_prefix(mark)?
            .trim_ascii_start(),
    )
}

// What stands in quotes at the beginning of a text, and the text behind.
fn quoted(text: &[u8]) -> Option<(&[u8], &[u8])> {
    let inside = text.strip_prefix(b"\"")?;
    let (word, rest) = inside.split_at_checked(memchr(b'"', inside)?)?;
    Some((word, rest.strip_prefix(b"\"")?))
}

// The first key of an object, and mostly the second.
fn first_keys(text: &[u8]) -> Option<(&[u8], &[u8])> {
    let (first, rest) = quoted(behind(text, b"{")?)?;
    let (_, rest) = rest.split_at_checked(memchr(b',', rest)?)?;
    let (second, _) = quoted(behind(rest, b",")?)?;
    Some((first, second))
}

// The list of a key that stands in the text from a place on.
fn long_list<'a>(text: &'a [u8], from: usize, key: &[u8], place: Place) -> Option<LongList<'a>> {
    let (_, rest) = text.split_at_checked(from)?;
    let (_, rest) = rest.split_at_checked(memmem::find(rest, key)?)?;
    let rest = behind(behind(rest.strip_prefix(key)?, b":")?, b"[")?;
    Some(LongList {
        place,
        begin: text.len().checked_sub(rest.len())?,
        keys: first_keys(rest)?,
    })
}

// The first comma from a place on that stands between two items of the list.
fn cut_of(text: &[u8], from: usize, list: &LongList) -> Option<Cut> {
    let (_, mut rest) = text.split_at_checked(from)?;
    for _ in 0..MOST_TRIES {
        let (_, found) = rest.split_at_checked(memmem::find(rest, b"},")?)?;
        rest = found.strip_prefix(b"},")?;
        if first_keys(rest) == Some(list.keys) {
            return Some(Cut {
                comma: text.len().checked_sub(rest.len())?.checked_sub(1)?,
                place: list.place,
            });
        }
    }
    None
}

// A cut at about the place, in one of two lists, of which the first one stands before the second.
fn cut_near(text: &[u8], at: usize, first: &LongList, second: &LongList) -> Option<Cut> {
    if at < first.begin {
        return None;
    }
    if at < second.begin {
        return cut_of(text, at, first);
    }
    cut_of(text, at, second)
}

// The places of the cuts, in their order.
fn cuts_of(alloc: Global, text: &[u8]) -> Option<Vec<Cut>> {
    if text.len() < FEW_BYTES {
        return None;
    }
    let groups = long_list(text, 0, b"\"groups\"", Place::Groups)?;
    let script = long_list(text, groups.begin, b"\"script\"", Place::Script)?;
    let count = (text.len() / STRETCH_BYTES).max(LEAST_STRETCHES);
    let length = text.len().checked_div(count)?;
    let mut cuts = Vec::with_capacity(alloc, count).ok()?;
    let mut begin = 0;
    for number in 1..count {
        let at = length.checked_mul(number)?;
        if at < begin {
            continue;
        }
        if let Some(cut) = cut_near(text, at, &groups, &script) {
            begin = cut.comma.checked_add(1)?;
            cuts.push(cut).ok()?;
        }
    }
    Some(cuts)
}

// The text before a comma, and the one behind it.
fn cut_off(text: &str, comma: usize) -> Option<(&str, &str)>
    ensures { IfSome result (λ parts. IsCut text.now parts.0.now parts.1.now) }
{
    let (front, rest) = text.split_at_checked(comma)?;
    if !front.ends_with('}') {
        return None;
    }
    Some((front, rest.strip_prefix(',')?))
}

fn is_in_list(place: Place) -> bool
    ensures { IsTrue result → IsInList place }
{
    matches!(place, Place::Groups | Place::Script)
}

/// The text of a document of this version in stretches.
pub fn stretches_of(alloc: Global, version: u64, text: &str) -> Option<Vec<Stretch<'_>>>
    ensures { IfSome result (λ stretches. AreStretches version text.now stretches.items) }
{
    let mut stretches = Vec::new(alloc);
    let mut rest = text;
    let mut place = Place::Outside;
    let mut done = 0usize;
    'cuts: for cut in cuts_of(alloc, text.as_bytes())? {
        let (front, behind) = cut_off(rest, cut.comma.checked_sub(done)?)?;
        if !is_in_list(cut.place) {
            return None;
        }
        stretches
            .push(Stretch {
                alloc,
                version,
                text: front,
                place,
            })
            .ok()?;
        rest = behind;
        place = cut.place;
        done = cut.comma.checked_add(1)?;
    }
    stretches
        .push(Stretch {
            alloc,
            version,
            text: rest,
            place,
        })
        .ok()?;
    Some(stretches)
}
