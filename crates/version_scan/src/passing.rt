//! Passing over a value, of which nothing is kept.

ghost use Rattle.std.specs.Prelude.{◌≡◌, ◌<◌, None, Some, length, IsNone, IfSome, OnSome};
ghost use Rattle.json.specs.Json.{items, members, value};
ghost use Rattle.raw_document.specs.Shape.{number_of};
ghost use Rattle.serde_json.specs.Data.{Items, Members, no_members};
ghost use Rattle.serde_json.specs.Read.{converted, of_items, of_json, of_members};
ghost use Rattle.version_scan.specs.Passing.{Passes, items_in, members_in};

use crate::numbers::number;
use json::{Reader, Token};

/// Passes over a value, in which arrays and objects may nest `depth` deep. It says what whole
/// number the value is, if it is one.
#[cycle(pass)]
pub fn pass(reader: &mut Reader<'_>, depth: usize) -> Option<Option<u64>>
    ensures passed { IfSome result (λ whole.
        Passes depth reader.old reader.new (λ d. whole ≡ number_of d)) }
    ensures refused { IsNone result → converted of_json (value depth reader.old) ≡ None }
    ensures shorter { OnSome result (length reader.new < length reader.old) }
{
    match reader.next()? {
        Token::String(_) => Some(None),
        Token::Bool(_) => Some(None),
        Token::Null => Some(None),
        Token::Number(digits) => number(digits),
        Token::EndObject | Token::EndArray | Token::Key(_) | Token::Bad => None,
        Token::BeginArray => {
            if depth == 0 {
                return None;
            }
            pass_items(reader, depth - 1)?;
            Some(None)
        }
        Token::BeginObject => {
            if depth == 0 {
                return None;
            }
            pass_members(reader, depth - 1)?;
            Some(None)
        }
    }
}

#[cycle(pass)]
fn pass_items(reader: &mut Reader<'_>, depth: usize) -> Option<()>
    ensures passed { OnSome result
        ((ds : Items) × (items_in depth reader.old ≡ Some (ds, reader.new))) }
    ensures refused { IsNone result → items_in depth reader.old ≡ None }
    ensures shorter { OnSome result (length reader.new < length reader.old) }
{
    'items: while !reader.take_end_array() {
        pass(reader, depth)?;
    }
    Some(())
}

#[cycle(pass)]
fn pass_members(reader: &mut Reader<'_>, depth: usize) -> Option<()>
    ensures passed { OnSome result
        ((found : Members) × (members_in depth reader.old ≡ Some (found, reader.new))) }
    ensures refused { IsNone result → members_in depth reader.old ≡ None }
    ensures shorter { OnSome result (length reader.new < length reader.old) }
{
    'members: while let Some(_) = reader.next_key().ok()? {
        pass(reader, depth)?;
    }
    Some(())
}
