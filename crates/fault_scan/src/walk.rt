//! The walk over a value.

ghost use Rattle.std.specs.Prelude.{◌≡◌, ◌<◌, ℕ, Some, length, IfSome, OnSome};
ghost use Rattle.serde_json.specs.Data.{Items as SpecItems, Members, object};
ghost use Rattle.version_scan.specs.Passing.{items_in, members_in};
ghost use Rattle.raw_document.specs.Shape.{list_items};
ghost use Rattle.raw_document.specs.Forms.{is_of_link};
ghost use Rattle.raw_reader.specs.Takes.{Takes};
ghost use Rattle.fault_scan.specs.Kinds.{at};
ghost use Rattle.fault_scan.specs.Tables.{entry_fields, fields_at, item_at};
ghost use Rattle.fault_scan.specs.Seen.{Holds, ItemsAre, Tells, fields_in, names_link};

use crate::found::fine_if;
use crate::items::Items;
use crate::kinds::Kind;
use crate::seen::Seen;
use crate::tables::{fields_at, item_at};
use json::{Reader, Token};
use raw_document::Fault;
use std::alloc::Global;
use version_scan::number;

/// The first fault of the next value, in which arrays and objects may nest `depth` deep.
#[cycle(check)]
pub fn check(
    alloc: Global,
    version: u64,
    kind: Kind,
    reader: &mut Reader<'_>,
    depth: usize,
) -> Option<Result<(), Fault>>
    ensures value { IfSome result (λ found. Takes depth reader.old reader.new
        (λ d. Tells found (at version kind d))) }
    ensures shorter { OnSome result (length reader.new < length reader.old) }
{
    match reader.next()? {
        Token::String(_) => Some(fine_if(alloc, kind.takes_text())),
        Token::Bool(_) => Some(fine_if(alloc, kind.takes_all())),
        Token::Null => Some(fine_if(alloc, kind.takes_all())),
        Token::Number(digits) => {
            let whole = number(digits)?;
            Some(fine_if(alloc, kind.takes_number(version, whole)))
        }
        Token::EndObject | Token::EndArray | Token::Key(_) | Token::Bad => None,
        Token::BeginArray => {
            if depth == 0 {
                return None;
            }
            let items = check_items(alloc, version, kind, reader, depth - 1)?;
            Some(items.fault(alloc, kind))
        }
        Token::BeginObject => {
            if depth == 0 {
                return None;
            }
            let seen = check_members(alloc, version, kind, reader, depth - 1)?;
            Some(object_fault(alloc, version, kind, seen))
        }
    }
}

// The items of a list of the kind, or of another value that is one.
#[cycle(check)]
fn check_items(
    alloc: Global,
    version: u64,
    kind: Kind,
    reader: &mut Reader<'_>,
    depth: usize,
) -> Option<Items>
    ensures value { IfSome result (λ items. (found : SpecItems)
        × (items_in depth reader.old ≡ Some (found, reader.new))
        × ItemsAre version (item_at kind) items (list_items found)) }
    ensures shorter { OnSome result (length reader.new < length reader.old) }
{
    let kind_of_item = item_at(kind);
    let mut items = Items::new();
    'items: while !reader.take_end_array() {
        let found = check(alloc, version, kind_of_item, reader, depth)?;
        items = items.and(found)?;
    }
    Some(items)
}

// The members of an object of the kind, or of another value that is one.
#[cycle(check)]
fn check_members(
    alloc: Global,
    version: u64,
    kind: Kind,
    reader: &mut Reader<'_>,
    depth: usize,
) -> Option<Seen>
    ensures value { IfSome result (λ seen. (members : Members)
        × (members_in depth reader.old ≡ Some (members, reader.new))
        × Holds version seen members
        × (fields_in seen.slots.items ≡ fields_at version kind)) }
    ensures shorter { OnSome result (length reader.new < length reader.old) }
{
    let mut seen = Seen::new(alloc, fields_at(kind, version))?;
    'members: while let Some(key) = reader.next_key().ok()? {
        let found = check(alloc, version, seen.kind_at(key), reader, depth)?;
        seen.put(key, found);
    }
    Some(seen)
}

// The first fault of an object that has these members.
fn object_fault(alloc: Global, version: u64, kind: Kind, seen: Seen) -> Result<(), Fault>
    requires { fields_in seen.slots.items ≡ fields_at version kind }
    ensures { (members : Members) → Holds version seen members
        → Tells result (at version kind (object members)) }
{
    match kind {
        Kind::Any => Ok(()),
        Kind::Object(_) => seen.fault(alloc),
        Kind::Entry => entry_fault(alloc, version, seen),
        Kind::Text | Kind::Whole | Kind::Version | Kind::Point | Kind::List(_) => {
            Err(Fault::here(alloc))
        }
    }
}

// The places of an entry's members in its table.
const TASK: usize = 1;

const DEMAND: usize = 2;

const LINK: usize = 3;

const CAPACITY: usize = 4;

// The first fault of an entry of the script, by the one of its two forms that it is of.
fn entry_fault(alloc: Global, version: u64, seen: Seen) -> Result<(), Fault>
    requires { fields_in seen.slots.items ≡ entry_fields }
    ensures { (members : Members) → Holds version seen members
        → Tells result (at version Kind.Entry (object members)) }
{
    if is_of_link(version, &seen) {
        seen.without(DEMAND).without(TASK).fault(alloc)
    } else {
        seen.without(CAPACITY).without(LINK).fault(alloc)
    }
}

// Whether an entry of the script is a report of a capacity.
fn is_of_link(version: u64, seen: &Seen) -> bool
    requires { fields_in seen.now.slots.items ≡ entry_fields }
    ensures { (members : Members) → Holds version seen.now members
        → result ≡ is_of_link version (object members) }
{
    version != 1 && names_link(seen)
}

// Whether an entry of the script names a link, or has a capacity.
fn names_link(seen: &Seen) -> bool
    requires { fields_in seen.now.slots.items ≡ entry_fields }
    ensures { (version : ℕ) (members : Members) → Holds version seen.now members
        → result ≡ names_link (object members) }
{
    seen.has(LINK) || seen.has(CAPACITY)
}
