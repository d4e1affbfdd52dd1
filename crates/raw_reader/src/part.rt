//! Values and lists of values.

ghost use Rattle.std.specs.Prelude.{IfSome, OnSome, ◌≡◌, ◌<◌, ◌∷◌, ◌++◌, [], length};
ghost use Rattle.raw_reader.specs.Takes.{Takes, ListRead};

use crate::source::Source;
use crate::values::{number, open_array, text};
use json::Token;
use std::alloc::Global;

// Room for so many items more is let go behind a list.
const MUCH_ROOM: usize = 8;

/// What is read of a value.
pub trait Part<'a>: Sized + Drop {
    /// How many of it a list mostly has at least. It is a guess at the room, and no clause is
    /// needed.
    const USUAL_COUNT: usize;

    ghost use Rattle.std.specs.Prelude.{ℕ};
    ghost use Rattle.serde_json.specs.Data.{Data};

    // In a document of that version this is what is read of the data.
    ghost is_read: { ℕ → Data → Self → Type 0 };

    /// The next value, in which arrays and objects may nest `depth` deep.
    fn read(alloc: Global, version: u64, reader: &mut Source<'a, '_>, depth: usize) -> Option<Self>
        ensures value { IfSome result (λ x. Takes depth reader.old reader.new
            (λ d. is_read version d x)) }
        ensures shorter { OnSome result (length reader.new < length reader.old) };
}

/// What is read of an object.
pub trait Item<'a>: Part<'a> {
    ghost use Rattle.std.specs.Prelude.{◌∷◌};
    ghost use Rattle.json.specs.Token.{begin_object};

    /// The object whose opening brace was just taken.
    fn read_behind_brace(
        alloc: Global,
        version: u64,
        reader: &mut Source<'a, '_>,
        depth: usize,
    ) -> Option<Self>
        requires { 0 < depth }
        ensures value { IfSome result (λ x. Takes depth (begin_object ∷ reader.old) reader.new
            (λ d. Self.is_read version d x)) }
        ensures shorter { OnSome result (length reader.new < length reader.old) };
}

impl<'a> Part<'a> for &'a str {
    const USUAL_COUNT: usize = 4;

    ghost use Rattle.std.specs.Prelude.{◌≡◌, Ok};
    ghost use Rattle.raw_document.specs.Shape.{text};

    ghost is_read = { λ version d s. text d ≡ Ok s.now };

    fn read(
        _alloc: Global,
        _version: u64,
        reader: &mut Source<'a, '_>,
        _depth: usize,
    ) -> Option<&'a str> {
        text(reader)
    }
}

impl<'a> Part<'a> for u64 {
    const USUAL_COUNT: usize = 4;

    ghost use Rattle.std.specs.Prelude.{◌≡◌, Ok};
    ghost use Rattle.raw_document.specs.Shape.{whole};

    ghost is_read = { λ version d n. whole d ≡ Ok n };

    fn read(
        _alloc: Global,
        _version: u64,
        reader: &mut Source<'a, '_>,
        _depth: usize,
    ) -> Option<u64> {
        number(reader)
    }
}

/// A point of a function.
impl<'a> Part<'a> for (u64, u64) {
    const USUAL_COUNT: usize = 4;

    ghost use Rattle.std.specs.Prelude.{◌≡◌, Ok};
    ghost use Rattle.raw_document.specs.Shape.{point};

    ghost is_read = { λ version d p. point d ≡ Ok p };

    fn read(
        _alloc: Global,
        _version: u64,
        reader: &mut Source<'a, '_>,
        depth: usize,
    ) -> Option<(u64, u64)> {
        open_array(reader, depth)?;
        let share = number(reader)?;
        let amount = number(reader)?;
        match reader.next()? {
            Token::EndArray => Some((share, amount)),
            _ => None,
        }
    }
}

impl<'a, T: Part<'a>> Part<'a> for Vec<T> {
    const USUAL_COUNT: usize = 4;

    ghost is_read = { λ version d xs. ListRead (T.is_read version) d xs.items };

    fn read(
        alloc: Global,
        version: u64,
        reader: &mut Source<'a, '_>,
        depth: usize,
    ) -> Option<Vec<T>> {
        open_array(reader, depth)?;
        let mut found = Vec::new(alloc);
        'items: while !reader.take_end_array() {
            let item = T::read(alloc, version, reader, depth - 1)?;
            add(&mut found, item)?;
        }
        let_room_go(&mut found);
        Some(found)
    }
}

// Lets go of the room behind a list's items, where it is much.
fn let_room_go<T>(found: &mut Vec<T>)
    ensures { found.new.items ≡ found.old.items }
{
    if found.capacity().saturating_sub(found.len()) >= MUCH_ROOM {
        found.shrink_to_fit();
    }
}

/// Adds an item to a list, whose first item takes room for as many as lists of such mostly hold.
pub fn add<'a, T: Part<'a>>(found: &mut Vec<T>, item: T) -> Option<()>
    ensures { OnSome result (found.new.items ≡ found.old.items ++ item ∷ []) }
{
    if found.is_empty() {
        found.reserve_exact(T::USUAL_COUNT).ok()?;
    }
    found.push(item).ok()
}
