//! The members of an object, in whatever order they come.

ghost use Rattle.std.specs.Prelude.{◌≡◌, ◌<◌, ◌∷◌, length, Some, IfSome, OnSome};
ghost use Rattle.json.specs.Token.{begin_object};
ghost use Rattle.serde_json.specs.Data.{no_members};
ghost use Rattle.raw_reader.specs.Takes.{Takes, TakesMember, TakesObject};

use crate::part::Part;
use crate::source::Source;
use crate::values::open_object;
use std::alloc::Global;

/// A place for the value of each member that an object may have.
pub trait Slots<'a>: Sized {
    ghost use Rattle.std.specs.Prelude.{ℕ};
    ghost use Rattle.serde_json.specs.Data.{Members};

    // In a document of that version the slots hold what these members say.
    ghost holds: { ℕ → Self → Members → Type 0 };

    /// Reads the value of the member of this key. Of members of one key the last one stays.
    fn take(
        &mut self,
        alloc: Global,
        version: u64,
        key: &str,
        reader: &mut Source<'a, '_>,
        depth: usize,
    ) -> Option<()>
        ensures value { OnSome result (TakesMember depth key.now reader.old reader.new
            (holds version self.old) (holds version self.new)) }
        ensures shorter { OnSome result (length reader.new < length reader.old) };
}

/// Reads a value into a slot.
pub fn fill<'a, T: Part<'a>>(
    slot: &mut Option<T>,
    alloc: Global,
    version: u64,
    reader: &mut Source<'a, '_>,
    depth: usize,
) -> Option<()>
    ensures value { OnSome result ((x : T) × (slot.new ≡ Some x)
        × Takes depth reader.old reader.new (λ d. T.is_read version d x)) }
    ensures shorter { OnSome result (length reader.new < length reader.old) }
{
    *slot = Some(T::read(alloc, version, reader, depth)?);
    Some(())
}

/// Reads an object into slots that are empty.
pub fn fill_slots<'a, S: Slots<'a>>(
    slots: &mut S,
    alloc: Global,
    version: u64,
    reader: &mut Source<'a, '_>,
    depth: usize,
) -> Option<()>
    requires { S.holds version slots.old no_members }
    ensures value { OnSome result (TakesObject depth reader.old reader.new
        (S.holds version slots.new)) }
    ensures shorter { OnSome result (length reader.new < length reader.old) }
{
    open_object(reader, depth)?;
    fill_members(slots, alloc, version, reader, depth)
}

/// Reads the members of an object behind its opening brace into slots that are empty.
pub fn fill_members<'a, S: Slots<'a>>(
    slots: &mut S,
    alloc: Global,
    version: u64,
    reader: &mut Source<'a, '_>,
    depth: usize,
) -> Option<()>
    requires holds { S.holds version slots.old no_members }
    requires depth { 0 < depth }
    ensures value { OnSome result (TakesObject depth (begin_object ∷ reader.old) reader.new
        (S.holds version slots.new)) }
    ensures shorter { OnSome result (length reader.new < length reader.old) }
{
    'members: while let Some(key) = reader.next_key().ok()? {
        slots.take(alloc, version, key, reader, depth - 1)?;
    }
    Some(())
}
