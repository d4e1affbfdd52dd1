//! Names of one table, replaced by their numbers, and lists of them.

ghost use Rattle.std.specs.Prelude.{map};
ghost use Rattle.raw_document.specs.Reading.{Gives, each_view, under, each};
ghost use Rattle.raw_document.specs.declared.doc_path.PathStep.TheVariants.{Key};
ghost use Rattle.raw_document.specs.Raw.{name_view};
ghost use Rattle.doc_passes.specs.Names.{number_in};

use crate::name_table::NameTable;
use raw_document::{DocKey, Fault, PathStep, under};
use std::alloc::Global;

/// What refers by names to what stands in one table.
pub trait Numbered: Sized {
    type Numbers: Drop;

    ghost use Rattle.std.specs.Prelude.{ℕ, List, Result};
    ghost use Rattle.raw_document.specs.declared.doc_path.PathStep.{PathStep};

    // What contracts see of it, and of its numbers.
    ghost Shown: { Type 0 };

    ghost shown: { Self → Shown };

    ghost Told: { Type 0 };

    ghost told: { Self.Numbers → Told };

    // With numbers in place of the names of that table.
    ghost in_numbers: { List (List ℕ) → Shown → Result Told (List PathStep) };

    /// The same with numbers in place of names, or the path of the first unknown name.
    fn numbers(&self, alloc: Global, table: &NameTable) -> Result<Self::Numbers, Fault>
        ensures { Gives told result (in_numbers table.now (shown self.now)) };
}

/// The numbers of each item, or the first fault, told from the list.
pub fn each_numbers<T: Numbered>(
    alloc: Global,
    items: &[T],
    table: &NameTable,
) -> Result<Vec<T::Numbers>, Fault>
    ensures { Gives (each_view T.told) result
        (each (T.in_numbers table.now) 0 (map T.shown items.now)) }
{
    let mut found = Vec::with_capacity(alloc, items.len())?;
    for (place, item) in items.iter().enumerate() {
        match item.numbers(alloc, table) {
            Ok(numbers) => found.push(numbers)?,
            Err(fault) => return Err(fault.under(PathStep::Index {
                place: place as u64,
            })),
        }
    }
    Ok(found)
}

impl<'a> Numbered for &'a str {
    type Numbers = u32;

    ghost use Rattle.std.specs.Prelude.{ℕ, List};

    ghost Shown = { List ℕ };

    ghost shown = { name_view };

    ghost Told = { ℕ };

    ghost told = { λ number. number };

    ghost in_numbers = { number_in };

    fn numbers(&self, alloc: Global, table: &NameTable) -> Result<u32, Fault> {
        table.number(alloc, *self)
    }
}

impl<T: Numbered> Numbered for Vec<T> {
    type Numbers = Vec<T::Numbers>;

    ghost use Rattle.std.specs.Prelude.{List};

    ghost Shown = { List T.Shown };

    ghost shown = { each_view T.shown };

    ghost Told = { List T.Told };

    ghost told = { each_view T.told };

    ghost in_numbers = { λ table items. each (T.in_numbers table) 0 items };

    fn numbers(&self, alloc: Global, table: &NameTable) -> Result<Vec<T::Numbers>, Fault> {
        each_numbers(alloc, self.as_slice(), table)
    }
}

/// The number of a name, or the fault below its key.
pub(crate) fn number_in_member(
    alloc: Global,
    key: DocKey,
    table: &NameTable,
    name: &str,
) -> Result<u32, Fault>
    ensures { Gives (λ number. number) result (under (Key key) (number_in table.now name.now)) }
{
    under(PathStep::Key { name: key }, table.number(alloc, name))
}

/// The same, where the name is guessed to have a number.
pub(crate) fn number_near_in_member(
    alloc: Global,
    key: DocKey,
    table: &NameTable,
    name: &str,
    guess: u32,
) -> Result<u32, Fault>
    ensures { Gives (λ number. number) result (under (Key key) (number_in table.now name.now)) }
{
    under(
        PathStep::Key { name: key },
        table.number_near(alloc, name, guess),
    )
}
