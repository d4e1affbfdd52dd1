//! Names in the order in which they stand, each with its number.

ghost use Rattle.std.specs.Prelude.{◌≡◌, ◌↔◌, [], length, map, IfOk, IsTrue, Ok};
ghost use Rattle.raw_document.specs.Reading.{Gives};
ghost use Rattle.raw_document.specs.Raw.{name_view};
ghost use Rattle.doc_passes.specs.Names.{fresh, number_in};

use doc_names::NameList;
use indexmap::IndexSet;
use raw_document::Fault;
use std::alloc::{AllocError, Global};
use std::marker::Model;

/// Names that differ, which contracts see as a list. A name's number is its place in the list.
/// Names are lent by the document.
#[derive(Drop)]
pub struct NameTable<'a> {
    names: IndexSet<&'a str>,
}

impl<'a> Model for NameTable<'a> {
    ghost use Rattle.std.specs.Prelude.{ℕ, List, map};
    ghost use Rattle.raw_document.specs.Raw.{name_view};

    ghost Value = { List (List ℕ) };

    ghost view = { λ table. map name_view table.names.keys };
}

impl<'a> NameTable<'a> {
    pub fn new(alloc: Global) -> NameTable<'a>
        ensures { result ≡ [] }
    {
        NameTable {
            names: IndexSet::new(alloc),
        }
    }

    pub fn is_empty(&self) -> bool
        ensures { IsTrue result ↔ (self.now ≡ []) }
    {
        self.names.as_slice().is_empty()
    }

    /// How many names there are.
    pub fn len(&self) -> usize
        ensures { result ≡ length self.now }
    {
        self.names.as_slice().len()
    }

    /// Makes room for so many more names, where there is memory for them. Nothing else changes.
    pub fn reserve(&mut self, count: usize)
        ensures { self.new ≡ self.old }
    {
        let _ = self.names.reserve(count);
    }

    /// Adds a name at the end, or answers a fault here where it stood before. Takes about the time
    /// of one hash.
    pub fn add(&mut self, alloc: Global, name: &'a str) -> Result<(), Fault>
        ensures { Gives (λ _. self.new) result (fresh self.old name.now) }
    {
        insert(alloc, &mut self.names, name)
    }

    /// Copies of the names, in their order.
    pub fn copies(&self, alloc: Global) -> Result<NameList, AllocError>
        ensures { IfOk result (λ copies. copies ≡ self.now) }
    {
        copies_of(alloc, self.names.as_slice())
    }

    /// The number of a name, or a fault here where it does not stand. Takes about the time of one
    /// hash.
    pub fn number(&self, alloc: Global, name: &str) -> Result<u32, Fault>
        ensures { Gives (λ number. number) result (number_in self.now name.now) }
    {
        number_of(alloc, &self.names, name)
    }

    /// The same, where the name is guessed to have a number. Takes no hash where the guess is
    /// right.
    pub fn number_near(&self, alloc: Global, name: &str, guess: u32) -> Result<u32, Fault>
        ensures { Gives (λ number. number) result (number_in self.now name.now) }
    {
        if has_number(&self.names, name, guess) {
            return Ok(guess);
        }
        self.number(alloc, name)
    }
}

// Whether the name has this number, which it can have alone since names differ.
fn has_number(names: &IndexSet<&str>, name: &str, number: u32) -> bool
    ensures { IsTrue result → number_in (map name_view names.now.keys) name.now ≡ Ok number }
{
    match names.as_slice().get(number as usize) {
        Some(found) => *found == name,
        None => false,
    }
}

fn insert<'a>(alloc: Global, names: &mut IndexSet<&'a str>, name: &'a str) -> Result<(), Fault>
    ensures { Gives (λ _. map name_view names.new.keys) result
        (fresh (map name_view names.old.keys) name.now) }
{
    match names.insert_full(name) {
        Ok((_, is_new)) => {
            if is_new {
                return Ok(());
            }
            Err(Fault::here(alloc))
        }
        Err(_) => Err(Fault::OutOfMemory),
    }
}

/// No memory holds so many names that a number does not fit 32 bits.
fn number_of(alloc: Global, names: &IndexSet<&str>, name: &str) -> Result<u32, Fault>
    ensures { Gives (λ number. number) result (number_in (map name_view names.now.keys) name.now) }
{
    match names.get_index_of(name) {
        Some(number) => match u32::try_from(number) {
            Ok(number) => Ok(number),
            Err(_) => Err(Fault::OutOfMemory),
        },
        None => Err(Fault::here(alloc)),
    }
}

// Copies of names.
fn copies_of(alloc: Global, names: &[&str]) -> Result<NameList, AllocError>
    ensures { IfOk result (λ copies. copies ≡ map name_view names.now) }
{
    let mut copies = NameList::with_room(alloc, names.len())?;
    for name in names {
        copies.push(name)?;
    }
    Ok(copies)
}
