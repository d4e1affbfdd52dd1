//! Names that differ, where mostly few stand side by side.

ghost use Rattle.std.specs.Prelude.{◌≡◌, [], map};
ghost use Rattle.std.specs.List.{list_any};
ghost use Rattle.std.specs.Str.{bytes_eq};
ghost use Rattle.raw_document.specs.Reading.{Gives};
ghost use Rattle.raw_document.specs.Raw.{name_view};
ghost use Rattle.doc_passes.specs.Names.{fresh};

use crate::name_table::NameTable;
use arrayvec::ArrayVec;
use raw_document::Fault;
use std::alloc::Global;
use std::marker::Model;

/// Names that differ, which contracts see as a list. The first eight lie in the value itself and
/// are looked through, so that few names take no memory and no hash. Those after them are hashed.
#[derive(Drop)]
pub struct FewNames<'a> {
    first: ArrayVec<&'a str, 8>,
    more: NameTable<'a>,
}

impl<'a> Model for FewNames<'a> {
    ghost use Rattle.std.specs.Prelude.{ℕ, List, ◌++◌, map};
    ghost use Rattle.raw_document.specs.Raw.{name_view};

    ghost Value = { List (List ℕ) };

    ghost view = { λ names. map name_view names.first.items ++ names.more };
}

impl<'a> FewNames<'a> {
    pub fn new(alloc: Global) -> FewNames<'a>
        ensures { result ≡ [] }
    {
        FewNames {
            first: ArrayVec::new(),
            more: NameTable::new(alloc),
        }
    }

    /// Adds a name at the end, or answers a fault here where it stood before.
    pub fn add(&mut self, alloc: Global, name: &'a str) -> Result<(), Fault>
        ensures { Gives (λ _. self.new) result (fresh self.old name.now) }
    {
        if has_name(self.first.as_slice(), name) {
            return Err(Fault::here(alloc));
        }
        if self.more.is_empty() && !self.first.is_full() {
            self.first.push(name);
            return Ok(());
        }
        self.more.add(alloc, name)
    }
}

fn has_name(names: &[&str], name: &str) -> bool
    ensures { result ≡ list_any (bytes_eq name.now) (map name_view names.now) }
{
    names.iter().any(|other| name == *other)
}
