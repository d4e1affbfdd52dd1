//! What was seen of a list's items.

ghost use Rattle.std.specs.Prelude.{◌≡◌, ℕ, List, [], ◌∷◌, ◌++◌, length, IfSome};
ghost use Rattle.serde_json.specs.Data.{Data, array, Items as SpecItems};
ghost use Rattle.raw_document.specs.Reading.{each};
ghost use Rattle.raw_document.specs.Shape.{list_items, point};
ghost use Rattle.fault_scan.specs.Kinds.{any_whole, at, passed};
ghost use Rattle.fault_scan.specs.Tables.{item_at};
ghost use Rattle.fault_scan.specs.Seen.{ItemsAre, Tells};

use crate::found::{earlier, fine_if, told_here};
use crate::kinds::Kind;
use raw_document::{Fault, PathStep, under};
use std::alloc::Global;

/// How many items there are, and the first fault among them.
#[derive(Drop)]
pub struct Items {
    pub count: u64,
    pub found: Result<(), Fault>,
}

impl Items {
    /// No item yet.
    pub fn new() -> Items
        ensures { (version : ℕ) (kind : Kind) → ItemsAre version kind result [] }
    {
        Items {
            count: 0,
            found: Ok(()),
        }
    }

    /// One item more.
    pub fn and(self, found: Result<(), Fault>) -> Option<Items>
        ensures { IfSome result (λ items. (version : ℕ) (kind : Kind) (d : Data) (ds : List Data)
            → ItemsAre version kind self ds → Tells found (at version kind d)
            → ItemsAre version kind items (ds ++ d ∷ [])) }
    {
        let count = self.count.checked_add(1)?;
        let found = under(PathStep::Index { place: self.count }, found);
        Some(Items {
            count,
            found: earlier(self.found, found),
        })
    }

    /// The first fault of a list that has these items, or of another value that is one.
    pub fn fault(self, alloc: Global, kind: Kind) -> Result<(), Fault>
        ensures { (version : ℕ) (items : SpecItems)
            → ItemsAre version (item_at kind) self (list_items items)
            → Tells result (at version kind (array items)) }
    {
        match kind {
            Kind::Any => Ok(()),
            Kind::List(_) => self.found,
            Kind::Point => point_fault(alloc, self.count, self.found),
            Kind::Text | Kind::Whole | Kind::Version | Kind::Object(_) | Kind::Entry => {
                Err(Fault::here(alloc))
            }
        }
    }
}

// The first fault of a point of so many numbers, of which this is the first fault.
fn point_fault(alloc: Global, count: u64, found: Result<(), Fault>) -> Result<(), Fault>
    ensures { (items : SpecItems) → (length (list_items items) ≡ count)
        → Tells found (passed (each any_whole 0 (list_items items)))
        → Tells result (passed (point (array items))) }
{
    match found {
        Ok(()) => fine_if(alloc, count == 2),
        Err(fault) => Err(told_here(alloc, fault)),
    }
}
