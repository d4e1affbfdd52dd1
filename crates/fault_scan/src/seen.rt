//! What was seen of an object's members.

ghost use Rattle.std.specs.Prelude.{◌≡◌, ◌<◌, ℕ, true, false, length, is_some, [], ◌∷◌, ◌++◌, IfSome, OnSome, slice_index_or};
ghost use Rattle.std.specs.Prelude.{List, ⊤, Result as SpecResult};
ghost use Rattle.std.specs.List.{list_any, remove};
ghost use Rattle.raw_document.specs.declared.doc_path.PathStep.{PathStep as StepOfPath};
ghost use Rattle.serde_json.specs.Data.{Data, Members, no_members, object, put};
ghost use Rattle.fault_scan.specs.Kinds.{at};
ghost use Rattle.fault_scan.specs.Tables.{by_fields, followed_by, in_order, member_at};
ghost use Rattle.fault_scan.specs.Seen.{Holds, SlotIs, SlotsAre, Tells, are_apart, empty_slot, fields_in, is_missing, kind_at, place_of};

use crate::found::earlier;
use crate::kinds::{Field, Kind};
use raw_document::{Fault, PathStep, under};
use std::alloc::Global;

/// A field, and what was found of the last member of its key.
#[derive(Drop)]
pub struct Slot {
    pub field: Field,
    pub found: Option<Result<(), Fault>>,
}

/// What was seen of an object's members.
#[derive(Drop)]
pub struct Seen {
    pub slots: Vec<Slot>,
    pub has_stranger: bool,
}

impl Seen {
    /// No member yet.
    pub fn new(alloc: Global, fields: &[Field]) -> Option<Seen>
        ensures fields { IfSome result (λ seen. fields_in seen.slots.items ≡ fields.now) }
        ensures empty { IfSome result (λ seen. (version : ℕ) → Holds version seen no_members) }
    {
        let mut slots = Vec::new(alloc);
        'fields: for field in fields.iter() {
            push_empty(&mut slots, *field)?;
        }
        Some(Seen {
            slots,
            has_stranger: false,
        })
    }

    // Where the slot of a key stands.
    fn place_of(&self, key: &str) -> Option<usize>
        ensures { result ≡ place_of key.now self.now.slots.items }
    {
        self.slots
            .iter()
            .position(|slot| slot.field.key.text() == key)
    }

    /// What the member of a key has to be.
    pub fn kind_at(&self, key: &str) -> Kind
        ensures { result ≡ kind_at key.now self.now.slots.items }
    {
        match self.place_of(key) {
            Some(place) => self.slots[place].field.kind,
            None => Kind::Any,
        }
    }

    /// One member more. Of members of one key the last one stays.
    pub fn put(&mut self, key: &str, found: Result<(), Fault>)
        requires { are_apart (fields_in self.old.slots.items) ≡ true }
        ensures fields { fields_in self.new.slots.items ≡ fields_in self.old.slots.items }
        ensures holds { (version : ℕ) (d : Data) (members : Members) → Holds version self.old members
            → Tells found (at version (kind_at key.now self.old.slots.items) d)
            → Holds version self.new (put key.now d members) }
    {
        match self.place_of(key) {
            Some(place) => self.slots[place].found = Some(found),
            None => self.has_stranger = true,
        }
    }

    /// Whether a member of the field at this place is there.
    pub fn has(&self, place: usize) -> bool
        requires { place < length self.now.slots.items }
        ensures { (s : Slot) → result ≡ is_some (slice_index_or self.now.slots.items place s).found }
    {
        self.slots[place].found.is_some()
    }

    /// The same by the table without the field at this place.
    pub fn without(self, place: usize) -> Seen
        requires some { place < length self.slots.items }
        requires apart { are_apart (fields_in self.slots.items) ≡ true }
        ensures fields { fields_in result.slots.items
            ≡ remove (fields_in self.slots.items) place }
        ensures holds { (version : ℕ) (members : Members) → Holds version self members
            → Holds version result members }
    {
        let Seen {
            mut slots,
            has_stranger,
        } = self;
        let slot = slots.remove(place);
        Seen {
            slots,
            has_stranger: has_stranger || slot.found.is_some(),
        }
    }

    /// The first fault of an object that has these members.
    pub fn fault(self, alloc: Global) -> Result<(), Fault>
        ensures { (version : ℕ) (members : Members) → Holds version self members
            → Tells result (by_fields version (fields_in self.slots.items) (object members)) }
    {
        if self.has_stranger || lacks(&self.slots) {
            return Err(Fault::here(alloc));
        }
        first_fault(self.slots)
    }
}

fn push_empty(slots: &mut Vec<Slot>, field: Field) -> Option<()>
    ensures { OnSome result (slots.new.items ≡ slots.old.items ++ empty_slot field ∷ []) }
{
    slots.push(Slot { field, found: None }).ok()
}

// Whether a required member is missing.
fn lacks(slots: &[Slot]) -> bool
    ensures { result ≡ list_any is_missing slots.now }
{
    slots.iter().any(is_missing)
}

fn is_missing(slot: &Slot) -> bool
    ensures { result ≡ is_missing slot.now }
{
    slot.field.is_required && slot.found.is_none()
}

// The first fault of a member, in the order of the table. Slots are taken from the last one on, and
// a fault takes the place of those behind it.
fn first_fault(slots: Vec<Slot>) -> Result<(), Fault>
    ensures { (version : ℕ) (members : Members) → SlotsAre version members slots.items
        → list_any is_missing slots.items ≡ false
        → Tells result (in_order version (fields_in slots.items) (object members)) }
{
    let mut slots = slots;
    let mut first = Ok(());
    'slots: while let Some(slot) = slots.pop() {
        first = fault_before(slot, first);
    }
    first
}

// The fault of a member, or else the first one of those behind it.
fn fault_before(slot: Slot, behind: Result<(), Fault>) -> Result<(), Fault>
    ensures { (version : ℕ) (members : Members) (rest : SpecResult ⊤ (List StepOfPath))
        → SlotIs version members slot → is_missing slot ≡ false → Tells behind rest
        → Tells result (followed_by (member_at version slot.field (object members)) rest) }
{
    let Slot { field, found } = slot;
    match found {
        Some(found) => earlier(under(PathStep::Key { name: field.key }, found), behind),
        None => behind,
    }
}
