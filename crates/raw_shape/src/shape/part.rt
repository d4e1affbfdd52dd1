//! What is read of a value, and lists of it.

ghost use Rattle.std.specs.Prelude.{map};
ghost use Rattle.serde_json.specs.View.{view};
ghost use Rattle.raw_document.specs.Reading.{Gives, each, each_view};
ghost use Rattle.raw_document.specs.Shape.{field, list_of};

use crate::shape::fields::{missing, point_of, text_of};
use raw_document::{DocKey, Fault, PathStep, under};
use serde_json::Value;
use std::alloc::Global;

/// What is read of a value.
pub trait Part<'v>: Sized + Drop {
    ghost use Rattle.std.specs.Prelude.{ℕ, List, Result};
    ghost use Rattle.serde_json.specs.Data.{Data};
    ghost use Rattle.raw_document.specs.declared.doc_path.PathStep.{PathStep};

    // What contracts see of it.
    ghost Shown: { Type 0 };

    ghost shown: { Self → Shown };

    // In a document of that version this is what is read of the data.
    ghost shape: { ℕ → Data → Result Shown (List PathStep) };

    /// What the value is read as in a document of that version, or the first fault there.
    fn read(alloc: Global, value: &'v Value, version: u64) -> Result<Self, Fault>
        ensures { Gives shown result (shape version (view value.now)) };
}

impl<'v> Part<'v> for &'v str {
    ghost use Rattle.std.specs.Prelude.{ℕ, List};
    ghost use Rattle.raw_document.specs.Raw.{name_view};
    ghost use Rattle.raw_document.specs.Shape.{text};

    ghost Shown = { List ℕ };

    ghost shown = { name_view };

    ghost shape = { λ version d. text d };

    fn read(alloc: Global, value: &'v Value, _version: u64) -> Result<&'v str, Fault> {
        text_of(alloc, value)
    }
}

impl<'v> Part<'v> for (u64, u64) {
    ghost use Rattle.std.specs.Prelude.{ℕ};
    ghost use Rattle.raw_document.specs.Shape.{point};

    ghost Shown = { ℕ × ℕ };

    ghost shown = { λ point. point };

    ghost shape = { λ version d. point d };

    fn read(alloc: Global, value: &'v Value, _version: u64) -> Result<(u64, u64), Fault> {
        point_of(alloc, value)
    }
}

impl<'v, T: Part<'v>> Part<'v> for Vec<T> {
    ghost use Rattle.std.specs.Prelude.{List};

    ghost Shown = { List T.Shown };

    ghost shown = { each_view T.shown };

    ghost shape = { λ version d. list_of (T.shape version) d };

    #[tactic(auto, unfolding(raw_document::specs::Shape::list_of))]
    fn read(alloc: Global, value: &'v Value, version: u64) -> Result<Vec<T>, Fault> {
        match value.as_array() {
            Some(items) => each_of(alloc, items, version),
            None => Err(Fault::here(alloc)),
        }
    }
}

/// The list that is the member of a key.
#[tactic(auto, unfolding(raw_document::specs::Shape::field))]
pub fn list_in<'v, T: Part<'v>>(
    alloc: Global,
    value: &'v Value,
    key: DocKey,
    version: u64,
) -> Result<Vec<T>, Fault>
    ensures { Gives (each_view T.shown) result
        (field key (list_of (T.shape version)) (view value.now)) }
{
    match value.get(key.text()) {
        Some(found) => under(
            PathStep::Key { name: key },
            Vec::read(alloc, found, version),
        ),
        None => Err(missing(alloc, key)),
    }
}

// What the items of a list are read as, or the first fault, told from the list.
fn each_of<'v, T: Part<'v>>(
    alloc: Global,
    items: &'v [Value],
    version: u64,
) -> Result<Vec<T>, Fault>
    ensures { Gives (each_view T.shown) result (each (T.shape version) 0 (map view items.now)) }
{
    let mut found = Vec::with_capacity(alloc, items.len())?;
    for (place, item) in items.iter().enumerate() {
        match T::read(alloc, item, version) {
            Ok(part) => found.push(part)?,
            Err(fault) => return Err(fault.under(PathStep::Index {
                place: place as u64,
            })),
        }
    }
    Ok(found)
}
