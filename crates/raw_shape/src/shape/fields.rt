//! Kinds of values, and members of objects.

ghost use Rattle.std.specs.Prelude.{◌≡◌, ◌||◌, ◌&&◌, ◌∷◌, [], Some, IsTrue, option_map, option_and_then};
ghost use Rattle.std.specs.Prelude.{string_bytes};
ghost use Rattle.std.specs.List.{list_all};
ghost use Rattle.std.specs.BTreeMap.{keys};
ghost use Rattle.serde_json.specs.Find.{as_object};
ghost use Rattle.serde_json.specs.View.{view, items_view, members_view};
ghost use Rattle.raw_document.specs.Reading.{Gives, IsFaultAt, under as at_key};
ghost use Rattle.raw_document.specs.Raw.{name_view};
ghost use Rattle.raw_document.specs.declared.doc_path.PathStep.TheVariants.{Key};
ghost use Rattle.raw_document.specs.Shape.{whole, text, point, pair_of, field, optional, is_one_of, has_all, has_only, object};

use raw_document::{DocKey, Fault, PathStep, under};
use serde_json::{Map, Value};
use std::alloc::Global;

#[tactic(auto, unfolding(raw_document::specs::Shape::whole))]
pub fn whole_of(alloc: Global, value: &Value) -> Result<u64, Fault>
    ensures { Gives (λ number. number) result (whole (view value.now)) }
{
    match value.as_u64() {
        Some(number) => Ok(number),
        None => Err(Fault::here(alloc)),
    }
}

#[tactic(auto, unfolding(raw_document::specs::Shape::text))]
pub fn text_of(alloc: Global, value: &Value) -> Result<&str, Fault>
    ensures { Gives name_view result (text (view value.now)) }
{
    match value.as_str() {
        Some(text) => Ok(text),
        None => Err(Fault::here(alloc)),
    }
}

/// A required member that is missing.
pub fn missing(alloc: Global, key: DocKey) -> Fault
    ensures { IsFaultAt (Key key ∷ []) result }
{
    Fault::here(alloc).under(PathStep::Key { name: key })
}

#[tactic(auto, unfolding(raw_document::specs::Shape::field))]
pub fn whole_in(alloc: Global, value: &Value, key: DocKey) -> Result<u64, Fault>
    ensures { Gives (λ number. number) result (field key whole (view value.now)) }
{
    match value.get(key.text()) {
        Some(found) => under(PathStep::Key { name: key }, whole_of(alloc, found)),
        None => Err(missing(alloc, key)),
    }
}

#[tactic(auto, unfolding(raw_document::specs::Shape::field))]
pub fn text_in(alloc: Global, value: &Value, key: DocKey) -> Result<&str, Fault>
    ensures { Gives name_view result (field key text (view value.now)) }
{
    match value.get(key.text()) {
        Some(found) => under(PathStep::Key { name: key }, text_of(alloc, found)),
        None => Err(missing(alloc, key)),
    }
}

#[tactic(auto, unfolding(raw_document::specs::Shape::optional))]
pub fn optional_text_in(alloc: Global, value: &Value, key: DocKey) -> Result<Option<&str>, Fault>
    ensures { Gives (option_map name_view) result (optional key text (view value.now)) }
{
    match value.get(key.text()) {
        Some(found) => match text_of(alloc, found) {
            Ok(text) => Ok(Some(text)),
            Err(fault) => Err(fault.under(PathStep::Key { name: key })),
        },
        None => Ok(None),
    }
}

#[tactic(auto, unfolding(raw_document::specs::Shape::optional))]
pub fn optional_whole_in(alloc: Global, value: &Value, key: DocKey) -> Result<Option<u64>, Fault>
    ensures { Gives (λ number. number) result (optional key whole (view value.now)) }
{
    match value.get(key.text()) {
        Some(found) => match whole_of(alloc, found) {
            Ok(number) => Ok(Some(number)),
            Err(fault) => Err(fault.under(PathStep::Key { name: key })),
        },
        None => Ok(None),
    }
}

/// Whether a name is one of the keys.
#[tactic(auto, unfolding(raw_document::specs::Shape::is_one_of))]
fn is_among(keys: &[DocKey], name: &str) -> bool
    ensures { result ≡ is_one_of keys.now name.now }
{
    keys.iter().any(|key| key.text() == name)
}

#[tactic(auto, unfolding(raw_document::specs::Shape::has_all))]
fn has_each(value: &Value, keys: &[DocKey]) -> bool
    ensures { result ≡ has_all keys.now (view value.now) }
{
    keys.iter().all(|key| value.get(key.text()).is_some())
}

fn is_known(required: &[DocKey], others: &[DocKey], name: &str) -> bool
    ensures { result ≡ (is_one_of required.now name.now || is_one_of others.now name.now) }
{
    is_among(required, name) || is_among(others, name)
}

fn are_known(map: &Map<String, Value>, required: &[DocKey], others: &[DocKey]) -> bool
    ensures { result
        ≡ list_all (λ k. is_one_of required.now (string_bytes k)
        || is_one_of others.now (string_bytes k)) (keys map.now) }
{
    map.keys()
        .all(|name| is_known(required, others, name.as_str()))
}

#[tactic(auto, using(crate::proofs::Members::has_only_members))]
fn has_no_other(map: &Map<String, Value>, required: &[DocKey], others: &[DocKey]) -> bool
    ensures { result ≡ has_only required.now others.now (members_view map.now.entries) }
{
    are_known(map, required, others)
}

/// Whether all required members are there, and none outside the table.
fn is_whole(value: &Value, map: &Map<String, Value>, required: &[DocKey], others: &[DocKey]) -> bool
    ensures { result ≡ (has_all required.now (view value.now)
        && has_only required.now others.now (members_view map.now.entries)) }
{
    has_each(value, required) && has_no_other(map, required, others)
}

/// Whether a value is an object with all required keys, and none outside the table.
#[tactic(auto, unfolding(raw_document::specs::Shape::object))]
pub fn check_object(
    alloc: Global,
    value: &Value,
    required: &[DocKey],
    others: &[DocKey],
) -> Result<(), Fault>
    ensures { Gives (λ nothing. nothing) result (object required.now others.now (view value.now)) }
{
    match value.as_object() {
        Some(map) => {
            if is_whole(value, map, required, others) {
                Ok(())
            } else {
                Err(Fault::here(alloc))
            }
        }
        None => Err(Fault::here(alloc)),
    }
}

/// A point of a function.
#[tactic(auto, unfolding(raw_document::specs::Shape::point))]
pub fn point_of(alloc: Global, value: &Value) -> Result<(u64, u64), Fault>
    ensures { Gives (λ point. point) result (point (view value.now)) }
{
    match value.as_array() {
        Some(items) => match pair_in(items) {
            Some(pair) => Ok(pair),
            None => Err(Fault::here(alloc)),
        },
        None => Err(Fault::here(alloc)),
    }
}

#[tactic(auto, using(crate::proofs::Members::pair_of_other))]
fn pair_in(items: &[Value]) -> Option<(u64, u64)>
    ensures { result ≡ pair_of (items_view items.now) }
{
    if items.len() != 2 {
        return None;
    }
    both(items[0].as_u64(), items[1].as_u64())
}

fn both(share: Option<u64>, amount: Option<u64>) -> Option<(u64, u64)>
    ensures { result ≡ option_and_then (λ x. option_map (λ y. (x, y)) amount) share }
{
    match (share, amount) {
        (Some(share), Some(amount)) => Some((share, amount)),
        _ => None,
    }
}
