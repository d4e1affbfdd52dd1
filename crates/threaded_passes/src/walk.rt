//! Lists that are walked from a place on, where what is gathered goes from item to item.

ghost use Rattle.std.specs.Prelude.{drop, map};
ghost use Rattle.raw_document.specs.Reading.{Gives, fold_each};
ghost use Rattle.threaded_passes.specs.Parts.{fold_member_from};

use doc_passes::Walked;
use raw_document::{DocKey, Fault, PathStep, under};
use std::alloc::Global;

// Each item from this place on in turn, or the first fault, told from the list of all.
fn walk_from<Given, First, Second, T: Walked<Given, First, Second>>(
    alloc: Global,
    items: &[T],
    from: usize,
    given: &Given,
    first: &mut First,
    second: &mut Second,
) -> Result<(), Fault>
    ensures { Gives (λ _. T.state first.new second.new) result
        (fold_each (T.after given.now) from (T.state first.old second.old)
        (map T.shown (drop from items.now))) }
{
    for place in from..items.len() {
        match items[place].walk(alloc, given, first, second) {
            Ok(()) => (),
            Err(fault) => return Err(fault.under(PathStep::Index {
                place: place as u64,
            })),
        }
    }
    Ok(())
}

/// The same of a list that is a member, told from its object.
pub fn walk_member_from<Given, First, Second, T: Walked<Given, First, Second>>(
    alloc: Global,
    key: DocKey,
    items: &[T],
    from: usize,
    given: &Given,
    first: &mut First,
    second: &mut Second,
) -> Result<(), Fault>
    ensures { Gives (λ _. T.state first.new second.new) result
        (fold_member_from key (T.after given.now) from (T.state first.old second.old)
        (map T.shown (drop from items.now))) }
{
    under(
        PathStep::Key { name: key },
        walk_from(alloc, items, from, given, first, second),
    )
}
