//! Lists that are walked in order, where what is gathered goes from item to item.

ghost use Rattle.std.specs.Prelude.{map};
ghost use Rattle.raw_document.specs.Reading.{Gives, fold_each};
ghost use Rattle.doc_passes.specs.Names.{fold_member};

use raw_document::{DocKey, Fault, PathStep, under};
use std::alloc::Global;

/// What the walk comes by. What is given stays, and two values take what is found.
pub trait Walked<Given, First, Second>: Sized {
    ghost use Rattle.std.specs.Prelude.{List, Result};
    ghost use Rattle.raw_document.specs.declared.doc_path.PathStep.{PathStep};

    // What contracts see of it, and of the two values.
    ghost Shown: { Type 0 };

    ghost shown: { Self → Shown };

    ghost State: { Type 0 };

    ghost state: { First → Second → State };

    // What the walk leaves behind it.
    ghost after: { Given → State → Shown → Result State (List PathStep) };

    /// Adds to the two values, or answers the path of the first fault.
    fn walk(
        &self,
        alloc: Global,
        given: &Given,
        first: &mut First,
        second: &mut Second,
    ) -> Result<(), Fault>
        ensures { Gives (λ _. state first.new second.new) result
            (after given.now (state first.old second.old) (shown self.now)) };
}

/// Each item in turn, or the first fault, told from the list.
fn walk_each<Given, First, Second, T: Walked<Given, First, Second>>(
    alloc: Global,
    items: &[T],
    given: &Given,
    first: &mut First,
    second: &mut Second,
) -> Result<(), Fault>
    ensures { Gives (λ _. T.state first.new second.new) result
        (fold_each (T.after given.now) 0 (T.state first.old second.old) (map T.shown items.now)) }
{
    for (place, item) in items.iter().enumerate() {
        match item.walk(alloc, given, first, second) {
            Ok(()) => (),
            Err(fault) => return Err(fault.under(PathStep::Index {
                place: place as u64,
            })),
        }
    }
    Ok(())
}

/// All items of a list that is a member, told from its object.
pub fn walk_member<Given, First, Second, T: Walked<Given, First, Second>>(
    alloc: Global,
    key: DocKey,
    items: &[T],
    given: &Given,
    first: &mut First,
    second: &mut Second,
) -> Result<(), Fault>
    ensures { Gives (λ _. T.state first.new second.new) result
        (fold_member key (T.after given.now) (T.state first.old second.old)
        (map T.shown items.now)) }
{
    under(
        PathStep::Key { name: key },
        walk_each(alloc, items, given, first, second),
    )
}
