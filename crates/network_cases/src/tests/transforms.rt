//! The worked cases of the transformation.
//!
//! The children's sums of the cases are piecewise linear, so they stand here as functions.

ghost use Rattle.std.specs.Prelude.{◌≡◌, ◌<◌};

use bw_function::BwFunction;
use function_sum::{Look, Outline, ShareFunction, Stretch};
use mono_search::Steps;
use share_transform::Transform;
use std::cell::Cell;
use std::marker::Brand;
use std::sync::ledger::{Blank, Ledger};
use std::test::Fail;

// The cases "Configured user", "Matched pair" and "Stale pair": first the jobs ask for 100 and
// 50, then the second one for 10.
#[test]
fn a_stale_pair_costs_looks_and_no_answer(rt: HostRuntime) -> Result<(), Fail> {
    let alloc = rt.alloc();
    let parent = BwFunction::new(alloc, &[(0, 0), (10, 60)], 10)?;
    let sum = BwFunction::new(alloc, &[(0, 0), (10, 150)], 10)?;
    let lower_sum = BwFunction::new(alloc, &[(0, 0), (2, 30), (10, 110)], 10)?;
    let mut transform = Transform::new(alloc, parent, 10)?;
    transform.rebuild(&sum);
    let is_right = transform.matched().contains(&(10, 4));
    let (right, stale) = (
        inner_share(&transform, &sum),
        inner_share(&transform, &lower_sum),
    );
    transform.rebuild(&lower_sum);
    let is_lower = transform.matched().contains(&(10, 5));
    let lower = inner_share(&transform, &lower_sum);
    assert_eq!(rt; (is_right, right, stale), (true, 4, 5));
    assert_eq!(rt; (is_lower, lower), (true, 5));
    Ok(())
}

#[test]
fn matched_shares_are_point_shares_and_sixteenths(rt: HostRuntime) -> Result<(), Fail> {
    let alloc = rt.alloc();
    let parent = BwFunction::new(alloc, &[(0, 0), (3, 1), (30, 60)], 32)?;
    let transform = Transform::new(alloc, parent, 32)?;
    assert_eq!(rt; transform.matched().len(), 18);
    assert!(rt; has_the_points_and_the_ends(transform.matched()));
    assert_eq!(rt; transform.parent().last_value(), 60);
    Ok(())
}

fn has_the_points_and_the_ends(pairs: &[(u64, u64)]) -> bool {
    pairs.first() == Some(&(0, 0))
        && pairs.contains(&(3, 0))
        && pairs.contains(&(30, 0))
        && pairs.last() == Some(&(32, 0))
}

// The case "Matched pair".
#[test]
fn a_right_pair_takes_two_looks(rt: HostRuntime) -> Result<(), Fail> {
    let alloc = rt.alloc();
    let parent = BwFunction::new(alloc, &[(0, 0), (10, 60)], 10)?;
    let sum = BwFunction::new(alloc, &[(0, 0), (10, 150)], 10)?;
    let mut transform = Transform::new(alloc, parent, 10)?;
    transform.rebuild(&sum);
    let looks = Cell::new(0);
    let counted = Counted {
        sum: &sum,
        looks: &looks,
    };
    let inner = inner_share(&transform, &counted);
    assert_eq!(rt; (inner, looks.get()), (4, 2));
    Ok(())
}

// The case "Configured user": at share 5 the user gives 30, which its jobs have at inner share 2.
// They have 45 at the next one, which the user gives from share 8 on.
#[test]
fn a_look_tells_where_the_value_changes(rt: HostRuntime) -> Result<(), Fail> {
    let alloc = rt.alloc();
    let parent = BwFunction::new(alloc, &[(0, 0), (10, 60)], 10)?;
    let sum = BwFunction::new(alloc, &[(0, 0), (10, 150)], 10)?;
    let mut transform = Transform::new(alloc, parent, 10)?;
    transform.rebuild(&sum);
    let found = look(&transform, &sum);
    assert_eq!(rt; (found.value, found.last, found.next), (30, 7, 45));
    Ok(())
}

/// A sum that counts the looks at it.
#[derive(Drop)]
struct Counted<'a, P: ShareFunction> {
    sum: &'a P,
    looks: &'a Cell<u64>,
}

impl<P: ShareFunction> ShareFunction for Counted<'_, P> {
    ghost meaning = { λ counted. P.meaning counted.sum.now };

    fn value(&self, share: u64) -> u64 {
        self.looks.set(self.looks.get().wrapping_add(1));
        self.sum.value(share)
    }

    fn look(&self, share: u64) -> Look {
        self.looks.set(self.looks.get().wrapping_add(1));
        self.sum.look(share)
    }

    // Only a search tells, so that looks are counted.
    fn last_share_within(&self, amount: u64, _top: u64) -> Option<u64> {
        let _ = self.sum.last_share_within(amount, 0);
        None
    }

    fn near(&self, share: u64) -> u64 {
        self.sum.near(share)
    }

    fn add_bends(&self, outline: &mut Outline) {
        self.sum.add_bends(outline);
    }

    fn stretch(&self, amount: u64) -> Option<Stretch> {
        self.sum.stretch(amount)
    }
}

// The inner share at 10.
fn inner_share<P: ShareFunction>(transform: &Transform, sum: &P) -> u64 {
    counted_inner_share::<P, Brand>(transform, sum, Blank::new(1))
}

// The same with a counter made on the spot.
fn counted_inner_share<P: ShareFunction, L: Ledger>(
    transform: &Transform,
    sum: &P,
    blank: Blank,
) -> u64
    requires name { blank.name ≡ L.name }
    requires parts { blank.parts ≡ L.parts }
    requires some { 0 < L.parts }
{
    if transform.parent().top() < 10 {
        return 0;
    }
    let mut steps: Steps<L> = Steps::new(blank);
    transform.inner_share(sum, 10, &mut steps)
}

// The look at 5.
fn look<P: ShareFunction>(transform: &Transform, sum: &P) -> Look {
    counted_look::<P, Brand>(transform, sum, Blank::new(1))
}

// The same with a counter made on the spot.
fn counted_look<P: ShareFunction, L: Ledger>(transform: &Transform, sum: &P, blank: Blank) -> Look
    requires name { blank.name ≡ L.name }
    requires parts { blank.parts ≡ L.parts }
    requires some { 0 < L.parts }
{
    if transform.parent().top() < 5 {
        return sum.look(0);
    }
    let mut steps: Steps<L> = Steps::new(blank);
    transform.look(sum, 5, &mut steps)
}
