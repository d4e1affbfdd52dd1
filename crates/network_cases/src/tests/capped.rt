//! The worked cases of capped sums, over a stale and over a fresh index.

ghost use Rattle.std.specs.Prelude.{◌≤◌};

use bw_function::BwFunction;
use capped_sum::CappedSum;
use function_sum::ShareFunction;
use std::alloc::Global;
use std::test::Fail;

// The two tasks of the case "Sated group": demands 10 and 200, slope 1.
#[test]
fn a_sated_task_has_its_demand(rt: HostRuntime) -> Result<(), Fail> {
    let alloc = rt.alloc();
    let function = BwFunction::new(alloc, &[(0, 0), (100, 100)], 100)?;
    let mut sum = CappedSum::new(alloc, function, &[1, 1])?;
    let idle = sum.value(90);
    let before = (sum.set(0, 10)?, sum.set(1, 200)?);
    assert!(rt; has_values_of_the_sated(&sum), "stale");
    sum.refresh();
    assert!(rt; has_values_of_the_sated(&sum), "fresh");
    let last = sum.set(0, 0)?;
    assert_eq!(rt; (idle, before, last, sum.value(90)), (0, (0, 0), 10, 90));
    Ok(())
}

fn has_values_of_the_sated(sum: &CappedSum) -> bool {
    for (share, value) in [(0, 0), (9, 18), (10, 20), (90, 100), (100, 110)] {
        if sum.value(share) != value {
            return false;
        }
    }
    true
}

// The tasks of the case "Weights in one job": weights 3 and 1, demands that don't cap them.
#[test]
fn weights_multiply_the_function(rt: HostRuntime) -> Result<(), Fail> {
    let alloc = rt.alloc();
    let function = BwFunction::new(alloc, &[(0, 0), (100, 100)], 100)?;
    let mut sum = CappedSum::new(alloc, function, &[3, 1])?;
    let _ = sum.set(0, 1_000)?;
    let _ = sum.set(1, 1_000)?;
    let stale = (sum.value(25), sum.value(26));
    sum.refresh();
    assert_eq!(rt;
        (stale, sum.value(25), sum.value(26)),
        ((100, 104), 100, 104)
    );
    assert_eq!(rt; (sum.weight(0), sum.demand(1), sum.tasks()), (3, 1_000, 2));
    assert_eq!(rt; (sum.steepest(), sum.function().last_value()), (4, 100));
    Ok(())
}

// The tasks of the case "Sated group" again: two tasks rise up to share 10, then one.
#[test]
fn a_fresh_index_tells_where_the_sum_changes(rt: HostRuntime) -> Result<(), Fail> {
    let sum = half_slopes(rt.alloc(), true)?;
    let (rising, full) = (sum.look(4), sum.look(90));
    assert_eq!(rt; (rising.value, rising.last, rising.next), (4, 5, 6));
    assert_eq!(rt; (full.value, full.last, full.next), (35, 100, 35));
    Ok(())
}

// The tasks of the case "Sated group" once more: at 12 one has 5 and the other 7, at share 15.
#[test]
fn a_fresh_index_tells_the_last_share(rt: HostRuntime) -> Result<(), Fail> {
    let stale = half_slopes(rt.alloc(), false)?;
    assert_eq!(rt;
        (stale.last_share_within(8, 100), stale.steepest()),
        (None, u64::MAX)
    );
    let sum = half_slopes(rt.alloc(), true)?;
    assert!(rt; tells_last_shares(&sum));
    Ok(())
}

// Two tasks of slope 1 / 2 that ask for 5 and 30.
fn half_slopes(alloc: Global, is_fresh: bool) -> Result<CappedSum, Fail> {
    let function = BwFunction::new(alloc, &[(0, 0), (100, 50)], 100)?;
    let mut sum = CappedSum::new(alloc, function, &[1, 1])?;
    let _ = sum.set(0, 5)?;
    let _ = sum.set(1, 30)?;
    if is_fresh {
        sum.refresh();
    }
    Ok(sum)
}

fn tells_last_shares(sum: &CappedSum) -> bool {
    for (amount, share) in [
        (0, 1),
        (8, 9),
        (9, 9),
        (10, 11),
        (12, 15),
        (34, 59),
        (35, 100),
    ] {
        if sum.last_share_within(amount, 100) != Some(share) {
            return false;
        }
    }
    true
}

// The two groups of the case "Two weighted tasks": weights 2 and 1, and a link of 90.
#[test]
fn weights_divide_a_link(rt: HostRuntime) -> Result<(), Fail> {
    let alloc = rt.alloc();
    let first = one_task(alloc, 2)?;
    let second = one_task(alloc, 1)?;
    let at_30 = (value_at(&first, 30), value_at(&second, 30));
    let at_31 = (value_at(&first, 31), value_at(&second, 31));
    assert_eq!(rt; (at_30, at_31), ((60, 30), (62, 31)));
    Ok(())
}

// One task of slope 1 that asks for 1,000.
fn one_task(alloc: Global, weight: u64) -> Result<CappedSum, Fail>
    requires low { 1 ≤ weight }
    requires high { weight ≤ 1_000 }
{
    let function = BwFunction::new(alloc, &[(0, 0), (100, 100)], 100)?;
    let mut sum = CappedSum::new(alloc, function, &[weight])?;
    let _ = sum.set(0, 1_000)?;
    sum.refresh();
    Ok(sum)
}

// The value as the layers above ask for it.
fn value_at<P: ShareFunction>(part: &P, share: u64) -> u64 {
    part.value(share)
}
