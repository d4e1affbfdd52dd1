//! Sums and merged shares, run on the code.

use bw_function::BwFunction;
use function_sum::{Look, ShareFunction, look_at, sum_at};
use share_transform::merged_shares;
use std::test::Fail;

// The case "Merged shares".
#[test]
fn each_share_stands_once(rt: HostRuntime) -> Result<(), Fail> {
    let alloc = rt.alloc();
    let lists = vec![in alloc; vec![in alloc; 0, 5, 10]?, vec![in alloc; 5, 7]?]?;
    assert_eq!(rt;
        merged_shares(alloc, lists.as_slice())?.as_slice(),
        [0, 5, 7, 10].as_slice()
    );
    assert_eq!(rt; merged_shares(alloc, &[])?.len(), 0);
    Ok(())
}

// The children of the case "Configured user", with demands that don't cap them.
#[test]
fn values_of_parts_add_up(rt: HostRuntime) -> Result<(), Fail> {
    let alloc = rt.alloc();
    let first = BwFunction::new(alloc, &[(0, 0), (10, 100)], 10)?;
    let second = BwFunction::new(alloc, &[(0, 0), (10, 50)], 10)?;
    let alone = first.value(4) + second.value(4);
    let parts = [first, second];
    let sum = sum_at(&parts, 4);
    let [_, _] = parts;
    assert_eq!(rt; (alone, sum), (60, 60));
    Ok(())
}

// A function that rises by one at each second share, alone and beside one that rises by five at
// each: the sum stays as long as both do.
#[test]
fn a_look_tells_where_a_value_changes(rt: HostRuntime) -> Result<(), Fail> {
    let alloc = rt.alloc();
    let slow = BwFunction::new(alloc, &[(0, 0), (10, 5)], 10)?;
    let fast = BwFunction::new(alloc, &[(0, 0), (10, 50)], 10)?;
    let values = (slow.value(4), fast.value(4));
    let alone = slow.look(4);
    let parts = [slow, fast];
    let sum = look_at(&parts, 4);
    let [_, _] = parts;
    assert_eq!(rt; values, (2, 20));
    assert_eq!(rt; alone, look(2, 5, 3));
    assert_eq!(rt; sum, look(22, 4, 27));
    Ok(())
}

fn look(value: u64, last: u64, next: u64) -> Look {
    Look { value, last, next }
}
