//! The worked case of levels.

use super::made::{ask_each, one_task};
use parallel_values::values_at;
use policy_tree::{PolicyTree, TreeSpec};
use std::test::Fail;

// The case "Levels at 90": two groups of slope 1 that ask for 80 each.
#[test]
fn a_group_has_no_more_than_it_asks_for(rt: HostRuntime) -> Result<(), Fail> {
    let alloc = rt.alloc();
    let clusters = vec![in alloc; one_task(alloc, 1)?, one_task(alloc, 1)?]?;
    let mut tree = PolicyTree::build(alloc, TreeSpec { top: 100, clusters })?;
    ask_each(&mut tree, 80)?;
    for (share, value) in [(0, 0), (40, 40), (90, 80)] {
        assert!(rt; share <= tree.top());
        let values = values_at(&rt, alloc, &tree, share)?;
        assert_eq!(rt; values.as_slice(), [value, value].as_slice());
    }
    Ok(())
}
