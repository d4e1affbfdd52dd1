//! All groups' amounts, handed down to the tasks.

ghost use Rattle.std.specs.Prelude.{◌≡◌, ◌++◌, ◌<◌, ◌≤◌, ℕ, IfOk, OnOk, flat_map, length, map, slice_index, zip};
ghost use Rattle.bwe_specs.specs.Tree.{cluster_limits};
ghost use Rattle.policy_tree.specs.Trees.{demand_in, value_in};

use crate::{TaskLimit, distribute};
use bwe_specs::OutOfMemory;
use policy_tree::PolicyTree;
use std::alloc::{AllocError, Global};

/// Each task's limit, in the order of their numbers, where the groups have these amounts. All are
/// kilobits per second.
///
/// No clause says when memory runs out.
pub fn all_limits(
    alloc: Global,
    tree: &PolicyTree,
    amounts: &[u64],
) -> Result<Vec<u64>, OutOfMemory>
    requires amounts { length amounts.now ≡ length tree.now.clusters }
    requires within { (group : ℕ) → group < length tree.now.clusters
        → slice_index amounts.now group ≤ value_in tree.now group tree.now.top }
    ensures { IfOk result (λ limits. limits.items
        ≡ flat_map (λ given. cluster_limits tree.now.top (demand_in tree.now) given.0 given.1)
        (zip tree.now.clusters amounts.now)) }
{
    let mut limits = Vec::new(alloc);
    for group in 0..tree.groups() {
        let entries = distribute(alloc, tree, group, amounts[group as usize])?;
        push_limits(&mut limits, &entries)?;
    }
    Ok(limits)
}

/// Puts the limits of the entries at the end.
pub fn push_limits(limits: &mut Vec<u64>, entries: &[TaskLimit]) -> Result<(), AllocError>
    ensures { OnOk result
        (limits.new.items ≡ limits.old.items ++ map (λ entry. entry.limit) entries.now) }
{
    for entry in entries {
        limits.push(entry.limit)?;
    }
    Ok(())
}
