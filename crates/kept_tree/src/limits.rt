//! Amounts, handed down to the tasks of the groups in which something has changed.

ghost use Rattle.std.specs.Prelude.{◌≡◌, ◌++◌, ◌<◌, ◌≤◌, ℕ, IfOk, OnOk, flat_map, length, slice_index, zip};
ghost use Rattle.bwe_specs.specs.Tree.{cluster_limits};
ghost use Rattle.policy_tree.specs.Trees.{demand_in, value_in};
ghost use Rattle.kept_tree.specs.Known.{AreKnown, IsKnown, limits_in};

use crate::group::KnownGroup;
use bwe_specs::OutOfMemory;
use policy_tree::PolicyTree;
use push_down::distribute;
use std::alloc::Global;

/// Each task's limit, in the order of their numbers, where the groups have these amounts. Limits
/// that are kept are copied; others are kept from now on.
pub(crate) fn known_limits(
    alloc: Global,
    tree: &PolicyTree,
    known: &mut [KnownGroup],
    amounts: &[u64],
) -> Result<Vec<u64>, OutOfMemory>
    requires amounts { length amounts.now ≡ length tree.now.clusters }
    requires within { (group : ℕ) → group < length tree.now.clusters
        → slice_index amounts.now group ≤ value_in tree.now group tree.now.top }
    requires known { AreKnown tree.now known.old }
    ensures limits { IfOk result (λ limits. limits.items
        ≡ flat_map (λ given. cluster_limits tree.now.top (demand_in tree.now) given.0 given.1)
        (zip tree.now.clusters amounts.now)) }
    ensures known { AreKnown tree.now known.new }
{
    let mut limits = Vec::with_capacity(alloc, tree.tasks() as usize)?;
    for group in 0..tree.groups() {
        let at = group as usize;
        push_group(alloc, tree, group, amounts[at], &mut known[at], &mut limits)?;
    }
    Ok(limits)
}

// Puts the limits of a group's tasks at the end.
fn push_group(
    alloc: Global,
    tree: &PolicyTree,
    group: u32,
    amount: u64,
    known: &mut KnownGroup,
    limits: &mut Vec<u64>,
) -> Result<(), OutOfMemory>
    requires group { group < length tree.now.clusters }
    requires amount { amount ≤ value_in tree.now group tree.now.top }
    requires known { IsKnown tree.now group known.old }
    ensures pushed { OnOk result
        (limits.new.items ≡ limits.old.items ++ limits_in tree.now group amount) }
    ensures known { IsKnown tree.now group known.new }
{
    if let Some(below) = known.limits(amount) {
        limits.extend_from_slice(below)?;
        return Ok(());
    }
    let below = group_limits(alloc, tree, group, amount)?;
    limits.extend_from_slice(below.as_slice())?;
    known.set_limits(amount, below);
    Ok(())
}

// The limits of a group's tasks.
fn group_limits(
    alloc: Global,
    tree: &PolicyTree,
    group: u32,
    amount: u64,
) -> Result<Vec<u64>, OutOfMemory>
    requires group { group < length tree.now.clusters }
    requires amount { amount ≤ value_in tree.now group tree.now.top }
    ensures { IfOk result (λ limits. limits.items ≡ limits_in tree.now group amount) }
{
    let entries = distribute(alloc, tree, group, amount)?;
    let mut limits = Vec::with_capacity(alloc, entries.len())?;
    for entry in &entries {
        limits.push(entry.limit)?;
    }
    Ok(limits)
}
