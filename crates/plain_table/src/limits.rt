//! The limits of tasks.

ghost use Rattle.std.specs.Prelude.{◌≡◌, ℕ, ◌<◌, ◌≤◌, length, map, flat_map, zip, slice_index, IfOk};
ghost use Rattle.bwe_specs.specs.Tree.{cluster_limits};
ghost use Rattle.policy_tree.specs.Trees.{demand_in, value_in};

use bwe_specs::OutOfMemory;
use limit_table::GroupLine;
use policy_tree::PolicyTree;
use push_down::all_limits;
use std::alloc::Global;

/// Each task's limit, where the groups have the amounts of these rows. All are kilobits per second.
pub fn limits_of(
    alloc: Global,
    tree: &PolicyTree,
    groups: &[GroupLine],
) -> Result<Vec<u64>, OutOfMemory>
    requires groups { length groups.now ≡ length tree.now.clusters }
    requires within { (group : ℕ) → group < length tree.now.clusters
        → slice_index (map (λ line. line.amount) groups.now) group
        ≤ value_in tree.now group tree.now.top }
    ensures { IfOk result (λ limits. limits.items
        ≡ flat_map (λ given. cluster_limits tree.now.top (demand_in tree.now) given.0 given.1)
        (zip tree.now.clusters (map (λ line. line.amount) groups.now))) }
{
    let amounts = amounts_of(alloc, groups)?;
    all_limits(alloc, tree, &amounts)
}

/// The amounts of these rows, in kilobits per second.
pub fn amounts_of(alloc: Global, groups: &[GroupLine]) -> Result<Vec<u64>, OutOfMemory>
    ensures { IfOk result (λ amounts. amounts.items ≡ map (λ line. line.amount) groups.now) }
{
    let mut amounts = Vec::with_capacity(alloc, groups.len())?;
    for line in groups {
        amounts.push(line.amount)?;
    }
    Ok(amounts)
}
