//! What all groups may have at one share, worked out on threads.
//!
//! The top call asks `values_at` for the line `levels`, and the allocator for what all groups may
//! have at the greatest share; a caller without threads asks `values_in_turn` and gets the same
//! list. Each piece of the groups is one thread's, and no more threads are started than rayon has
//! pieces: two for each processor. That more than one thread works is promised by no clause, nor is
//! time.
#![tactic(auto)]

ghost use Rattle.std.specs.Prelude.{◌≡◌, ◌<◌, ◌≤◌, IfOk, length};
ghost use Rattle.policy_tree.specs.Trees.{value_in};
ghost use Rattle.parallel_values.specs.Levels.{levels_in};

use bwe_specs::OutOfMemory;
use policy_tree::PolicyTree;
use rayon::prelude::*;
use std::alloc::Global;
use std::thread::Threads;

/// What each group of the tree may have at the share, in kilobits per second, in the order of the
/// groups.
///
/// The values are cheap where `rematch` came after the last demand. The list is the same however
/// many threads work on it.
pub fn values_at<R: Threads + Sync>(
    rt: &R,
    alloc: Global,
    tree: &PolicyTree,
    share: u64,
) -> Result<Vec<u64>, OutOfMemory>
    requires { share ≤ tree.now.top }
    ensures { IfOk result (λ values. values.items ≡ levels_in tree.now share) }
{
    let values = (0..tree.groups())
        .into_par_iter()
        .with_min_len(1)
        .map(
            |group: u32| -> u64
                requires { group < length tree.now.clusters }
                ensures { result ≡ value_in tree.entry.now group share }
            { tree.group_value(group, share) },
        )
        .collect(rt, alloc)?;
    Ok(values)
}

/// The same list, of one group after the other.
pub fn values_in_turn(alloc: Global, tree: &PolicyTree, share: u64) -> Result<Vec<u64>, OutOfMemory>
    ensures { IfOk result (λ values. values.items ≡ levels_in tree.now share) }
{
    let mut values = Vec::with_capacity(alloc, tree.groups() as usize)?;
    for group in 0..tree.groups() {
        values.push(tree.group_value(group, share))?;
    }
    Ok(values)
}
