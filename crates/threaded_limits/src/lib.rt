//! Groups' amounts, handed down to their tasks on threads.
//!
//! The allocator calls `all_limits_on_threads` for a table that it makes on threads: the limits are
//! those of `all_limits` of `push_down`, by the same clause. Each group's amount is handed down by
//! `distribute` on the thread that has its piece of the groups, and then the limits of the groups
//! are put behind each other in their order. That more than one thread works is promised by no
//! clause, nor is time.
#![tactic(auto)]

ghost use Rattle.std.specs.Prelude.{◌≡◌, ◌<◌, ◌≤◌, ℕ, IfOk, flat_map, length, slice_index, zip};
ghost use Rattle.std.specs.List.{AllZip};
ghost use Rattle.bwe_specs.specs.Tree.{cluster_limits};
ghost use Rattle.policy_tree.specs.Nodes.{cluster_in};
ghost use Rattle.policy_tree.specs.Trees.{demand_in, value_in};

use bwe_specs::OutOfMemory;
use policy_tree::PolicyTree;
use push_down::{distribute, push_limits};
use rayon::prelude::*;
use std::alloc::Global;
use std::thread::Threads;

/// The limits of `all_limits`, worked out on threads, a piece of the groups on each.
///
/// No more threads are started than rayon has pieces: two for each processor. That more than one
/// works is promised by no clause, nor is time.
pub fn all_limits_on_threads<R: Threads + Sync>(
    rt: &R,
    alloc: Global,
    tree: &PolicyTree,
    amounts: &[u64],
) -> Result<Vec<u64>, OutOfMemory>
    requires amounts { length amounts.now ≡ length tree.now.clusters }
    requires within { (group : ℕ) → group < length tree.now.clusters
        → slice_index amounts.now group ≤ value_in tree.now group tree.now.top }
    ensures { IfOk result (λ limits. limits.items
        ≡ flat_map (λ given. cluster_limits tree.now.top (demand_in tree.now) given.0 given.1)
        (zip tree.now.clusters amounts.now)) }
{
    let lists = limits_by_group(rt, alloc, tree, amounts)?;
    let mut limits = Vec::with_capacity(alloc, tree.tasks() as usize)?;
    for list in &lists {
        limits.extend_from_slice(list.as_slice())?;
    }
    Ok(limits)
}

// The limits of each group, worked out on threads.
fn limits_by_group<R: Threads + Sync>(
    rt: &R,
    alloc: Global,
    tree: &PolicyTree,
    amounts: &[u64],
) -> Result<Vec<Vec<u64>>, OutOfMemory>
    requires amounts { length amounts.now ≡ length tree.now.clusters }
    requires within { (group : ℕ) → group < length tree.now.clusters
        → slice_index amounts.now group ≤ value_in tree.now group tree.now.top }
    ensures { IfOk result (λ lists. AllZip (λ given list. list.items
        ≡ cluster_limits tree.now.top (demand_in tree.now) given.0 given.1)
        (zip tree.now.clusters amounts.now) lists.items) }
{
    (0..tree.groups())
        .into_par_iter()
        .with_min_len(1)
        .map(
            |group: u32| -> Result<Vec<u64>, OutOfMemory>
                requires { (group < length tree.now.clusters) × (group < length amounts.now)
                    × (slice_index amounts.now group ≤ value_in tree.now group tree.now.top) }
                ensures { IfOk result (λ limits. limits.items
                    ≡ cluster_limits tree.entry.now.top (demand_in tree.entry.now)
                    (cluster_in tree.entry.now group) (slice_index amounts.entry.now group)) }
            { group_limits(alloc, tree, group, amounts[group as usize]) },
        )
        .collect(rt, alloc)?
}

// The limits of a group's tasks.
fn group_limits(
    alloc: Global,
    tree: &PolicyTree,
    group: u32,
    amount: u64,
) -> Result<Vec<u64>, OutOfMemory>
    requires group { group < length tree.now.clusters }
    requires amount { amount ≤ value_in tree.now group tree.now.top }
    ensures { IfOk result (λ limits. limits.items
        ≡ cluster_limits tree.now.top (demand_in tree.now) (cluster_in tree.now group) amount) }
{
    let entries = distribute(alloc, tree, group, amount)?;
    let mut limits = Vec::with_capacity(alloc, entries.len())?;
    push_limits(&mut limits, &entries)?;
    Ok(limits)
}
