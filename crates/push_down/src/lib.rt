//! Groups' amounts, handed down to their tasks.
//!
//! The allocator calls `all_limits` once for a table, also for one of tiers: each group's amount is
//! handed down by `distribute`, and the limits stand in the order of the tasks' numbers.
//! `threaded_limits`, which hands down the amounts of several groups beside each other, calls
//! `distribute` and `push_limits`.
//! `distribute` goes down the tree level by level: a node's amount is given to its children by the
//! Distribution rule, and what is left over goes to them in their order. The limits add up to the
//! amount (the Conservation law). Of a job the common share of its tasks is told by the index of
//! their demands, without a search; of another node it is looked for along the outline of its
//! children, with at most 62 looks at them. Then each child is asked for its value there, and at
//! the next share while something is left. It takes memory for the limits alone. Nothing is
//! promised of which amounts groups get: that is the solvers' promise.
#![tactic(auto)]

ghost use Rattle.std.specs.Prelude.{◌≡◌, ℕ, ◌+◌, ◌*◌, ◌<◌, ◌≤◌, length, map, sum, IfOk};
ghost use Rattle.std.specs.List.{range_with_len};
ghost use Rattle.bwe_specs.specs.Tree.{cluster_limits};
ghost use Rattle.policy_tree.specs.Nodes.{cluster_in};
ghost use Rattle.policy_tree.specs.States.{cluster_tasks};
ghost use Rattle.policy_tree.specs.Trees.{demand_in, value_in, cluster_numbers};
ghost use Rattle.push_down.specs.Limits.{limits_of_job, limits_of_user, limits_of_cluster, tasks_in, limits_in};

mod children;
mod groups;
mod share;

use bwe_specs::{MAX_SHARE, MAX_TASKS, MAX_TOTAL, OutOfMemory};
use children::Tasks;
pub use groups::{all_limits, push_limits};
use policy_tree::{ClusterNode, JobNode, PolicyTree, UserNode};
use share::shared_out;
use std::alloc::Global;

/// What a task may send, in kilobits per second.
#[derive(Clone, Copy, Debug, PartialEq, Eq, Drop)]
pub struct TaskLimit {
    pub task: u32,
    pub limit: u64,
}

/// The limits of a group's tasks, in the order of their numbers ("Distribution rule",
/// docs/DEFINITIONS.md).
///
/// `amount` is what the group has, at most its value at the top, in kilobits per second. No clause
/// says when memory runs out.
pub fn distribute(
    alloc: Global,
    tree: &PolicyTree,
    group: u32,
    amount: u64,
) -> Result<Vec<TaskLimit>, OutOfMemory>
    requires group { group < length tree.now.clusters }
    requires amount { amount ≤ value_in tree.now group tree.now.top }

    ensures limits { IfOk result (λ limits. limits_in limits.items
        ≡ cluster_limits tree.now.top (demand_in tree.now) (cluster_in tree.now group) amount) }
    ensures tasks { IfOk result (λ limits. tasks_in limits.items
        ≡ cluster_numbers (cluster_in tree.now group)) }
    // The Conservation law.
    ensures total { IfOk result (λ limits. sum (limits_in limits.items) ≡ amount) }
{
    let top = tree.top();
    let first = tree.first_task(group);
    let limits = cluster_limits_of(alloc, tree.cluster(group), top, amount)?;
    numbered(alloc, first, limits.as_slice())
}

// The limits of a cluster's tasks.
fn cluster_limits_of(
    alloc: Global,
    cluster: &ClusterNode,
    top: u64,
    amount: u64,
) -> Result<Vec<u64>, OutOfMemory>
    requires top { top ≤ MAX_SHARE }
    requires amount { amount ≤ MAX_TOTAL }
    ensures { IfOk result (λ limits. limits.items ≡ limits_of_cluster top cluster.now amount) }
{
    let users = cluster.users();
    let amounts = shared_out(alloc, &cluster.siblings(), top, amount)?;
    let mut limits = Vec::new(alloc);
    for (place, user) in users.iter().enumerate() {
        let below = user_limits_of(alloc, user, top, amounts[place])?;
        limits.extend_from_slice(below.as_slice())?;
    }
    Ok(limits)
}

// The limits of a user's tasks. What is known of an amount grows by `MAX_TOTAL` a level.
fn user_limits_of(
    alloc: Global,
    user: &UserNode,
    top: u64,
    amount: u64,
) -> Result<Vec<u64>, OutOfMemory>
    requires top { top ≤ MAX_SHARE }
    requires amount { amount ≤ 2 * MAX_TOTAL }
    ensures { IfOk result (λ limits. limits.items ≡ limits_of_user top user.now amount) }
{
    let jobs = user.jobs();
    let amounts = shared_out(alloc, &user.siblings(), top, amount)?;
    let mut limits = Vec::new(alloc);
    for (place, job) in jobs.iter().enumerate() {
        let below = job_limits_of(alloc, job, top, amounts[place])?;
        limits.extend_from_slice(below.as_slice())?;
    }
    Ok(limits)
}

// The limits of a job's tasks.
fn job_limits_of(
    alloc: Global,
    job: &JobNode,
    top: u64,
    amount: u64,
) -> Result<Vec<u64>, OutOfMemory>
    requires top { top ≤ MAX_SHARE }
    requires amount { amount ≤ 3 * MAX_TOTAL }
    ensures { IfOk result (λ limits. limits.items ≡ limits_of_job top job.now amount) }
{
    let tasks = Tasks { sum: job.sum() };
    shared_out(alloc, &tasks, top, amount)
}

// The limits with the numbers of their tasks, which go on from the first.
fn numbered(alloc: Global, first: u32, limits: &[u64]) -> Result<Vec<TaskLimit>, OutOfMemory>
    requires { first + length limits.now ≤ MAX_TASKS }
    ensures limits { IfOk result (λ entries. limits_in entries.items ≡ limits.now) }
    ensures tasks { IfOk result (λ entries.
        tasks_in entries.items ≡ range_with_len first (length limits.now)) }
{
    let mut entries = Vec::with_capacity(alloc, limits.len())?;
    let mut task = first;
    for limit in limits {
        entries.push(TaskLimit {
            task,
            limit: *limit,
        })?;
        task += 1;
    }
    Ok(entries)
}
