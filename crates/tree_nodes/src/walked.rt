//! Nodes by their numbers: a node comes before the nodes under it, and those in their order.

ghost use Rattle.std.specs.Prelude.{◌≡◌, ℕ, ◌+◌, ◌-◌, ◌^◌, ◌<◌, ◌≤◌, ◌++◌, List, length, map, flat_map, sum_by, IfOk, OnOk};
ghost use Rattle.std.specs.List.{range_with_len};
ghost use Rattle.bwe_specs.specs.Lists.{lists_of};
ghost use Rattle.policy_tree.specs.States.{job_tasks, user_tasks, cluster_tasks};
ghost use Rattle.policy_tree.specs.Numbering.{numbered_clusters};
ghost use Rattle.policy_tree.specs.Sizes.{job_size, user_size, cluster_size};
ghost use Rattle.policy_tree.specs.Walk.{Node, walk};
ghost use Rattle.tree_nodes.specs.Children.{numbers_from, child_lists, all_nodes, nodes_of_job, nodes_of_user, nodes_of_cluster};
ghost use Rattle.tree_nodes.specs.Seen.{Seen, job_seen, user_seen, cluster_seen, IsKindAt, IsValueAt};

use crate::kind::Kind;
use bwe_specs::{MAX_TASKS, OutOfMemory};
use function_sum::ShareFunction;
use policy_tree::{ClusterNode, JobNode, UserNode};
use std::alloc::Global;

/// A node with all nodes under it.
pub(crate) trait Walked {
    ghost seen: { Self → List Seen };

    ghost size: { Self → ℕ };

    ghost tasks: { Self → ℕ };

    ghost nodes: { Self → ℕ → List Node };

    /// How many nodes these are.
    fn count(&self) -> u32
        requires { size self.now < 2 ^ 32 }
        ensures { result ≡ size self.now };

    /// Puts the numbers of the children at the end: of this node, and of each under it.
    ///
    /// Tasks are numbered from `task` on. The answer is the number after the last one.
    fn push_children(
        &self,
        alloc: Global,
        children: &mut Vec<Vec<u32>>,
        task: u32,
    ) -> Result<u32, OutOfMemory>
        requires room { length children.old.items + size self.now < 2 ^ 32 }
        requires tasks { task + tasks self.now < 2 ^ 32 }
        ensures next { IfOk result (λ next. next ≡ task + tasks self.now) }
        ensures count { OnOk result (length children.new.items
            ≡ length children.old.items + size self.now) }
        ensures lists { OnOk result (lists_of children.new.items ≡ lists_of children.old.items
            ++ child_lists (length children.old.items) (nodes self.now task)) };

    /// The kind of the one at a place, or how far the place lies past them.
    fn kind(&self, place: u32) -> Result<Kind, u32>
        ensures { IsKindAt result place (seen self.now) };

    /// The value of the one at a place, or how far the place lies past them.
    fn value_at(&self, place: u32, share: u64) -> Result<u64, u32>
        ensures { IsValueAt share result place (seen self.now) };
}

impl Walked for JobNode {
    ghost seen = { job_seen };

    ghost size = { job_size };

    ghost tasks = { job_tasks };

    ghost nodes = { nodes_of_job };

    fn count(&self) -> u32 {
        1
    }

    fn push_children(
        &self,
        alloc: Global,
        children: &mut Vec<Vec<u32>>,
        task: u32,
    ) -> Result<u32, OutOfMemory> {
        let next = task + self.sum().tasks();
        let numbers = task_numbers(alloc, task, next)?;
        children.push(numbers)?;
        Ok(next)
    }

    fn kind(&self, place: u32) -> Result<Kind, u32> {
        if place == 0 {
            return Ok(Kind::Job);
        }
        Err(place - 1)
    }

    fn value_at(&self, place: u32, share: u64) -> Result<u64, u32> {
        if place == 0 {
            return Ok(self.value(share));
        }
        Err(place - 1)
    }
}

impl Walked for UserNode {
    ghost seen = { user_seen };

    ghost size = { user_size };

    ghost tasks = { user_tasks };

    ghost nodes = { nodes_of_user };

    fn count(&self) -> u32 {
        1 + count_of(self.jobs())
    }

    fn push_children(
        &self,
        alloc: Global,
        children: &mut Vec<Vec<u32>>,
        task: u32,
    ) -> Result<u32, OutOfMemory> {
        let numbers = numbers_of(alloc, self.jobs(), children.len() as u32 + 1)?;
        children.push(numbers)?;
        push_all_children(alloc, self.jobs(), children, task)
    }

    fn kind(&self, place: u32) -> Result<Kind, u32> {
        if place == 0 {
            return Ok(Kind::User);
        }
        kind_among(self.jobs(), place - 1)
    }

    fn value_at(&self, place: u32, share: u64) -> Result<u64, u32> {
        if place == 0 {
            return Ok(self.value(share));
        }
        value_among(self.jobs(), place - 1, share)
    }
}

impl Walked for ClusterNode {
    ghost seen = { cluster_seen };

    ghost size = { cluster_size };

    ghost tasks = { cluster_tasks };

    ghost nodes = { nodes_of_cluster };

    fn count(&self) -> u32 {
        1 + count_of(self.users())
    }

    fn push_children(
        &self,
        alloc: Global,
        children: &mut Vec<Vec<u32>>,
        task: u32,
    ) -> Result<u32, OutOfMemory> {
        let numbers = numbers_of(alloc, self.users(), children.len() as u32 + 1)?;
        children.push(numbers)?;
        push_all_children(alloc, self.users(), children, task)
    }

    fn kind(&self, place: u32) -> Result<Kind, u32> {
        if place == 0 {
            return Ok(Kind::Cluster);
        }
        kind_among(self.users(), place - 1)
    }

    fn value_at(&self, place: u32, share: u64) -> Result<u64, u32> {
        if place == 0 {
            return Ok(self.value(share));
        }
        value_among(self.users(), place - 1, share)
    }
}

/// The numbers of the children of each node of a tree, in the order of the nodes' numbers.
pub(crate) fn children_of(
    alloc: Global,
    clusters: &[ClusterNode],
) -> Result<Vec<Vec<u32>>, OutOfMemory>
    requires nodes { length (walk (numbered_clusters clusters.now)) < 2 ^ 32 }
    requires tasks { sum_by cluster_tasks clusters.now ≤ MAX_TASKS }
    ensures { IfOk result (λ children.
        lists_of children.items ≡ child_lists 0 (walk (numbered_clusters clusters.now))) }
{
    let mut children = Vec::new(alloc);
    push_all_children(alloc, clusters, &mut children, 0)?;
    Ok(children)
}

/// How many nodes there are, with all under them.
pub(crate) fn count_of<N: Walked>(nodes: &[N]) -> u32
    requires { sum_by N.size nodes.now < 2 ^ 32 }
    ensures { result ≡ sum_by N.size nodes.now }
{
    let mut count = 0;
    for node in nodes {
        count += node.count();
    }
    count
}

/// The kind of the one at a place among nodes and all under them, or how far the place lies past.
pub(crate) fn kind_among<N: Walked>(nodes: &[N], place: u32) -> Result<Kind, u32>
    ensures { IsKindAt result place (flat_map N.seen nodes.now) }
{
    let mut past = place;
    for node in nodes {
        match node.kind(past) {
            Ok(kind) => return Ok(kind),
            Err(further) => past = further,
        }
    }
    Err(past)
}

/// Its value, or how far.
pub(crate) fn value_among<N: Walked>(nodes: &[N], place: u32, share: u64) -> Result<u64, u32>
    ensures { IsValueAt share result place (flat_map N.seen nodes.now) }
{
    let mut past = place;
    for node in nodes {
        match node.value_at(past, share) {
            Ok(value) => return Ok(value),
            Err(further) => past = further,
        }
    }
    Err(past)
}

/// Puts the numbers of the children of all nodes at the end, and of each under them.
pub(crate) fn push_all_children<N: Walked>(
    alloc: Global,
    nodes: &[N],
    children: &mut Vec<Vec<u32>>,
    task: u32,
) -> Result<u32, OutOfMemory>
    requires room { length children.old.items + sum_by N.size nodes.now < 2 ^ 32 }
    requires tasks { task + sum_by N.tasks nodes.now < 2 ^ 32 }
    ensures next { IfOk result (λ next. next ≡ task + sum_by N.tasks nodes.now) }
    ensures count { OnOk result (length children.new.items
        ≡ length children.old.items + sum_by N.size nodes.now) }
    ensures lists { OnOk result (lists_of children.new.items ≡ lists_of children.old.items
        ++ child_lists (length children.old.items) (all_nodes N.tasks N.nodes task nodes.now)) }
{
    let mut next = task;
    for node in nodes {
        next = node.push_children(alloc, children, next)?;
    }
    Ok(next)
}

// The numbers of nodes, where the first one has this number.
fn numbers_of<N: Walked>(alloc: Global, nodes: &[N], first: u32) -> Result<Vec<u32>, OutOfMemory>
    requires { first + sum_by N.size nodes.now < 2 ^ 32 }
    ensures { IfOk result (λ numbers. numbers.items ≡ numbers_from first (map N.size nodes.now)) }
{
    let mut numbers = Vec::new(alloc);
    let mut next = first;
    for node in nodes {
        numbers.push(next)?;
        next += node.count();
    }
    Ok(numbers)
}

// The numbers of tasks from the first to before the next.
fn task_numbers(alloc: Global, first: u32, next: u32) -> Result<Vec<u32>, OutOfMemory>
    requires { first ≤ next }
    ensures { IfOk result (λ numbers. numbers.items ≡ range_with_len first (next - first)) }
{
    let mut numbers = Vec::new(alloc);
    for task in first..next {
        numbers.push(task)?;
    }
    Ok(numbers)
}
