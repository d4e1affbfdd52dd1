//! The first fault of what a tree is to be built of.

ghost use Rattle.std.specs.Prelude.{◌≡◌, ℕ, ◌+◌, ◌^◌, ◌<◌, ◌≤◌, Bool, List, ◌∷◌, [], length, flat_map, sum_by, IfOk};
ghost use Rattle.policy_tree.specs.Asked.{job_weights, user_weights, cluster_weights};
ghost use Rattle.policy_tree.specs.Childless.{job_childless, user_childless, cluster_childless, clusters_of, AreFirstsOf, IsCounted};
ghost use Rattle.policy_tree.specs.Trees.{task_numbers};
ghost use Rattle.policy_tree.specs.Walk.{walk, tree_fault};

use bwe_specs::{MAX_TASKS, OutOfMemory};
use std::alloc::Global;
use tree_spec::{ClusterSpec, JobSpec, TreeFault, UserSpec};

/// The first fault of a tree of these clusters.
pub(crate) fn fault_of(clusters: &[ClusterSpec]) -> Option<TreeFault>
    requires nodes { length (walk (clusters_of clusters.now)) < 2 ^ 32 }
    requires tasks { length (task_numbers (clusters_of clusters.now)) < 2 ^ 64 }
    ensures { result ≡ tree_fault (clusters_of clusters.now) }
{
    if let Err(fault) = after_all(clusters, 0) {
        return Some(fault);
    }
    let count = tasks_of(clusters);
    if count > MAX_TASKS {
        return Some(TreeFault::TooManyTasks { count });
    }
    None
}

/// A node of a spec, with all nodes under it.
trait Counted {
    ghost childless: { Self → List Bool };

    ghost weights: { Self → ℕ };

    /// The number after those of these nodes, or the first of them that has no child.
    fn after(&self, node: u32) -> Result<u32, TreeFault>
        requires { node + length (childless self.now) < 2 ^ 32 }
        ensures { IsCounted result node (childless self.now) };

    /// How many tasks there are under the node.
    fn tasks(&self) -> u64
        requires { weights self.now < 2 ^ 64 }
        ensures { result ≡ weights self.now };
}

impl Counted for JobSpec {
    ghost childless = { job_childless };

    ghost weights = { job_weights };

    fn after(&self, node: u32) -> Result<u32, TreeFault> {
        after_node(self.weights.is_empty(), node)
    }

    fn tasks(&self) -> u64 {
        self.weights.len() as u64
    }
}

impl Counted for UserSpec {
    ghost childless = { user_childless };

    ghost weights = { user_weights };

    fn after(&self, node: u32) -> Result<u32, TreeFault> {
        let next = after_node(self.jobs.is_empty(), node)?;
        after_all(self.jobs.as_slice(), next)
    }

    fn tasks(&self) -> u64 {
        tasks_of(self.jobs.as_slice())
    }
}

impl Counted for ClusterSpec {
    ghost childless = { cluster_childless };

    ghost weights = { cluster_weights };

    fn after(&self, node: u32) -> Result<u32, TreeFault> {
        let next = after_node(self.users.is_empty(), node)?;
        after_all(self.users.as_slice(), next)
    }

    fn tasks(&self) -> u64 {
        tasks_of(self.users.as_slice())
    }
}

/// For each cluster how many tasks come before its first.
pub(crate) fn firsts_of(alloc: Global, clusters: &[ClusterSpec]) -> Result<Vec<u32>, OutOfMemory>
    requires { sum_by cluster_weights clusters.now ≤ MAX_TASKS }
    ensures { IfOk result (AreFirstsOf clusters.now) }
{
    let mut firsts = Vec::new(alloc);
    let mut first = 0;
    for cluster in clusters {
        firsts.push(first as u32)?;
        first += cluster.tasks();
    }
    Ok(firsts)
}

// The number after a node, or the node's fault.
fn after_node(is_childless: bool, node: u32) -> Result<u32, TreeFault>
    requires { node + 1 < 2 ^ 32 }
    ensures { IsCounted result node (is_childless ∷ []) }
{
    if is_childless {
        return Err(TreeFault::EmptyNode { node });
    }
    Ok(node + 1)
}

// The number after those of these nodes and all nodes under them, or the first that has no child.
fn after_all<N: Counted>(nodes: &[N], first: u32) -> Result<u32, TreeFault>
    requires { first + length (flat_map N.childless nodes.now) < 2 ^ 32 }
    ensures { IsCounted result first (flat_map N.childless nodes.now) }
{
    let mut next = first;
    for node in nodes {
        next = node.after(next)?;
    }
    Ok(next)
}

// How many tasks there are under these nodes.
fn tasks_of<N: Counted>(nodes: &[N]) -> u64
    requires { sum_by N.weights nodes.now < 2 ^ 64 }
    ensures { result ≡ sum_by N.weights nodes.now }
{
    let mut tasks = 0;
    for node in nodes {
        tasks += node.tasks();
    }
    tasks
}
