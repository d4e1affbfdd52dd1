//! The group of a task, and what a changed demand drops.

ghost use Rattle.std.specs.Prelude.{◌≡◌, ◌<◌, ℕ, Contains, length};
ghost use Rattle.policy_tree.specs.Nodes.{cluster_in};
ghost use Rattle.policy_tree.specs.Trees.{asking, cluster_numbers};
ghost use Rattle.kept_tree.specs.Known.{AreKnown};

use crate::group::KnownGroup;
use policy_tree::PolicyTree;

/// Drops what is kept of the group of a task. What is left is right whatever the task asks for.
pub(crate) fn forget_owner(known: &mut [KnownGroup], tree: &PolicyTree, task: u32)
    requires task { task < length tree.now.demands }
    requires known { AreKnown tree.now known.old }
    ensures known { AreKnown tree.now known.new }
    ensures asking { (demand : ℕ) → AreKnown (asking tree.now task demand) known.new }
{
    let group = owner_of(tree, task);
    known[group as usize].forget();
}

/// The group that has the task.
fn owner_of(tree: &PolicyTree, task: u32) -> u32
    requires { task < length tree.now.demands }
    ensures within { result < length tree.now.clusters }
    ensures owner { (group : ℕ) → group < length tree.now.clusters
        → Contains (cluster_numbers (cluster_in tree.now group)) task → group ≡ result }
{
    tree.what_holds();
    let mut low = 0;
    let mut high = tree.groups();
    while high - low > 1 {
        let middle = low + (high - low) / 2;
        if tree.first_task(middle) <= task {
            low = middle;
        } else {
            high = middle;
        }
    }
    low
}
