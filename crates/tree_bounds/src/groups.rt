//! The bounds of a group of a tree.

ghost use Rattle.std.specs.Prelude.{◌≡◌, ◌<◌, ◌≤◌, length, nat_le, IfSome, IsTrue};
ghost use Rattle.bwe_specs.specs.Bounded.{greatest_upto};
ghost use Rattle.policy_tree.specs.Trees.{value_in};

use crate::ceiling::Ceiling;
use crate::cluster::{cluster_floor, is_cluster_full};
use function_sum::ShareFunction;
use policy_tree::PolicyTree;

/// No less than what a group may have at a share, in kilobits per second, found without a search:
/// what the configured function of its cluster gives there, or without one the sum over its users.
/// A user or a job has what its function gives, and no more than its children have at the top at
/// most. A job without a function has its exact sum. `None` where the group has no configured
/// function: its value takes no search then.
pub fn group_ceiling(tree: &PolicyTree, group: u32, share: u64) -> Option<u64>
    requires { group < length tree.now.clusters }
    ensures { IfSome result (λ ceiling. value_in tree.now group share ≤ ceiling) }
{
    let cluster = tree.cluster(group);
    if !cluster.is_configured() {
        return None;
    }
    Some(cluster.ceiling(share))
}

/// No more than what a group may have at a share, in kilobits per second, found without a search:
/// what the configured function of its cluster gives there, and at most `most`, less what its users
/// may rise from one share to the next; or without such a function the sum of the floors of its
/// users. `None` where the group has no configured function: its value takes no search then. `most`
/// is what the group has at the greatest share.
pub fn group_floor(tree: &PolicyTree, group: u32, share: u64, most: u64) -> Option<u64>
    requires group { group < length tree.now.clusters }
    requires within { share ≤ tree.now.top }
    requires most { most ≡ value_in tree.now group tree.now.top }
    ensures { IfSome result (λ floor. floor ≤ value_in tree.now group share) }
{
    let cluster = tree.cluster(group);
    if !cluster.is_configured() {
        return None;
    }
    Some(cluster_floor(cluster, share, most))
}

/// Whether a group is told to have at a share all that it has at the greatest one, `most`: where
/// the configured function of its cluster gives no less there. It takes no search.
pub fn is_full(tree: &PolicyTree, group: u32, share: u64, most: u64) -> bool
    requires group { group < length tree.now.clusters }
    requires within { share ≤ tree.now.top }
    requires most { most ≡ value_in tree.now group tree.now.top }
    ensures { IsTrue result → value_in tree.now group share ≡ most }
{
    is_cluster_full(tree.cluster(group), share, most)
}

/// The last share up to the greatest one at which a group has at most so much, or `None` where that
/// is not told. A cluster with a configured function tells it by at most one search among its
/// users; without one it is told where the cluster has one user, and the same of users and jobs. A
/// job without a function tells it by its tasks, without a search.
pub fn group_last_share_within(tree: &PolicyTree, group: u32, amount: u64) -> Option<u64>
    requires { group < length tree.now.clusters }
    ensures { IfSome result (λ last. last ≡ greatest_upto tree.now.top
        (λ share. nat_le (value_in tree.now group share) amount)) }
{
    tree.cluster(group).last_share_within(amount, tree.top())
}

/// Whether a function is configured in the group's cluster, so that its value takes a search.
pub fn is_searched(tree: &PolicyTree, group: u32) -> bool
    requires { group < length tree.now.clusters }
{
    tree.cluster(group).is_configured()
}
