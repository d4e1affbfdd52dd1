//! What of a cluster is told by all that it has at some share, `most`.

ghost use Rattle.std.specs.Prelude.{◌≡◌, ℕ, ◌≤◌, IsTrue};
ghost use Rattle.policy_tree.specs.States.{cluster_meaning};

use crate::ceiling::is_full_at;
use crate::floor::floor_within;
use policy_tree::ClusterNode;

/// Whether it is told to have at a share all that it has at a higher one, `most`.
pub(crate) fn is_cluster_full(cluster: &ClusterNode, share: u64, most: u64) -> bool
    ensures { IsTrue result → (higher : ℕ) → share ≤ higher
        → most ≡ cluster_meaning cluster.now higher → cluster_meaning cluster.now share ≡ most }
{
    is_full_at(cluster.function(), &cluster.siblings(), share, most)
}

/// No more than the value at a share, in kilobits per second, where it is told to have `most` at
/// some share. It takes no search.
pub(crate) fn cluster_floor(cluster: &ClusterNode, share: u64, most: u64) -> u64
    ensures { (other : ℕ) → most ≡ cluster_meaning cluster.now other
        → result ≤ cluster_meaning cluster.now share }
{
    floor_within(cluster.function(), &cluster.siblings(), share, most)
}
