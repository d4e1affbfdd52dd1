//! Ceilings: no less than a value, found without a search; and whether a value is the greatest.

ghost use Rattle.std.specs.Prelude.{◌≡◌, ℕ, ◌≤◌, map, IsTrue};
ghost use Rattle.bwe_specs.specs.Distribution.{children_sum};
ghost use Rattle.function_sum.specs.Meaning.{IsMeaning};
ghost use Rattle.policy_tree.specs.States.{transformed, IsKeptFunction};

use bw_function::BwFunction;
use bwe_specs::MAX_TOTAL;
use capped_sum::CappedSum;
use function_sum::ShareFunction;
use policy_tree::{ClusterNode, JobNode, Siblings, UserNode};

/// A share function that tells how high its values are at most.
pub(crate) trait Ceiling: ShareFunction {
    /// No less than the value at a share, in kilobits per second, found without a search.
    fn ceiling(&self, share: u64) -> u64
        ensures { Self.meaning self.now share ≤ result };
}

impl Ceiling for CappedSum {
    // The value itself, which needs no share to be searched for.
    fn ceiling(&self, share: u64) -> u64 {
        self.value(share)
    }
}

impl Ceiling for JobNode {
    fn ceiling(&self, share: u64) -> u64 {
        near_ceiling_at(self.function(), self.sum(), share)
    }
}

impl Ceiling for UserNode {
    fn ceiling(&self, share: u64) -> u64 {
        near_ceiling_at(self.function(), &self.siblings(), share)
    }
}

impl Ceiling for ClusterNode {
    fn ceiling(&self, share: u64) -> u64 {
        ceiling_at(self.function(), &self.siblings(), share)
    }
}

impl<C: Ceiling> Ceiling for Siblings<'_, C> {
    fn ceiling(&self, share: u64) -> u64 {
        ceiling_sum(self.nodes, share)
    }
}

// No less than a node's value at a share: what its configured function gives there, or without one
// what the children have there at most.
fn ceiling_at<P: Ceiling>(function: &Option<BwFunction>, sum: &P, share: u64) -> u64
    requires { IsMeaning (P.meaning sum.now) }
    ensures { transformed function.now (P.meaning sum.now) share ≤ result }
{
    match function {
        None => sum.ceiling(share),
        Some(parent) => parent.value(share),
    }
}

// The same, and no more than what the children have at the top at most: nearer where all of them
// have all that they may have.
fn near_ceiling_at<P: Ceiling>(function: &Option<BwFunction>, sum: &P, share: u64) -> u64
    requires { IsMeaning (P.meaning sum.now) }
    ensures { transformed function.now (P.meaning sum.now) share ≤ result }
{
    match function {
        None => sum.ceiling(share),
        Some(parent) => parent.value(share).min(sum.ceiling(parent.top())),
    }
}

/// Whether a node is told to have at a share all that it has at a higher one, `most`: where its
/// configured function gives no less there.
pub(crate) fn is_full_at<P: ShareFunction>(
    function: &Option<BwFunction>,
    _sum: &P,
    share: u64,
    most: u64,
) -> bool
    requires function { IsKeptFunction function.now }
    requires sum { IsMeaning (P.meaning _sum.now) }
    ensures { IsTrue result → (higher : ℕ) → share ≤ higher
        → most ≡ transformed function.now (P.meaning _sum.now) higher
        → transformed function.now (P.meaning _sum.now) share ≡ most }
{
    match function {
        None => false,
        Some(parent) => most <= parent.value(share),
    }
}

// No less than the sum of the nodes' values at a share.
fn ceiling_sum<C: Ceiling>(nodes: &[C], share: u64) -> u64
    requires { children_sum (map C.meaning nodes.now) share ≤ MAX_TOTAL }
    ensures { children_sum (map C.meaning nodes.now) share ≤ result }
{
    let mut sum: u64 = 0;
    for node in nodes {
        sum = sum.saturating_add(node.ceiling(share));
    }
    sum
}
