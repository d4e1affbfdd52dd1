//! Floors: no more than a value, found without a search.

ghost use Rattle.std.specs.Prelude.{◌≡◌, ℕ, ◌≤◌, map, Some};
ghost use Rattle.bwe_specs.specs.Distribution.{children_sum};
ghost use Rattle.bw_function.specs.Rise.{RisesAtMost};
ghost use Rattle.function_sum.specs.Meaning.{IsMeaning};
ghost use Rattle.policy_tree.specs.States.{transformed};

use bw_function::BwFunction;
use capped_sum::CappedSum;
use function_sum::ShareFunction;
use policy_tree::{JobNode, Siblings, UserNode};

/// A share function that tells how high its values are at least, and how steep it is at most.
pub(crate) trait Floor: ShareFunction {
    /// No more than the value at a share, in kilobits per second, found without a search.
    fn floor(&self, share: u64) -> u64
        ensures { result ≤ Self.meaning self.now share };

    /// By how much the value rises at most from one share to the next, in kilobits per second.
    fn steepest(&self) -> u64
        ensures { RisesAtMost (Self.meaning self.now) result };
}

impl Floor for CappedSum {
    // The value itself, which needs no share to be searched for.
    fn floor(&self, share: u64) -> u64 {
        self.value(share)
    }

    fn steepest(&self) -> u64 {
        CappedSum::steepest(self)
    }
}

impl Floor for JobNode {
    fn floor(&self, share: u64) -> u64 {
        floor_at(self.function(), self.sum(), share)
    }

    fn steepest(&self) -> u64 {
        steepest_at(self.function(), self.sum())
    }
}

impl Floor for UserNode {
    fn floor(&self, share: u64) -> u64 {
        floor_at(self.function(), &self.siblings(), share)
    }

    fn steepest(&self) -> u64 {
        steepest_at(self.function(), &self.siblings())
    }
}

impl<C: Floor> Floor for Siblings<'_, C> {
    fn floor(&self, share: u64) -> u64 {
        floor_sum(self.nodes, share)
    }

    fn steepest(&self) -> u64 {
        steepest_sum(self.nodes)
    }
}

// No more than a node's value at a share: what its configured function gives there, and at most
// what the children have at the top at least, less what they may rise; or without such a function
// what they have there at least.
fn floor_at<P: Floor>(function: &Option<BwFunction>, sum: &P, share: u64) -> u64
    requires { IsMeaning (P.meaning sum.now) }
    ensures { result ≤ transformed function.now (P.meaning sum.now) share }
{
    match function {
        None => sum.floor(share),
        Some(parent) => floor_by_parent(parent, sum, share, sum.floor(parent.top())),
    }
}

/// The same by `most` in place of the children's floor at the top: what the node has at some share.
pub(crate) fn floor_within<P: Floor>(
    function: &Option<BwFunction>,
    sum: &P,
    share: u64,
    most: u64,
) -> u64
    requires { IsMeaning (P.meaning sum.now) }
    ensures { (other : ℕ) → most ≡ transformed function.now (P.meaning sum.now) other
        → result ≤ transformed function.now (P.meaning sum.now) share }
{
    match function {
        None => sum.floor(share),
        Some(parent) => floor_by_parent(parent, sum, share, most),
    }
}

// No more than the value under a configured function: what that gives, and at most `most`, which
// the children have at the top, less what they may rise from one share to the next. Else the next
// inner share would do too.
fn floor_by_parent<P: Floor>(parent: &BwFunction, sum: &P, share: u64, most: u64) -> u64
    requires { IsMeaning (P.meaning sum.now) }
    ensures { most ≤ P.meaning sum.now parent.now.top
        → result ≤ transformed (Some parent.now) (P.meaning sum.now) share }
{
    parent.value(share).min(most).saturating_sub(sum.steepest())
}

// By how much a node's value rises at most from one share to the next: as its configured function
// and its children together.
fn steepest_at<P: Floor>(function: &Option<BwFunction>, sum: &P) -> u64
    requires { IsMeaning (P.meaning sum.now) }
    ensures { RisesAtMost (transformed function.now (P.meaning sum.now)) result }
{
    match function {
        None => sum.steepest(),
        Some(parent) => parent.steepest().saturating_add(sum.steepest()),
    }
}

// No more than the sum of the nodes' values at a share.
fn floor_sum<C: Floor>(nodes: &[C], share: u64) -> u64
    ensures { result ≤ children_sum (map C.meaning nodes.now) share }
{
    let mut sum: u64 = 0;
    for node in nodes {
        sum = sum.saturating_add(node.floor(share));
    }
    sum
}

// By how much the sum of the nodes' values rises at most from one share to the next.
fn steepest_sum<C: Floor>(nodes: &[C]) -> u64
    requires { IsMeaning (children_sum (map C.meaning nodes.now)) }
    ensures { RisesAtMost (children_sum (map C.meaning nodes.now)) result }
{
    let mut sum: u64 = 0;
    for node in nodes {
        sum = sum.saturating_add(node.steepest());
    }
    sum
}
