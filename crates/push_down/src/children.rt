//! The children of a node, each with its value at a share.

ghost use Rattle.std.specs.Prelude.{◌≡◌, ℕ, ◌<◌, ◌≤◌, List, length, map, nat_le, slice_index_or};
ghost use Rattle.bwe_specs.specs.Bounded.{greatest_upto};
ghost use Rattle.bwe_specs.specs.Distribution.{children_sum};
ghost use Rattle.tree_spec.specs.Tasks.{AreInRange};
ghost use Rattle.function_sum.specs.Meaning.{IsMeaning};
ghost use Rattle.push_down.specs.Limits.{tasks_values};

use bwe_specs::{MAX_SHARE, MAX_TOTAL};
use capped_sum::CappedSum;
use function_sum::{ShareFunction, sum_at};
use policy_tree::Siblings;
use share_meeting::meeting_of;

/// The children of a node, in their order.
pub(crate) trait Children {
    ghost values: { Self → List (ℕ → ℕ) };

    /// How many there are.
    fn count(&self) -> usize
        ensures { result ≡ length (values self.now) };

    /// What they may have together at a share.
    fn sum(&self, share: u64) -> u64
        ensures sum { result ≡ children_sum (values self.now) share }
        ensures meaning { IsMeaning (children_sum (values self.now)) };

    /// The greatest share up to `top` at which they may have together at most so much.
    fn last_share_within(&self, amount: u64, top: u64) -> u64
        requires { top ≤ MAX_SHARE }
        ensures last { result ≡ greatest_upto top (λ share.
            nat_le (children_sum (values self.now) share) amount) }
        ensures meaning { IsMeaning (children_sum (values self.now)) };

    /// What one of them may have at a share.
    fn value(&self, place: usize, share: u64) -> u64
        requires { place < length (values self.now) }
        ensures value { result ≡ slice_index_or (values self.now) place (λ share. 0) share }
        ensures bound { result ≤ MAX_TOTAL };
}

impl<C: ShareFunction> Children for Siblings<'_, C> {
    ghost values = { λ children. map C.meaning children.nodes.now };

    fn count(&self) -> usize {
        self.nodes.len()
    }

    fn sum(&self, share: u64) -> u64 {
        sum_at(self.nodes, share)
    }

    fn last_share_within(&self, amount: u64, top: u64) -> u64 {
        meeting_of(self, amount, top).share
    }

    fn value(&self, place: usize, share: u64) -> u64 {
        self.nodes[place].value(share)
    }
}

/// The tasks of a job.
#[derive(Drop)]
pub(crate) struct Tasks<'a> {
    pub(crate) sum: &'a CappedSum,
    ghost in_range: { AreInRange sum.now.tasks },
}

impl Children for Tasks<'_> {
    ghost values = { λ children. tasks_values children.sum.now };

    fn count(&self) -> usize {
        self.sum.tasks() as usize
    }

    fn sum(&self, share: u64) -> u64 {
        self.sum.value(share)
    }

    fn last_share_within(&self, amount: u64, top: u64) -> u64 {
        meeting_of(self.sum, amount, top).share
    }

    fn value(&self, place: usize, share: u64) -> u64 {
        let task = place as u32;
        let most = self.sum.weight(task) as u128 * self.sum.function().value(share) as u128;
        most.min(self.sum.demand(task) as u128) as u64
    }
}
