//! The children of a node.

ghost use Rattle.std.specs.Prelude.{◌≡◌, ℕ, map};
ghost use Rattle.bwe_specs.specs.Distribution.{children_sum};
ghost use Rattle.function_sum.specs.Meaning.{IsMeaning};

use function_sum::{Look, Outline, ShareFunction, Stretch, look_at, near_sum, sum_at};

/// Nodes that are the children of one, so that their sum is a share function, and its outline.
#[derive(Drop)]
pub struct Siblings<'a, C: ShareFunction> {
    pub nodes: &'a [C],
    pub outline: &'a Outline,
    ghost is: { IsMeaning (children_sum (map C.meaning nodes.now)) },
}

impl<C: ShareFunction> ShareFunction for Siblings<'_, C> {
    ghost meaning = { λ siblings. children_sum (map C.meaning siblings.nodes.now) };

    fn value(&self, share: u64) -> u64 {
        sum_at(self.nodes, share)
    }

    fn look(&self, share: u64) -> Look {
        look_at(self.nodes, share)
    }

    fn last_share_within(&self, amount: u64, top: u64) -> Option<u64> {
        if self.nodes.len() == 1 {
            self.nodes[0].last_share_within(amount, top)
        } else {
            None
        }
    }

    fn near(&self, share: u64) -> u64 {
        if self.outline.is_empty() {
            near_sum(self.nodes, share)
        } else {
            self.outline.near(share)
        }
    }

    fn add_bends(&self, outline: &mut Outline) {
        if !self.outline.is_empty() {
            outline.add_outline(self.outline);
            return;
        }
        for node in self.nodes {
            node.add_bends(outline);
        }
    }

    fn stretch(&self, amount: u64) -> Option<Stretch> {
        if !self.outline.is_empty() {
            return Some(self.outline.stretch(amount));
        }
        match self.nodes.first() {
            Some(node) => node.stretch(amount),
            None => None,
        }
    }
}
