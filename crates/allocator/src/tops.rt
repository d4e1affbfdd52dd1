//! The groups of a tree whose values at the greatest share are known.

ghost use Rattle.std.specs.Prelude.{◌≡◌};
ghost use Rattle.parallel_values.specs.Levels.{levels_in};

use mpfa_fill::GroupValues;
use policy_tree::PolicyTree;
use tree_bounds::{group_ceiling, group_floor, group_last_share_within, is_full, is_searched};

/// What each group of a tree may have at a share, where that at the greatest share, in kilobits per
/// second, is known. A filling asks for it at its begin, at its end, and where it looks at a link
/// there first.
#[derive(Drop)]
pub(crate) struct ToppedValues<'a> {
    pub(crate) tree: &'a PolicyTree,
    pub(crate) tops: &'a [u64],
    ghost known: { tops.now ≡ levels_in tree.now tree.now.top },
}

impl GroupValues for ToppedValues<'_> {
    ghost use Rattle.plain_table.specs.Values.{values_of};

    ghost meaning = { λ values. values_of values.tree.now };

    fn groups(&self) -> u32 {
        self.tree.groups()
    }

    fn top(&self) -> u64 {
        self.tree.top()
    }

    fn value(&self, group: u32, share: u64) -> u64 {
        if share == self.tree.top() {
            self.tops[group as usize]
        } else {
            self.tree.group_value(group, share)
        }
    }

    fn ceiling(&self, group: u32, share: u64) -> Option<u64> {
        group_ceiling(self.tree, group, share)
    }

    fn floor(&self, group: u32, share: u64, most: u64) -> Option<u64> {
        group_floor(self.tree, group, share, most)
    }

    fn is_full(&self, group: u32, share: u64, most: u64) -> bool {
        is_full(self.tree, group, share, most)
    }

    fn last_share_within(&self, group: u32, amount: u64) -> Option<u64> {
        group_last_share_within(self.tree, group, amount)
    }

    fn is_searched(&self, group: u32) -> bool {
        is_searched(self.tree, group)
    }
}
