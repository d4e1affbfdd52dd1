//! The groups of a tree, as fillings ask for them: values, and bounds that take no search.
//!
//! The allocator gives out `TreeValues` of its tree, and the command `check` asks for them. They
//! mean what `PlainValues` of `plain_table` mean, and tell bounds too (`tree_bounds`), so that many
//! values need not be asked for. Nothing is promised of time.
#![tactic(auto)]

ghost use Rattle.plain_table.specs.Values.{values_of};

use mpfa_fill::GroupValues;
use policy_tree::PolicyTree;
use tree_bounds::{group_ceiling, group_floor, group_last_share_within, is_full, is_searched};

/// What each group of a tree may have at a share, under the demands that are set.
#[derive(Drop)]
pub struct TreeValues<'a> {
    pub tree: &'a PolicyTree,
}

impl GroupValues for TreeValues<'_> {
    ghost meaning = { λ values. values_of values.tree.now };

    fn groups(&self) -> u32 {
        self.tree.groups()
    }

    fn top(&self) -> u64 {
        self.tree.top()
    }

    fn value(&self, group: u32, share: u64) -> u64 {
        self.tree.group_value(group, share)
    }

    fn ceiling(&self, group: u32, share: u64) -> Option<u64> {
        group_ceiling(self.tree, group, share)
    }

    fn floor(&self, group: u32, share: u64, most: u64) -> Option<u64> {
        group_floor(self.tree, group, share, most)
    }

    fn is_full(&self, group: u32, share: u64, most: u64) -> bool {
        is_full(self.tree, group, share, most)
    }

    fn last_share_within(&self, group: u32, amount: u64) -> Option<u64> {
        group_last_share_within(self.tree, group, amount)
    }

    fn is_searched(&self, group: u32) -> bool {
        is_searched(self.tree, group)
    }
}
