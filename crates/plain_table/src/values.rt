//! The groups of a tree, as the filling of one table asks for them.

ghost use Rattle.plain_table.specs.Values.{values_of};

use mpfa_fill::GroupValues;
use policy_tree::PolicyTree;

/// What each group of a tree may have at a share, under the demands that are set. It tells no
/// bounds, so that each value is asked for.
#[derive(Drop)]
pub struct PlainValues<'a> {
    pub tree: &'a PolicyTree,
}

impl GroupValues for PlainValues<'_> {
    ghost meaning = { λ values. values_of values.tree.now };

    fn groups(&self) -> u32 {
        self.tree.groups()
    }

    fn top(&self) -> u64 {
        self.tree.top()
    }

    fn value(&self, group: u32, share: u64) -> u64 {
        self.tree.group_value(group, share)
    }

    fn ceiling(&self, _group: u32, _share: u64) -> Option<u64> {
        None
    }

    fn floor(&self, _group: u32, _share: u64, _most: u64) -> Option<u64> {
        None
    }

    fn is_full(&self, _group: u32, _share: u64, _most: u64) -> bool {
        false
    }

    fn last_share_within(&self, _group: u32, _amount: u64) -> Option<u64> {
        None
    }

    fn is_searched(&self, _group: u32) -> bool {
        false
    }
}
