//! The groups of a tier, as the filling asks for them.

ghost use Rattle.std.specs.Prelude.{◌≡◌};
ghost use Rattle.tiers.specs.Tiered.{is_in_tier};
ghost use Rattle.tiers.specs.Fillings.{values_of_tier};

use mpfa_fill::GroupValues;
use policy_tree::PolicyTree;
use tree_bounds::{group_ceiling, group_floor, group_last_share_within, is_full, is_searched};

/// What each group may have at a share in the filling of one tier, under the demands of a tree: its
/// value where it is one of the tier, and 0 else.
#[derive(Drop)]
pub(crate) struct TierValues<'a> {
    pub(crate) tree: &'a PolicyTree,
    pub(crate) tiers: &'a [u8],
    pub(crate) tier: u32,
}

impl GroupValues for TierValues<'_> {
    ghost meaning = { λ values. values_of_tier values.tree.now values.tiers.now values.tier };

    fn groups(&self) -> u32 {
        self.tree.groups()
    }

    fn top(&self) -> u64 {
        self.tree.top()
    }

    fn value(&self, group: u32, share: u64) -> u64 {
        if is_in_tier(self.tiers, self.tier, group) {
            self.tree.group_value(group, share)
        } else {
            0
        }
    }

    fn ceiling(&self, group: u32, share: u64) -> Option<u64> {
        if is_in_tier(self.tiers, self.tier, group) {
            group_ceiling(self.tree, group, share)
        } else {
            None
        }
    }

    fn floor(&self, group: u32, share: u64, most: u64) -> Option<u64> {
        if is_in_tier(self.tiers, self.tier, group) {
            group_floor(self.tree, group, share, most)
        } else {
            None
        }
    }

    fn is_full(&self, group: u32, share: u64, most: u64) -> bool {
        is_in_tier(self.tiers, self.tier, group) && is_full(self.tree, group, share, most)
    }

    fn last_share_within(&self, group: u32, amount: u64) -> Option<u64> {
        if is_in_tier(self.tiers, self.tier, group) {
            group_last_share_within(self.tree, group, amount)
        } else {
            None
        }
    }

    fn is_searched(&self, group: u32) -> bool {
        is_in_tier(self.tiers, self.tier, group) && is_searched(self.tree, group)
    }
}

// Whether the group is one of the tier.
fn is_in_tier(tiers: &[u8], tier: u32, group: u32) -> bool
    ensures { result ≡ is_in_tier tiers.now tier group }
{
    let group = group as usize;
    group < tiers.len() && u32::from(tiers[group]) == tier
}
