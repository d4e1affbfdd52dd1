//! What a growth puts on a link.

ghost use Rattle.std.specs.Prelude.{◌≡◌, ◌+◌, ◌-◌, ◌<◌, ◌≤◌, length, IfSome};
ghost use Rattle.bwe_specs.specs.Paths.{path_group_at, path_group_count, load_on, link_load};
ghost use Rattle.bwe_specs.specs.RightClosings.{last_share, amounts_at};
ghost use Rattle.link_sums.specs.Sums.{IsSummedOver};
ghost use Rattle.mpfa_fill.specs.GroupValues.{Values};
ghost use Rattle.mpfa_fill.specs.Growth.{wan_in, closings_in, added_in, IsGrowth, AreTermsOn};

use bwe_specs::MAX_TOTAL;
use mpfa_fill::{Asked, GroupValues, Growth, Term};

/// A load that tells whether that load is at most so much: no less than it where it is, and
/// else no more than it, but above so much. Where the ceilings of the groups' values tell, or
/// else the floors, no value is asked for.
pub fn load_within<V: GroupValues>(
    growth: &Growth<'_, V>,
    terms: &[Term],
    link: u32,
    share: u64,
    most: u128,
) -> u128
    requires growth { IsGrowth V.meaning growth.now }
    requires link { link < length (wan_in V.meaning growth.now).capacities }
    requires terms { AreTermsOn (wan_in V.meaning growth.now) (closings_in growth.now)
        (added_in growth.now) link terms.now }
    requires last { last_share (closings_in growth.now) ≤ share }
    requires within { share ≤ (wan_in V.meaning growth.now).top }
    ensures within { let wan = wan_in V.meaning growth.now in result ≤ most
        → link_load wan.groups (amounts_at wan (closings_in growth.now) share) link ≤ result }
    ensures above { let wan = wan_in V.meaning growth.now in most < result
        → result ≤ link_load wan.groups (amounts_at wan (closings_in growth.now) share) link }
{
    let (high, is_exact) = growth.load_by(terms, link, share, Asked::AtMost);
    if is_exact || high <= most {
        return high;
    }
    let (low, _) = growth.load_by(terms, link, share, Asked::AtLeast);
    if low > most {
        return low;
    }
    growth.load_at(terms, link, share)
}

/// What was added of the group on the path group puts so much on the link.
pub fn load_now<V: GroupValues>(growth: &Growth<'_, V>, group: u32, place: u32, link: u32) -> u64
    requires summed { IsSummedOver growth.now.plan.now growth.now.sums }
    requires group { group < length growth.now.plan.now }
    requires place { place < path_group_count growth.now.plan.now group }
    ensures { result
        ≡ load_on (path_group_at growth.now.plan.now group place) link
        (added_in growth.now group place) }
{
    let amount = growth.amount(group, place);
    growth.plan().load(group, place, link, amount)
}

/// What the group would put on the link at a share, if it grew on the path group from a value
/// on; or `None` where the share is above the top, or more than any amount.
pub fn load_then<V: GroupValues>(
    growth: &Growth<'_, V>,
    group: u32,
    place: u32,
    value: u64,
    share: u64,
    link: u32,
) -> Option<u64>
    requires summed { IsSummedOver growth.now.plan.now growth.now.sums }
    requires groups { (V.meaning growth.now.values.now).groups ≡ length growth.now.plan.now }
    requires group { group < length growth.now.plan.now }
    requires place { place < path_group_count growth.now.plan.now group }
    ensures { IfSome result (λ load. load
        ≡ load_on (path_group_at growth.now.plan.now group place) link
        (added_in growth.now group place
        + ((wan_in V.meaning growth.now).value group share - value))) }
{
    if share > growth.values().top() {
        return None;
    }
    let gain = growth.values().value(group, share).saturating_sub(value);
    let amount = growth.amount(group, place).saturating_add(gain);
    if amount > MAX_TOTAL {
        return None;
    }
    Some(growth.plan().load(group, place, link, amount))
}
