//! Up to which share a link fits, where it takes no search.

ghost use Rattle.std.specs.Prelude.{◌≡◌, ◌+◌, ◌*◌, ◌<◌, ◌≤◌, ◌∷◌, [], suc, length, slice_index, IfSome};
ghost use Rattle.std.specs.Int.{div_ceil};
ghost use Rattle.bwe_specs.specs.Paths.{link_load};
ghost use Rattle.bwe_specs.specs.RightClosings.{last_share, amounts_at};
ghost use Rattle.path_groups.specs.Parts.{IsPart};
ghost use Rattle.mpfa_fill.specs.GroupValues.{Values};
ghost use Rattle.mpfa_fill.specs.Growth.{wan_in, closings_in, added_in, IsGrowth, AreTermsOn};

use bwe_specs::MAX_TOTAL;
use mpfa_fill::{GroupValues, Growth, Term};
use path_groups::LinkPart;

/// The last share at which a link fits, over which one group grows, if that is from `low` on and
/// below `high`. It is asked of the group's values in one question, and `None` where they do not
/// tell it.
pub fn last_fit<V: GroupValues>(
    growth: &Growth<'_, V>,
    term: Term,
    link: u32,
    low: u64,
    high: u64,
) -> Option<u64>
    requires growth { IsGrowth V.meaning growth.now }
    requires link { link < length (wan_in V.meaning growth.now).capacities }
    requires terms { AreTermsOn (wan_in V.meaning growth.now) (closings_in growth.now)
        (added_in growth.now) link (term ∷ []) }
    requires last { last_share (closings_in growth.now) ≤ low }
    requires within { high ≤ (wan_in V.meaning growth.now).top }
    ensures from { IfSome result (λ last. low ≤ last) }
    ensures below { IfSome result (λ last. last < high) }
    ensures fits { let wan = wan_in V.meaning growth.now in IfSome result (λ last.
        link_load wan.groups (amounts_at wan (closings_in growth.now) last) link
        ≤ slice_index wan.capacities link) }
    ensures over { let wan = wan_in V.meaning growth.now in IfSome result (λ last.
        slice_index wan.capacities link
        < link_load wan.groups (amounts_at wan (closings_in growth.now) (suc last)) link) }
{
    let others = growth.load(link).checked_sub(term.held)?;
    let room = growth.capacity(link).checked_sub(others)?;
    let most = most_within(term.part, room)?;
    let value = most.checked_add(term.value)?.checked_sub(term.amount)?;
    let last = growth.values().last_share_within(term.group, value)?;
    if last < low || high <= last {
        return None;
    }
    Some(last)
}

// The greatest amount of which the link carries no more than there is room for.
fn most_within(part: LinkPart, room: u64) -> Option<u64>
    requires { IsPart part }
    ensures small { IfSome result (λ most. most < MAX_TOTAL) }
    ensures fits { IfSome result (λ most. div_ceil (most * part.weight) part.whole ≤ room) }
    ensures over { IfSome result (λ most. room
        < div_ceil ((most + 1) * part.weight) part.whole) }
{
    let most = about_within(part, room)?;
    if most >= MAX_TOTAL {
        return None;
    }
    if part.load(most) > room || part.load(most + 1) <= room {
        return None;
    }
    Some(most)
}

// The same, by a division that is not proved to be it.
fn about_within(part: LinkPart, room: u64) -> Option<u64> {
    if part.weight == part.whole {
        return Some(room);
    }
    let most = (room as u128)
        .saturating_mul(part.whole as u128)
        .checked_div(part.weight as u128)?;
    u64::try_from(most).ok()
}
