//! One group of a growth, at one link.

ghost use Rattle.std.specs.Prelude.{◌≡◌, ℕ, ◌<◌, ◌≤◌, ◌∷◌, [], false, not, length, slice_index_or, MatchOption};
ghost use Rattle.bwe_specs.specs.Paths.{path_group_at, path_group_count, uses, is_open, current_path_group};
ghost use Rattle.bwe_specs.specs.Filling.{closed_links};
ghost use Rattle.bwe_specs.specs.RightClosings.{last_share};
ghost use Rattle.path_groups.specs.Parts.{IsPartOn, IsUseOf};
ghost use Rattle.mpfa_fill.specs.GroupValues.{Values};
ghost use Rattle.mpfa_fill.specs.LastFit.{GrowsNotOver, GrowsOver};
ghost use Rattle.mpfa_fill.specs.Growth.{wan_in, closings_in, added_in, standing_at, IsUpOver, KeepsParts, IsGrowth, IsTermOf};

use mpfa_fill::{GroupValues, Growth, Standing, Term, ValueAt};
use path_groups::{LinkPart, LinkUse, PathPlan};

/// Adds what the group has at the share, if it grows over the link.
pub fn bring_up_over<V: GroupValues>(growth: &mut Growth<'_, V>, group: u32, link: u32, share: u64)
    requires group { group < length growth.old.plan.now }
    requires growth { IsGrowth V.meaning growth.old }
    requires last { last_share (closings_in growth.old) ≤ share }
    requires within { share ≤ (wan_in V.meaning growth.old).top }
    ensures growth { IsGrowth V.meaning growth.new }
    ensures wan { wan_in V.meaning growth.new ≡ wan_in V.meaning growth.old }
    ensures parts { KeepsParts growth.old growth.new }
    ensures up { IsUpOver (wan_in V.meaning growth.old) link share group
        (standing_at growth.new group) }
    ensures others { (other : ℕ) → (other ≡ group → ⊥)
        → standing_at growth.new other ≡ standing_at growth.old other }
{
    if let Standing::Grows { place, .. } = growth.standing(group)
        && growth.plan().uses(group, place, link)
    {
        growth.bring_up(group, share);
    }
}

/// The path group on which the group grows, if that uses the link.
pub fn place_over<V: GroupValues>(growth: &Growth<'_, V>, group: u32, link: u32) -> Option<u32>
    requires growth { IsGrowth V.meaning growth.now }
    requires group { group < length growth.now.plan.now }
    ensures { MatchOption result
        (GrowsNotOver (wan_in V.meaning growth.now) (closings_in growth.now) link group)
        (GrowsOver (wan_in V.meaning growth.now) (closings_in growth.now) link group) }
{
    let Standing::Grows { place, .. } = growth.standing(group) else {
        return None;
    };
    if !growth.plan().uses(group, place, link) {
        return None;
    }
    Some(place)
}

/// The path group on which the group would go on if this link were closed too.
pub fn next_place<V: GroupValues>(growth: &Growth<'_, V>, group: u32, link: u32) -> Option<u32>
    requires { group < length growth.now.plan.now }
    ensures { result ≡ current_path_group (slice_index_or growth.now.plan.now group [])
        (link ∷ closed_links (closings_in growth.now)) }
{
    for place in 0..growth.plan().places(group) {
        if !is_shut(growth, group, place, link) {
            return Some(place);
        }
    }
    None
}

// Whether the path group uses the link or one that was closed.
fn is_shut<V: GroupValues>(growth: &Growth<'_, V>, group: u32, place: u32, link: u32) -> bool
    requires group { group < length growth.now.plan.now }
    requires place { place < path_group_count growth.now.plan.now group }
    ensures { is_open (link ∷ closed_links (closings_in growth.now))
        (path_group_at growth.now.plan.now group place) ≡ not result }
{
    let is_used = growth.plan().uses(group, place, link);
    let is_closed = growth.uses_closed(group, place);
    is_used || is_closed
}

/// The term of the group if it grows over the link, where the group's value at one share is known,
/// and a path group of its that uses the link. The plan is read only where the group grows on
/// another that may use the link too.
pub fn term_of_use<V: GroupValues>(
    growth: &Growth<'_, V>,
    group: u32,
    link: u32,
    link_use: LinkUse,
    known: ValueAt,
) -> Option<Term>
    requires growth { IsGrowth V.meaning growth.now }
    requires group { group < length growth.now.plan.now }
    requires used { IsUseOf growth.now.plan.now link group link_use }
    requires known { known.value ≡ (wan_in V.meaning growth.now).value group known.share }
    ensures { MatchOption result
        (GrowsNotOver (wan_in V.meaning growth.now) (closings_in growth.now) link group)
        (IsTermOf (wan_in V.meaning growth.now) (closings_in growth.now) (added_in growth.now)
        link group) }
{
    let Standing::Grows { place, value } = growth.standing(group) else {
        return None;
    };
    let part = part_by_use(growth.plan(), group, place, link, link_use)?;
    Some(growth.term(group, place, value, part, Some(known)))
}

// What the link carries of a path group of the group, if that uses the link. Of one of the group's
// path groups it is known that it does.
fn part_by_use(
    plan: &PathPlan,
    group: u32,
    place: u32,
    link: u32,
    link_use: LinkUse,
) -> Option<LinkPart>
    requires group { group < length plan.now }
    requires place { place < path_group_count plan.now group }
    requires used { IsUseOf plan.now link group link_use }
    ensures { MatchOption result (uses (path_group_at plan.now group place) link ≡ false)
        (IsPartOn (path_group_at plan.now group place) link) }
{
    if place == link_use.place {
        Some(link_use.part)
    } else if link_use.is_only {
        None
    } else {
        plan.part(group, place, link)
    }
}
