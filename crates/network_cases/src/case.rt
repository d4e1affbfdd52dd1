//! A network with all that is filled over it.

ghost use Rattle.std.specs.Prelude.{◌≡◌, ◌<◌, ◌↔◌, length, All, IfSome, IfOk, IsTrue};
ghost use Rattle.path_groups.specs.Plan.{IsBuiltOn};

use crate::slopes::Slopes;
use bwe_specs::{GroupSpec, PathSpec};
use mpfa_fill::GroupValues;
use path_groups::{PathError, PathPlan};
use std::alloc::Global;
use wan_topology::Topology;

/// A network, its groups' path groups, and how the groups rise.
#[derive(Drop)]
pub struct Case {
    pub topology: Topology,
    pub plan: PathPlan,
    pub values: Slopes,
    ghost built_on: { IsBuiltOn topology plan },
    ghost each_group: { length values.slopes.items ≡ length plan },
}

/// The case of the groups over the topology; `None` where a link number is out of range, or where
/// the values are not those of so many groups.
pub fn case_of(
    alloc: Global,
    topology: Topology,
    groups: Vec<GroupSpec>,
    values: Slopes,
) -> Result<Option<Case>, PathError> {
    let Some(plan) = plan_over(alloc, &topology, groups) else {
        return Ok(None);
    };
    let plan = plan?;
    if values.groups() != plan.groups() {
        return Ok(None);
    }
    Ok(Some(Case {
        topology,
        plan,
        values,
    }))
}

// The plan of the groups over the topology; `None` where a link number is out of range or there are
// too many groups.
fn plan_over(
    alloc: Global,
    topology: &Topology,
    groups: Vec<GroupSpec>,
) -> Option<Result<PathPlan, PathError>>
    ensures { IfSome result (λ plan. IfOk plan (IsBuiltOn topology.now)) }
{
    let links = topology.links();
    if groups.len() > 1_024 || !groups_in_range(groups.as_slice(), links) {
        return None;
    }
    Some(PathPlan::build(alloc, topology, groups))
}

fn groups_in_range(groups: &[GroupSpec], links: u32) -> bool
    ensures { IsTrue result ↔ All (λ group. All (λ place. All (λ path.
        All (λ link. link < links) path.links.items) place.items) group.places.items) groups.now }
{
    groups.iter().all(|group| group_in_range(group, links))
}

fn group_in_range(group: &GroupSpec, links: u32) -> bool
    ensures { IsTrue result ↔ All (λ place. All (λ path.
        All (λ link. link < links) path.links.items) place.items) group.now.places.items }
{
    group
        .places
        .iter()
        .all(|place| place_in_range(place.as_slice(), links))
}

fn place_in_range(paths: &[PathSpec], links: u32) -> bool
    ensures { IsTrue result ↔ All (λ path. All (λ link. link < links) path.links.items) paths.now }
{
    paths.iter().all(|path| path_in_range(path, links))
}

fn path_in_range(path: &PathSpec, links: u32) -> bool
    ensures { IsTrue result ↔ All (λ link. link < links) path.now.links.items }
{
    path.links.iter().all(|link| *link < links)
}
