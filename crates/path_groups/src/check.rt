//! The first fault of groups.

ghost use Rattle.std.specs.Prelude.{◌≡◌, ℕ, ◌==◌, ◌<◌, ◌≤◌, All, List, length, map, string_bytes};
ghost use Rattle.std.specs.List.{list_any};
ghost use Rattle.bwe_specs.specs.Given.{AreInRange, path_of, path_group_of, group_of, groups_of};
ghost use Rattle.path_groups.specs.Faults.{leads as leads_of, is_chain as is_chain_of, repeats as repeats_of, path_fault, path_group_fault, group_fault, plan_fault};
ghost use Rattle.path_groups.specs.Faults.{first_fault as first_fault_of};

use crate::fault::PathFault;
use bwe_specs::{
    GroupSpec, MAX_GROUPS, MAX_HOPS, MAX_PATH_GROUPS, MAX_PATHS, MAX_WEIGHT, PathSpec,
};
use wan_topology::Topology;

/// The first fault of the groups.
pub(crate) fn first_fault(topology: &Topology, groups: &[GroupSpec]) -> Option<PathFault>
    requires few { length groups.now ≤ MAX_GROUPS }
    requires in_range { AreInRange (length topology.now.capacities) (groups_of groups.now) }
    ensures { result ≡ plan_fault topology.now (groups_of groups.now) }
{
    for (group, spec) in groups.iter().enumerate() {
        if let Some(fault) = fault_of_group(topology, group as u32, spec) {
            return Some(fault);
        }
    }
    None
}

// The fault of the group of this number.
fn fault_of_group(topology: &Topology, group: u32, spec: &GroupSpec) -> Option<PathFault>
    requires { All (All (λ path. All (λ link. link < length topology.now.capacities) path.links))
        (group_of spec.now).path_groups }
    ensures { result ≡ group_fault topology.now group (group_of spec.now) }
{
    if spec.places.len() as u64 > MAX_PATH_GROUPS {
        return Some(PathFault::TooManyPathGroups { group });
    }
    if spec.places.is_empty() {
        return Some(PathFault::NoPath { group, place: 0 });
    }
    for (place, paths) in spec.places.iter().enumerate() {
        if let Some(fault) = fault_of_path_group(topology, group, spec, place as u32, paths) {
            return Some(fault);
        }
    }
    None
}

// The fault of the path group at this place of the group.
fn fault_of_path_group(
    topology: &Topology,
    group: u32,
    spec: &GroupSpec,
    place: u32,
    paths: &[PathSpec],
) -> Option<PathFault>
    requires { All (λ path. All (λ link. link < length topology.now.capacities) path.links)
        (map path_of paths.now) }
    ensures { result
        ≡ path_group_fault topology.now group (group_of spec.now) place (map path_of paths.now) }
{
    if paths.is_empty() {
        return Some(PathFault::NoPath { group, place });
    }
    if paths.len() as u64 > MAX_PATHS {
        return Some(PathFault::TooManyPaths { group, place });
    }
    for (number, path) in paths.iter().enumerate() {
        if let Some(fault) = fault_of_path(topology, group, spec, place, number as u32, path) {
            return Some(fault);
        }
    }
    None
}

// The fault of the path of this number.
fn fault_of_path(
    topology: &Topology,
    group: u32,
    spec: &GroupSpec,
    place: u32,
    number: u32,
    path: &PathSpec,
) -> Option<PathFault>
    requires { All (λ link. link < length topology.now.capacities) path.now.links.items }
    ensures { result
        ≡ path_fault topology.now group (group_of spec.now) place number (path_of path.now) }
{
    if path.links.len() as u64 > MAX_HOPS {
        return Some(PathFault::TooManyHops {
            group,
            place,
            path: number,
        });
    }
    if path.weight < 1 || path.weight > MAX_WEIGHT {
        return Some(PathFault::WeightRange {
            group,
            place,
            path: number,
        });
    }
    if !is_chain(topology, &spec.from, &spec.to, &path.links) {
        return Some(PathFault::BrokenPath {
            group,
            place,
            path: number,
        });
    }
    if repeats(&path.links) {
        return Some(PathFault::RepeatedHop {
            group,
            place,
            path: number,
        });
    }
    None
}

// Whether there are links, and they lead from a site to another.
fn is_chain(topology: &Topology, from: &str, to: &str, links: &[u32]) -> bool
    requires { All (λ link. link < length topology.now.capacities) links.now }
    ensures { result ≡ is_chain_of topology.now from.now to.now links.now }
{
    !links.is_empty() && leads(topology, from, to, links)
}

// Whether each link starts where the one before ended, from the one site to the other.
fn leads<'a>(topology: &'a Topology, from: &'a str, to: &str, links: &[u32]) -> bool
    requires { All (λ link. link < length topology.now.capacities) links.now }
    ensures { result ≡ leads_of topology.now from.now to.now links.now }
{
    let mut site = from;
    for link in links {
        if topology.from(*link) != site {
            return false;
        }
        site = topology.to(*link);
    }
    site == to
}

// Whether some link stands twice.
fn repeats(links: &[u32]) -> bool
    ensures { result ≡ repeats_of links.now }
{
    for hop in 0..links.len() {
        let link = links[hop];
        if stands_in(&links[hop + 1..], link) {
            return true;
        }
    }
    false
}

// Whether the link is one of these.
fn stands_in(links: &[u32], link: u32) -> bool
    ensures { result ≡ list_any (λ other. other == link) links.now }
{
    links.contains(&link)
}
