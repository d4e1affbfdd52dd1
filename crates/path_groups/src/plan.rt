//! A plan: the path groups of each group.

ghost use Rattle.std.specs.Prelude.{◌≡◌, ℕ, ◌*◌, ◌<◌, ◌≤◌, List, false, length, map, All, IfOk, IfErr, OnOk, MatchOption, None, vec_len};
ghost use Rattle.bwe_specs.specs.Paths.{path_group_at, path_group_count, load_on, uses, weight_of};
ghost use Rattle.bwe_specs.specs.Given.{path_groups_of, AreInRange, path_group_of, groups_of};
ghost use Rattle.path_groups.specs.Faults.{plan_fault, TellsFault};
ghost use Rattle.path_groups.specs.Plan.{IsPlan, IsBuiltOn};
ghost use Rattle.path_groups.specs.Parts.{IsPart, IsPartOn, AreParts};

use crate::check::first_fault;
use crate::fault::PathError;
use crate::part::{LinkPart, has_part, part_on, parts_of};
use bwe_specs::{GroupSpec, MAX_GROUPS, MAX_PATHS, MAX_TOTAL, MAX_WEIGHT, PathSpec};
use std::alloc::{AllocError, Global};
use std::marker::Model;
use wan_topology::Topology;

/// A path group: its paths as they were given, and what each link carries of it.
#[derive(Drop)]
struct PathGroup {
    paths: Vec<PathSpec>,
    parts: Vec<LinkPart>,
}

/// The path groups of each group, by group and place. Contracts see the list of their lists of
/// weighted paths.
#[derive(Drop)]
pub struct PathPlan {
    groups: Vec<Vec<PathGroup>>,
}

impl Model for PathPlan {
    ghost use Rattle.std.specs.Prelude.{List};
    ghost use Rattle.bwe_specs.specs.Paths.{PathGroups};
    ghost use Rattle.path_groups.specs.Plan.{IsPlan};

    ghost Value = { List PathGroups };

    ghost use Rattle.path_groups.specs.Held.{plan_held, AllHoldParts};

    ghost view = { λ plan. plan_held plan.groups.items };

    ghost invariant = { λ plan.
        IsPlan (plan_held plan.groups.items) × AllHoldParts plan.groups.items };
}

impl PathPlan {
    ghost use Rattle.path_groups.specs.Held.{path_groups_held, HoldsParts};

    /// The plan of these groups over the links of the topology.
    ///
    /// The fault that is told is the first one in the order of `PathFault`.
    pub fn build(
        alloc: Global,
        topology: &Topology,
        groups: Vec<GroupSpec>,
    ) -> Result<PathPlan, PathError>
        requires few { vec_len groups ≤ MAX_GROUPS }
        requires in_range { AreInRange (length topology.now.capacities) (groups_of groups.items) }
        ensures built { IfOk result (λ plan. plan ≡ path_groups_of (groups_of groups.items)) }
        ensures built_on { IfOk result (IsBuiltOn topology.now) }
        ensures accepted { OnOk result (plan_fault topology.now (groups_of groups.items) ≡ None) }
        ensures refused { IfErr result
            (TellsFault (plan_fault topology.now (groups_of groups.items))) }
    {
        if let Some(fault) = first_fault(topology, &groups) {
            return Err(PathError::Refused { fault });
        }
        let mut held = Vec::with_capacity(alloc, groups.len())?;
        for group in groups {
            held.push(PathPlan::path_groups(alloc, group.places)?)?;
        }
        Ok(PathPlan { groups: held })
    }

    /// How many groups there are.
    pub fn groups(&self) -> u32
        ensures count { result ≡ length self.now }
        ensures plan { IsPlan self.now }
    {
        self.groups.len() as u32
    }

    /// Does nothing. Who calls it knows what holds of each plan.
    pub fn what_holds(&self)
        ensures { IsPlan self.now }
    {
        let _count = self.groups.len();
    }

    /// How many path groups the group has.
    pub fn places(&self, group: u32) -> u32
        requires { group < length self.now }
        ensures { result ≡ path_group_count self.now group }
    {
        self.groups[group as usize].len() as u32
    }

    /// Whether a path of the path group goes over the link.
    pub fn uses(&self, group: u32, place: u32, link: u32) -> bool
        requires group { group < length self.now }
        requires place { place < path_group_count self.now group }
        ensures { result ≡ uses (path_group_at self.now group place) link }
    {
        has_part(self.parts(group, place), link)
    }

    /// The parts of the links of the path group: one for each link that it uses.
    pub fn parts(&self, group: u32, place: u32) -> &[LinkPart]
        requires group { group < length self.now }
        requires place { place < path_group_count self.now group }
        ensures parts { AreParts (path_group_at self.now group place) result.now }
        ensures each { All IsPart result.now }
    {
        &self.groups[group as usize][place as usize].parts
    }

    /// What the link carries of an amount on the path group, if a path of that goes over it.
    pub fn part(&self, group: u32, place: u32, link: u32) -> Option<LinkPart>
        requires group { group < length self.now }
        requires place { place < path_group_count self.now group }
        ensures part { MatchOption result (uses (path_group_at self.now group place) link ≡ false)
            (IsPartOn (path_group_at self.now group place) link) }
    {
        part_on(self.parts(group, place), link)
    }

    /// The load that the amount on the path group puts on the link ("Load rule",
    /// docs/DEFINITIONS.md). Kilobits per second.
    pub fn load(&self, group: u32, place: u32, link: u32, amount: u64) -> u64
        requires group { group < length self.now }
        requires place { place < path_group_count self.now group }
        requires amount { amount ≤ MAX_TOTAL }
        ensures load { result ≡ load_on (path_group_at self.now group place) link amount }
        ensures at_most { result ≤ amount }
    {
        match self.part(group, place, link) {
            Some(part) => part.load(amount),
            None => 0,
        }
    }

    // The path groups of one group, with their parts.
    fn path_groups(alloc: Global, places: Vec<Vec<PathSpec>>) -> Result<Vec<PathGroup>, AllocError>
        requires { All (λ paths. weight_of (path_group_of paths) ≤ MAX_PATHS * MAX_WEIGHT)
            places.items }
        ensures held { IfOk result
            (λ held. path_groups_held held ≡ map path_group_of places.items) }
        ensures parts { IfOk result (λ held. All HoldsParts held.items) }
    {
        let mut held = Vec::with_capacity(alloc, places.len())?;
        for paths in places {
            let parts = parts_of(alloc, &paths)?;
            held.push(PathGroup { paths, parts })?;
        }
        Ok(held)
    }
}
