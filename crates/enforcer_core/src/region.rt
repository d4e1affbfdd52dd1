//! A region: it sees the messages that it is delivered, and nothing else.

ghost use Rattle.std.specs.Prelude.{◌≡◌, ◌<◌, ◌↔◌, IfOk, IsTrue, None, length, slice_index, option_map, max};
ghost use Rattle.enforcer_core.specs.World.{delivered, is_older, restarted};

use bwe_specs::OutOfMemory;
use std::alloc::Global;
use std::marker::Model;

/// The limits of a region's tasks in one table, in kilobits per second.
#[derive(Drop)]
pub(crate) struct RegionLimits {
    prefix: u64,
    limits: Vec<u64>,
}

impl Model for RegionLimits {
    ghost use Rattle.enforcer_core.specs.World.{Limits};

    ghost Value = { Limits };

    ghost view = { λ limits. record { prefix = limits.prefix; limits = limits.limits.items } };
}

impl RegionLimits {
    pub(crate) fn new(prefix: u64, limits: Vec<u64>) -> RegionLimits
        ensures { result ≡ record { prefix = prefix; limits = limits.items } }
    {
        RegionLimits { prefix, limits }
    }

    /// Equal limits.
    pub(crate) fn copy(&self, alloc: Global) -> Result<RegionLimits, OutOfMemory>
        ensures { IfOk result (λ copy. copy ≡ self.now) }
    {
        Ok(RegionLimits {
            prefix: self.prefix,
            limits: Vec::from_slice(alloc, &self.limits)?,
        })
    }

    /// How many reports the table covers.
    pub(crate) fn prefix(&self) -> u64
        ensures { result ≡ self.now.prefix }
    {
        self.prefix
    }

    /// The limit of the region's task at an index.
    pub(crate) fn limit(&self, place: u32) -> u64
        requires place { place < length self.now.limits }
        ensures { result ≡ slice_index self.now.limits place }
    {
        self.limits[place as usize]
    }
}

/// What a region has: the limits in force, none since it began or began again, and its floor, which
/// only rises.
#[derive(Drop)]
pub(crate) struct Region {
    floor: u64,
    in_force: Option<RegionLimits>,
}

impl Model for Region {
    ghost use Rattle.enforcer_core.specs.World.{Region as RegionView};

    ghost Value = { RegionView };

    ghost view = { λ region. record { floor = region.floor; in_force = region.in_force } };
}

impl Region {
    pub(crate) fn new() -> Region
        ensures { result ≡ record { floor = 0; in_force = None } }
    {
        Region {
            floor: 0,
            in_force: None,
        }
    }

    /// How many reports the last limits covered that the region took.
    pub(crate) fn floor(&self) -> u64
        ensures { result ≡ self.now.floor }
    {
        self.floor
    }

    /// The limits in force.
    pub(crate) fn in_force(&self) -> Option<&RegionLimits>
        ensures { option_map (λ limits. limits.now) result ≡ self.now.in_force }
    {
        self.in_force.as_ref()
    }

    /// The floor after limits of so many reports were delivered, whether they are taken or not.
    pub(crate) fn floor_after(&self, prefix: u64) -> u64
        ensures { result ≡ max self.now.floor prefix }
    {
        self.floor.max(prefix)
    }

    /// Puts the limits in force, unless they are older than the floor; answers whether they are in
    /// force now.
    pub(crate) fn take(&mut self, limits: RegionLimits) -> bool
        ensures taken { IsTrue result ↔ IsTrue (is_older self.old limits) → ⊥ }
        ensures region { self.new ≡ delivered self.old limits }
    {
        if limits.prefix < self.floor {
            return false;
        }
        self.floor = limits.prefix;
        self.in_force = Some(limits);
        true
    }

    /// Begins again: the limits are lost, the floor is kept.
    pub(crate) fn restart(&mut self)
        ensures { self.new ≡ restarted self.old }
    {
        self.in_force = None;
    }
}
