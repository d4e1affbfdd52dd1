//! The definition of filling as a program, one step at a time.
//!
//! `fill_by_steps` takes as many steps as the top share and the closings together, so it is for
//! small tops: tests hold the solvers to it. Nothing is promised of time.
#![tactic(auto)]

ghost use Rattle.std.specs.Prelude.{◌≡◌, length, IfOk};
ghost use Rattle.path_groups.specs.Plan.{IsBuiltOn};
ghost use Rattle.mpfa_fill.specs.GroupValues.{Values, wan_of};
ghost use Rattle.mpfa_fill.specs.Filling.{IsFilling};

use bwe_specs::OutOfMemory;
use mpfa_fill::{Filling, GroupValues, Moment};
use path_groups::PathPlan;
use std::alloc::Global;
use wan_topology::Topology;

/// The filling of the values over the paths of the plan, between the capacities of the topology
/// ("Filling", "Stop share", docs/DEFINITIONS.md).
///
/// The share of all groups rises by one at a time. Where a step would put links over, the lowest of
/// them is closed in its place.
pub fn fill_by_steps<V: GroupValues>(
    alloc: Global,
    values: &V,
    topology: &Topology,
    plan: &PathPlan,
) -> Result<Filling, OutOfMemory>
    requires built_on { IsBuiltOn topology.now plan.now }
    requires groups { (V.meaning values.now).groups ≡ length plan.now }
    ensures { IfOk result
        (IsFilling (wan_of (V.meaning values.now) plan.now topology.now.capacities)) }
{
    let top = values.top();
    let mut moment = Moment::first(alloc, values, topology, plan)?;
    while moment.share() < top {
        moment.step()?;
    }
    moment.into_filling(alloc)
}
