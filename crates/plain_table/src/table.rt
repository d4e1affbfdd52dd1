//! The table under the demands and capacities of a tree and a network.

ghost use Rattle.std.specs.Prelude.{◌≡◌, length, map, flat_map, zip, replicate, All, IfOk};
ghost use Rattle.bwe_specs.specs.Allocation.{allocation};
ghost use Rattle.bwe_specs.specs.Reports.{numbers};
ghost use Rattle.bwe_specs.specs.Tree.{cluster_limits};
ghost use Rattle.bwe_specs.specs.Fit.{IsFit};
ghost use Rattle.policy_tree.specs.Trees.{demand_in};
ghost use Rattle.path_groups.specs.Plan.{IsBuiltOn};
ghost use Rattle.mpfa_fill.specs.Filling.{IsFilling};
ghost use Rattle.plain_table.specs.Lines.{line_in};
ghost use Rattle.plain_table.specs.Reported.{reported_in};
ghost use Rattle.plain_table.specs.Tables.{plan_by, table_by, wan_by};

use crate::limits::limits_of;
use crate::line::group_lines;
use crate::script::take_in_all;
use crate::values::PlainValues;
use bwe_specs::{OutOfMemory, Report};
use limit_table::{GroupLine, LimitTable};
use mpfa_fill::Filling;
use mpfa_solver::solve_by_jumps;
use path_groups::PathPlan;
use policy_tree::PolicyTree;
use std::alloc::Global;
use std::mem::forget;
use wan_topology::Topology;

/// The table of limits of a tree in which no demand is set, of a network and path groups over its
/// links, after all reports of a script in their order ("Allocation", docs/DEFINITIONS.md).
///
/// One thread makes it, and nothing is kept. The memory of the tree and of the topology is left to
/// the end of the program, which takes it back at once, and not piece by piece.
pub fn table_after(
    alloc: Global,
    tree: PolicyTree,
    topology: Topology,
    plan: &PathPlan,
    script: &[Report],
) -> Result<LimitTable, OutOfMemory>
    requires idle { tree.demands ≡ replicate (length tree.demands) 0 }
    requires built_on { IsBuiltOn topology plan.now }
    requires groups { length tree.clusters ≡ length plan.now }
    requires fit { All (IsFit (length tree.demands) (length topology.capacities)) script.now }
    ensures { IfOk result (λ table. table ≡ allocation (record {
      top = tree.top;
      clusters = tree.clusters;
      groups = plan.now;
      capacities = topology.capacities;
    }) script.now) }
{
    let mut tree = tree;
    let mut topology = topology;
    let table = table_of_script(alloc, &mut tree, &mut topology, plan, script);
    forget((tree, topology));
    table
}

// The same table, of a tree and a topology that take in the script.
fn table_of_script(
    alloc: Global,
    tree: &mut PolicyTree,
    topology: &mut Topology,
    plan: &PathPlan,
    script: &[Report],
) -> Result<LimitTable, OutOfMemory>
    requires idle { tree.old.demands ≡ replicate (length tree.old.demands) 0 }
    requires built_on { IsBuiltOn topology.old plan.now }
    requires groups { length tree.old.clusters ≡ length plan.now }
    requires fit { All (IsFit (length tree.old.demands) (length topology.old.capacities))
        script.now }
    ensures { IfOk result (λ table. table
        ≡ allocation (plan_by (reported_in tree.old topology.old 0) plan.now) script.now) }
{
    tree.what_holds();
    plan.what_holds();
    take_in_all(tree, topology, script)?;
    tree.rematch();
    table_now(alloc, tree, topology, plan, script.len() as u64)
}

// The table of a tree and a network as they stand after so many reports.
fn table_now(
    alloc: Global,
    tree: &PolicyTree,
    topology: &Topology,
    plan: &PathPlan,
    prefix: u64,
) -> Result<LimitTable, OutOfMemory>
    requires built_on { IsBuiltOn topology.now plan.now }
    requires clusters { length tree.now.clusters ≡ length plan.now }
    ensures { IfOk result (λ table.
        table ≡ table_by (reported_in tree.now topology.now prefix) plan.now) }
{
    let values = PlainValues { tree };
    let filling = solve_by_jumps(alloc, &values, topology, plan)?;
    table_of_filling(alloc, tree, topology, plan, prefix, filling)
}

/// The table of the filling of a tree and a network as they stand after so many reports.
pub fn table_of_filling(
    alloc: Global,
    tree: &PolicyTree,
    topology: &Topology,
    plan: &PathPlan,
    prefix: u64,
    filling: Filling,
) -> Result<LimitTable, OutOfMemory>
    requires built_on { IsBuiltOn topology.now plan.now }
    requires clusters { length tree.now.clusters ≡ length plan.now }
    requires filling { IsFilling (wan_by (reported_in tree.now topology.now prefix) plan.now)
        filling }
    ensures { IfOk result (λ table.
        table ≡ table_by (reported_in tree.now topology.now prefix) plan.now) }
{
    tree.what_holds();
    plan.what_holds();
    let groups = group_lines(alloc, plan, &filling)?;
    let limits = limits_of(alloc, tree, &groups)?;
    Ok(table_of_limits(tree, topology, plan, prefix, filling, groups, limits))
}

/// The same, once the rows of its groups and its limits are made.
pub fn table_of_limits(
    tree: &PolicyTree,
    topology: &Topology,
    plan: &PathPlan,
    prefix: u64,
    filling: Filling,
    groups: Vec<GroupLine>,
    limits: Vec<u64>,
) -> LimitTable
    requires built_on { IsBuiltOn topology.now plan.now }
    requires clusters { length tree.now.clusters ≡ length plan.now }
    requires filling { IsFilling (wan_by (reported_in tree.now topology.now prefix) plan.now)
        filling }
    requires groups { groups.items
        ≡ map (line_in plan.now filling) (numbers (length plan.now)) }
    requires limits { limits.items ≡ flat_map
        (λ given. cluster_limits tree.now.top (demand_in tree.now) given.0 given.1)
        (zip tree.now.clusters (map (λ line. line.amount) groups.items)) }
    ensures { result ≡ table_by (reported_in tree.now topology.now prefix) plan.now }
{
    tree.what_holds();
    topology.what_holds();
    plan.what_holds();
    LimitTable {
        prefix,
        limits,
        groups,
        loads: filling.loads,
        closings: filling.closings,
    }
}
