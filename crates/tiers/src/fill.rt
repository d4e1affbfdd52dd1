//! The table of tiers.

ghost use Rattle.std.specs.Prelude.{◌≡◌, ◌<◌, ℕ, IfOk, length, map, slice_index};
ghost use Rattle.bwe_specs.specs.Reports.{numbers};
ghost use Rattle.path_groups.specs.Plan.{IsBuiltOn};
ghost use Rattle.policy_tree.specs.Trees.{demand_in};
ghost use Rattle.tiers.specs.Tiered.{tiered_under};
ghost use Rattle.tiers.specs.Tables.{IsFeasible, plan_of};
ghost use Rattle.tiers.specs.Places.{IsInAnyOrder};
ghost use Rattle.tiers.specs.TierLaws.{IsNoMoreThanAsked, IsShared, IsUnwasted};
ghost use Rattle.tiers.specs.Fillings.{HasLine, line_in_tier, wan_by};

use crate::fillings::{Fillings, fill_each};
use crate::table::TierTable;
use bwe_specs::OutOfMemory;
use limit_table::GroupLine;
use path_groups::PathPlan;
use plain_table::limits_of;
use policy_tree::PolicyTree;
use std::alloc::Global;
use wan_topology::Topology;

/// The Tiered allocation under the demands of the tree and the capacities of the topology ("Tiered
/// allocation", docs/DEFINITIONS.md): `tiers` has the tier of each group. It makes one filling for
/// each tier up to the greatest.
///
/// The table covers `prefix` reports, as the caller counts them.
pub fn fill_tiers(
    alloc: Global,
    tree: &PolicyTree,
    topology: Topology,
    plan: &PathPlan,
    tiers: &[u8],
    prefix: u64,
) -> Result<TierTable, OutOfMemory>
    requires built_on { IsBuiltOn topology plan.now }
    requires groups { length tree.now.clusters ≡ length plan.now }
    requires one_each { length tiers.now ≡ length plan.now }
    ensures table { IfOk result (λ table. table ≡
        tiered_under (plan_of tree.now topology plan.now) prefix (demand_in tree.now)
        topology.capacities tiers.now) }

    // Feasibility law: no link's load exceeds its capacity
    ensures feasible { IfOk result (IsFeasible topology.capacities) }

    // No more than asked: no limit is above its task's demand, nor above its weight times its
    // function at the top
    ensures asked { IfOk result (IsNoMoreThanAsked tree.now) }

    // The same share: a group has what its function gives at its stop share, and groups of a tier
    // that grow over a link when it closes stand at one share
    ensures shared { IfOk result (IsShared (wan_by tree.now topology plan.now) tiers.now) }

    // No waste: a closed link has less free than those of the tier who grew over it would have put
    // there with one share more
    ensures unwasted { IfOk result (IsUnwasted (wan_by tree.now topology plan.now) tiers.now) }

    // Nobody's place matters: the table of tiers of the plan with its groups in another order is
    // this one in that order
    ensures in_any_order { IfOk result (IsInAnyOrder (plan_of tree.now topology plan.now) prefix
        (demand_in tree.now) topology.capacities tiers.now) }
{
    tree.what_holds();
    plan.what_holds();
    topology.what_holds();
    let fillings = fill_each(alloc, tree, topology, plan, tiers)?;
    let groups = tiered_lines(alloc, plan, tiers, &fillings)?;
    let limits = limits_of(alloc, tree, &groups)?;
    Ok(TierTable {
        prefix,
        tiers: fillings.closings,
        limits,
        groups,
        loads: fillings.loads,
    })
}

// The line of each group in the filling of its own tier.
fn tiered_lines(
    alloc: Global,
    plan: &PathPlan,
    tiers: &[u8],
    fillings: &Fillings,
) -> Result<Vec<GroupLine>, OutOfMemory>
    requires one_each { length tiers.now ≡ length plan.now }
    requires has { (group : ℕ) → group < length plan.now
        → HasLine plan.now fillings.now (slice_index tiers.now group) group }
    ensures { IfOk result (λ lines. lines.items
        ≡ map (λ group. line_in_tier plan.now fillings.now (slice_index tiers.now group) group)
        (numbers (length plan.now))) }
{
    let firsts = fillings.firsts(alloc)?;
    let mut lines = Vec::new(alloc);
    for group in 0..plan.groups() {
        let tier = tiers[group as usize] as usize;
        lines.push(fillings.line(alloc, plan, &firsts[tier], tier, group)?)?;
    }
    Ok(lines)
}
