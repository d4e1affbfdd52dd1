//! Fillings of values that take a search.

ghost use Rattle.std.specs.Prelude.{◌≡◌, ℕ, ◌+◌, ◌*◌, ◌≤◌, ◌^◌, length, IfOk};
ghost use Rattle.path_groups.specs.Plan.{IsBuiltOn};
ghost use Rattle.mpfa_fill.specs.GroupValues.{Values, wan_of};
ghost use Rattle.mpfa_fill.specs.Filling.{IsFilling};
ghost use Rattle.link_front.specs.Moves.{links_over_all};
ghost use Rattle.link_solver.specs.Counts.{path_groups_in};

use bwe_specs::OutOfMemory;
use kept_values::{KeptValues, Meant};
use link_solver::{Work, solve_by_links, solve_by_looks};
use mono_search::Steps;
use mpfa_fill::{Filling, GroupValues};
use path_groups::PathPlan;
use std::alloc::Global;
use std::sync::ledger::Ledger;
use wan_topology::Topology;

/// The filling of values, of which none that takes a search is asked for twice.
pub fn fill_kept<V: GroupValues, K: Meant>(
    alloc: Global,
    values: &V,
    topology: &Topology,
    plan: &PathPlan,
) -> Result<Filling, OutOfMemory>
    requires meant { K.value ≡ (V.meaning values.now).value }
    requires built_on { IsBuiltOn topology.now plan.now }
    requires groups { (V.meaning values.now).groups ≡ length plan.now }
    ensures { IfOk result
        (IsFilling (wan_of (V.meaning values.now) plan.now topology.now.capacities)) }
{
    let kept: KeptValues<V, K> = KeptValues::of(alloc, values)?;
    solve_by_links(alloc, &kept, topology, plan)
}

/// The same filling, with counters, as `solve_by_looks` of `link_solver` counts.
pub(crate) fn fill_kept_by_looks<
    V: GroupValues,
    K: Meant,
    L: Ledger,
    T: Ledger,
    P: Ledger,
    M: Ledger,
>(
    alloc: Global,
    values: &V,
    topology: &Topology,
    plan: &PathPlan,
    steps: &mut Steps<L>,
    work: &mut Work<T, P, M>,
) -> Result<Filling, OutOfMemory>
    requires meant { K.value ≡ (V.meaning values.now).value }
    requires built_on { IsBuiltOn topology.now plan.now }
    requires groups { (V.meaning values.now).groups ≡ length plan.now }
    ensures filling { IfOk result
        (IsFilling (wan_of (V.meaning values.now) plan.now topology.now.capacities)) }
    ensures looks { let links = length topology.now.capacities in
        steps.new ≤ steps.old + 31 * (links + 2 * links_over_all links plan.now) }
    ensures turns { IfOk result (λ filling. work.new.turns + steps.old
        ≤ work.old.turns + steps.new + length filling.closings.items) }
    ensures plays { let links = length topology.now.capacities in
        (levels : ℕ) → links ≤ 2 ^ levels → work.new.plays + levels * work.old.turns
        ≤ work.old.plays + levels * (work.new.turns + 2 * links_over_all links plan.now) }
    ensures moves { work.new.moves ≤ work.old.moves + path_groups_in plan.now }
{
    let kept: KeptValues<V, K> = KeptValues::of(alloc, values)?;
    solve_by_looks(alloc, &kept, topology, plan, steps, work)
}
