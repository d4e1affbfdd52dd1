//! The table under the demands and capacities that were reported last.

ghost use Rattle.std.specs.Prelude.{◌≡◌, ℕ, ◌+◌, ◌*◌, ◌<◌, ◌≤◌, ◌^◌, length, map, flat_map, zip, slice_index, IfOk};
ghost use Rattle.bwe_specs.specs.Reports.{numbers};
ghost use Rattle.bwe_specs.specs.Tree.{cluster_limits};
ghost use Rattle.policy_tree.specs.Trees.{demand_in, value_in};
ghost use Rattle.parallel_values.specs.Levels.{levels_in};
ghost use Rattle.mpfa_fill.specs.Filling.{IsFilling};
ghost use Rattle.link_front.specs.Moves.{links_over_all};
ghost use Rattle.link_solver.specs.Counts.{path_groups_in};
ghost use Rattle.plain_table.specs.Lines.{line_in};
ghost use Rattle.plain_table.specs.Tables.{IsFitted, table_by, wan_by};
ghost use Rattle.allocator.specs.Laws.{IsNoMoreThanAsked, IsConserved, IsShared, IsFeasible, IsHeldBack, IsTold, IsUnwasted, IsFair, IsTheSameInAnyOrder};

use crate::kept::fill_kept_by_looks;
use crate::reported::Reported;
use crate::tops::ToppedValues;
use bwe_specs::OutOfMemory;
use limit_table::{GroupLine, LimitTable};
use link_solver::Work;
use mono_search::Steps;
use mpfa_fill::Filling;
use parallel_values::{values_at, values_in_turn};
use path_groups::PathPlan;
use plain_table::{amounts_of, group_lines};
use std::alloc::Global;
use std::marker::Brand;
use std::sync::ledger::{Blank, Ledger};
use std::thread::Threads;
use threaded_limits::all_limits_on_threads;

/// The table under the demands and capacities that were reported last: the allocation
/// ("Allocation", docs/DEFINITIONS.md), with nine laws ("Laws" and "Laws of a table" there).
pub fn make_table(
    alloc: Global,
    reported: &Reported,
    plan: &PathPlan,
) -> Result<LimitTable, OutOfMemory>
    requires { IsFitted reported.now plan.now }
    ensures table { IfOk result (λ table. table ≡ table_by reported.now plan.now) }

    // Feasibility law: no link's load exceeds its capacity
    ensures feasible { IfOk result (IsFeasible reported.now.network.capacities) }

    // Bottleneck law: a group that gets less than its value at the top has a closed link on each of
    // its path groups
    ensures held_back { IfOk result (IsHeldBack (wan_by reported.now plan.now)) }

    // Conservation law: the limits of a group's tasks add up to its amount
    ensures conserved { IfOk result (IsConserved reported.now.tree) }

    // No more than asked: no limit is above its task's demand, nor above its weight times its
    // function at the top
    ensures asked { IfOk result (IsNoMoreThanAsked reported.now.tree) }

    // The same share: a group has what its function gives at its stop share, and groups that grow
    // over a link when it closes have one share then
    ensures shared { IfOk result (IsShared (wan_by reported.now plan.now)) }

    // No waste: a closed link has less free than the groups that grew over it would have added to
    // its load with one share more
    ensures unwasted { IfOk result (IsUnwasted (wan_by reported.now plan.now)) }

    // Max-min law: where each group has one path group, a group that has a higher share in another
    // assignment has it at the cost of another group over the link that stopped it here
    ensures fair { IfOk result (IsFair (wan_by reported.now plan.now)) }

    // Nobody's place matters: the table of the plan with its groups in another order is this table
    // in that order
    ensures in_any_order { IfOk result (IsTheSameInAnyOrder reported.now plan.now) }

    // One text, one table: under names that tell the links apart, a table with the same text is
    // this table
    ensures told { IfOk result (IsTold reported.now) }
{
    reported.what_holds();
    let tree = reported.tree();
    let tops = values_in_turn(alloc, tree, tree.top())?;
    let filling = plain_filling(alloc, reported, plan, &tops)?;
    table_of_filling(alloc, reported, plan, filling)
}

/// The same table, with counters: `steps` counts the load probes, `work` the turns, the plays of
/// the tournament between the links and the moves of groups (`solve_by_looks` of `link_solver`).
pub fn make_table_by_looks<L: Ledger, T: Ledger, P: Ledger, M: Ledger>(
    alloc: Global,
    reported: &Reported,
    plan: &PathPlan,
    steps: &mut Steps<L>,
    work: &mut Work<T, P, M>,
) -> Result<LimitTable, OutOfMemory>
    requires { IsFitted reported.now plan.now }
    ensures table { IfOk result (λ table. table ≡ table_by reported.now plan.now) }

    // These also hold where memory runs out, but for `turns`.
    ensures looks { let links = length reported.now.network.capacities in
        steps.new ≤ steps.old + 31 * (links + 2 * links_over_all links plan.now) }
    ensures turns { IfOk result (λ table. work.new.turns + steps.old
        ≤ work.old.turns + steps.new + length table.closings) }
    ensures plays { let links = length reported.now.network.capacities in
        (levels : ℕ) → links ≤ 2 ^ levels → work.new.plays + levels * work.old.turns
        ≤ work.old.plays + levels * (work.new.turns + 2 * links_over_all links plan.now) }
    ensures moves { work.new.moves ≤ work.old.moves + path_groups_in plan.now }
{
    let tree = reported.tree();
    let tops = values_in_turn(alloc, tree, tree.top())?;
    let filling = filling_of(alloc, reported, plan, &tops, steps, work)?;
    table_of_filling(alloc, reported, plan, filling)
}

// The table of a filling under the demands and capacities that were reported last.
fn table_of_filling(
    alloc: Global,
    reported: &Reported,
    plan: &PathPlan,
    filling: Filling,
) -> Result<LimitTable, OutOfMemory>
    requires fitted { IsFitted reported.now plan.now }
    requires filling { IsFilling (wan_by reported.now plan.now) filling }
    ensures { IfOk result (λ table. table ≡ table_by reported.now plan.now) }
{
    let (tree, topology) = (reported.tree(), reported.topology());
    plain_table::table_of_filling(alloc, tree, topology, plan, reported.prefix(), filling)
}

// The same table, whose limits are worked out on threads.
fn table_of_filling_on_threads<R: Threads + Sync>(
    rt: &R,
    alloc: Global,
    reported: &Reported,
    plan: &PathPlan,
    filling: Filling,
) -> Result<LimitTable, OutOfMemory>
    requires fitted { IsFitted reported.now plan.now }
    requires filling { IsFilling (wan_by reported.now plan.now) filling }
    ensures { IfOk result (λ table. table ≡ table_by reported.now plan.now) }
{
    let tree = reported.tree();
    let groups = group_lines(alloc, plan, &filling)?;
    let amounts = amounts_of(alloc, &groups)?;
    let limits = all_limits_on_threads(rt, alloc, tree, &amounts)?;
    Ok(table_of_limits(reported, plan, filling, groups, limits))
}

// The same, once the rows of its groups and its limits are made.
fn table_of_limits(
    reported: &Reported,
    plan: &PathPlan,
    filling: Filling,
    groups: Vec<GroupLine>,
    limits: Vec<u64>,
) -> LimitTable
    requires fitted { IsFitted reported.now plan.now }
    requires filling { IsFilling (wan_by reported.now plan.now) filling }
    requires groups { groups.items
        ≡ map (line_in plan.now filling) (numbers (length plan.now)) }
    requires limits { limits.items ≡ flat_map (λ given.
        cluster_limits reported.now.tree.top (demand_in reported.now.tree) given.0 given.1)
        (zip reported.now.tree.clusters (map (λ line. line.amount) groups.items)) }
    ensures { result ≡ table_by reported.now plan.now }
{
    let (tree, topology) = (reported.tree(), reported.topology());
    let prefix = reported.prefix();
    plain_table::table_of_limits(tree, topology, plan, prefix, filling, groups, limits)
}

/// The same table. Where the tree keeps values and limits, groups of which no demand has changed
/// are not asked again, and their amounts are not handed down again.
pub(crate) fn present_table(
    alloc: Global,
    reported: &mut Reported,
    plan: &PathPlan,
) -> Result<LimitTable, OutOfMemory>
    requires { IsFitted reported.old plan.now }
    ensures same { reported.new ≡ reported.old }
    ensures table { IfOk result (λ table. table ≡ table_by reported.old plan.now) }
{
    if reported.keeps() {
        remade_table(alloc, reported, plan)
    } else {
        make_table(alloc, reported, plan)
    }
}

/// The same table. Where the tree keeps no values and limits, the groups' values at the greatest
/// share and the limits are worked out on threads.
pub(crate) fn present_table_on_threads<R: Threads + Sync>(
    rt: &R,
    alloc: Global,
    reported: &mut Reported,
    plan: &PathPlan,
) -> Result<LimitTable, OutOfMemory>
    requires { IsFitted reported.old plan.now }
    ensures same { reported.new ≡ reported.old }
    ensures table { IfOk result (λ table. table ≡ table_by reported.old plan.now) }
{
    if reported.keeps() {
        return remade_table(alloc, reported, plan);
    }
    let tree = reported.tree();
    let tops = values_at(rt, alloc, tree, tree.top())?;
    let filling = plain_filling(alloc, reported, plan, &tops)?;
    table_of_filling_on_threads(rt, alloc, reported, plan, filling)
}

// The same, where the tree keeps values and limits.
fn remade_table(
    alloc: Global,
    reported: &mut Reported,
    plan: &PathPlan,
) -> Result<LimitTable, OutOfMemory>
    requires { IsFitted reported.old plan.now }
    ensures same { reported.new ≡ reported.old }
    ensures table { IfOk result (λ table. table ≡ table_by reported.old plan.now) }
{
    let _tree = reported.tree();
    let filling = reported.fill(alloc, plan)?;
    let groups = group_lines(alloc, plan, &filling)?;
    let amounts = amounts_of(alloc, &groups)?;
    let limits = reported.limits(alloc, &amounts)?;
    Ok(table_of_limits(reported, plan, filling, groups, limits))
}

// The filling under the demands and capacities that were reported last. `tops` are the groups'
// values at the greatest share. None that takes a search is asked for twice.
fn plain_filling(
    alloc: Global,
    reported: &Reported,
    plan: &PathPlan,
    tops: &[u64],
) -> Result<Filling, OutOfMemory>
    requires fitted { IsFitted reported.now plan.now }
    requires tops { tops.now ≡ levels_in reported.now.tree reported.now.tree.top }
    ensures { IfOk result (IsFilling (wan_by reported.now plan.now)) }
{
    counted_filling::<Brand, Brand, Brand, Brand>(
        alloc,
        reported,
        plan,
        tops,
        Blank::new(1),
        Blank::new(1),
        Blank::new(1),
        Blank::new(1),
    )
}

// The same filling, with counters that are dropped.
fn counted_filling<L: Ledger, T: Ledger, P: Ledger, M: Ledger>(
    alloc: Global,
    reported: &Reported,
    plan: &PathPlan,
    tops: &[u64],
    looks: Blank,
    turns: Blank,
    plays: Blank,
    moves: Blank,
) -> Result<Filling, OutOfMemory>
    requires fitted { IsFitted reported.now plan.now }
    requires tops { tops.now ≡ levels_in reported.now.tree reported.now.tree.top }
    requires look_name { looks.name ≡ L.name }
    requires look_parts { looks.parts ≡ L.parts }
    requires some_look { 0 < L.parts }
    requires turn_name { turns.name ≡ T.name }
    requires turn_parts { turns.parts ≡ T.parts }
    requires some_turn { 0 < T.parts }
    requires play_name { plays.name ≡ P.name }
    requires play_parts { plays.parts ≡ P.parts }
    requires some_play { 0 < P.parts }
    requires move_name { moves.name ≡ M.name }
    requires move_parts { moves.parts ≡ M.parts }
    requires some_move { 0 < M.parts }
    ensures { IfOk result (IsFilling (wan_by reported.now plan.now)) }
{
    let mut looks: Steps<L> = Steps::new(looks);
    let mut work: Work<T, P, M> = Work {
        turns: Steps::new(turns),
        plays: Steps::new(plays),
        moves: Steps::new(moves),
    };
    filling_of(alloc, reported, plan, tops, &mut looks, &mut work)
}

// The same filling. `steps` counts the load probes, `work` the rest.
fn filling_of<L: Ledger, T: Ledger, P: Ledger, M: Ledger>(
    alloc: Global,
    reported: &Reported,
    plan: &PathPlan,
    tops: &[u64],
    steps: &mut Steps<L>,
    work: &mut Work<T, P, M>,
) -> Result<Filling, OutOfMemory>
    requires fitted { IsFitted reported.now plan.now }
    requires tops { tops.now ≡ levels_in reported.now.tree reported.now.tree.top }
    ensures filling { IfOk result (IsFilling (wan_by reported.now plan.now)) }
    ensures looks { let links = length reported.now.network.capacities in
        steps.new ≤ steps.old + 31 * (links + 2 * links_over_all links plan.now) }
    ensures turns { IfOk result (λ filling. work.new.turns + steps.old
        ≤ work.old.turns + steps.new + length filling.closings.items) }
    ensures plays { let links = length reported.now.network.capacities in
        (levels : ℕ) → links ≤ 2 ^ levels → work.new.plays + levels * work.old.turns
        ≤ work.old.plays + levels * (work.new.turns + 2 * links_over_all links plan.now) }
    ensures moves { work.new.moves ≤ work.old.moves + path_groups_in plan.now }
{
    let tree = reported.tree();
    let values = ToppedValues { tree, tops };
    fill_kept_by_looks::<ToppedValues<'_>, Brand, L, T, P, M>(
        alloc,
        &values,
        reported.topology(),
        plan,
        steps,
        work,
    )
}
