//! The filling by jumps.

ghost use Rattle.std.specs.Prelude.{◌≡◌, ℕ, ◌+◌, ◌*◌, ◌<◌, ◌≤◌, length, reverse, IfOk, OnOk};
ghost use Rattle.bwe_specs.specs.Filling.{filling, IsReached};
ghost use Rattle.path_groups.specs.Plan.{IsBuiltOn};
ghost use Rattle.mpfa_fill.specs.GroupValues.{Values, wan_of};
ghost use Rattle.mpfa_fill.specs.Filling.{IsFilling};
ghost use Rattle.mpfa_fill.specs.Moment.{IsMoment, wan_in, state_of};
ghost use Rattle.mpfa_solver.specs.Search.{AreLinks};
ghost use Rattle.mpfa_solver.specs.Stops.{hint_of, searches};

use crate::rise::{Notes, risen};
use bwe_specs::OutOfMemory;
use mono_search::Steps;
use mpfa_fill::{Closing, Filling, GroupValues, Moment};
use path_groups::PathPlan;
use std::alloc::Global;
use std::marker::Brand;
use std::sync::ledger::{Blank, Ledger};
use wan_topology::Topology;

/// The filling of the values over the paths of the plan, between the capacities of the topology
/// ("Filling", "Stop share", docs/DEFINITIONS.md), found by one search for each closing.
///
/// The hints say where links may close; they change the number of tests alone. The search for the
/// closing at a place of the answer is begun at the share after that of the hint there. Where there
/// is none, it is begun at the greatest share at which a link that an earlier search named by
/// itself fits, or at the top.
pub fn solve<'a, V: GroupValues, L: Ledger>(
    alloc: Global,
    values: &'a V,
    topology: &'a Topology,
    plan: &'a PathPlan,
    hints: &[Closing],
    steps: &mut Steps<L>,
) -> Result<Filling, OutOfMemory>
    requires built_on { IsBuiltOn topology.now plan.now }
    requires groups { (V.meaning values.now).groups ≡ length plan.now }
    ensures filling { IfOk result
        (IsFilling (wan_of (V.meaning values.now) plan.now topology.now.capacities)) }

    // Also where memory runs out.
    ensures ticks { let closings =
        (filling (wan_of (V.meaning values.now) plan.now topology.now.capacities)).closings in
        steps.new ≤ steps.old + 62 * (length closings + 1) }
    ensures right_hints { let closings =
        (filling (wan_of (V.meaning values.now) plan.now topology.now.capacities)).closings in
        hints.now ≡ reverse closings → steps.new ≤ steps.old + 2 * (length closings + 1) }
{
    let top = values.top();
    let mut moment = Moment::first(alloc, values, topology, plan)?;
    let mut notes = Notes {
        named: Vec::new(alloc),
        left: 0,
    };
    while moment.share() < top {
        notes.left = notes.left.saturating_add(62);
        moment = advanced(alloc, moment, top, hints, &mut notes, steps)?;
    }
    moment.into_filling(alloc)
}

/// The filling of the values over the paths of the plan, between the capacities of the topology, by
/// `solve` without hints, on a counter of its own.
pub fn solve_by_jumps<V: GroupValues>(
    alloc: Global,
    values: &V,
    topology: &Topology,
    plan: &PathPlan,
) -> Result<Filling, OutOfMemory>
    requires built_on { IsBuiltOn topology.now plan.now }
    requires groups { (V.meaning values.now).groups ≡ length plan.now }
    ensures { IfOk result
        (IsFilling (wan_of (V.meaning values.now) plan.now topology.now.capacities)) }
{
    counted_by_jumps::<V, Brand>(alloc, values, topology, plan, Blank::new(1))
}

// The same on a counter of its own.
fn counted_by_jumps<V: GroupValues, L: Ledger>(
    alloc: Global,
    values: &V,
    topology: &Topology,
    plan: &PathPlan,
    blank: Blank,
) -> Result<Filling, OutOfMemory>
    requires built_on { IsBuiltOn topology.now plan.now }
    requires groups { (V.meaning values.now).groups ≡ length plan.now }
    requires name { blank.name ≡ L.name }
    requires parts { blank.parts ≡ L.parts }
    requires some { 0 < L.parts }
    ensures { IfOk result
        (IsFilling (wan_of (V.meaning values.now) plan.now topology.now.capacities)) }
{
    let mut steps: Steps<L> = Steps::new(blank);
    solve(alloc, values, topology, plan, &[], &mut steps)
}

// Takes a moment past the next closing, or to the top where there is none.
fn advanced<'a, V: GroupValues, L: Ledger>(
    alloc: Global,
    moment: Moment<'a, V>,
    top: u64,
    hints: &[Closing],
    notes: &mut Notes,
    steps: &mut Steps<L>,
) -> Result<Moment<'a, V>, OutOfMemory>
    requires moment { IsMoment V.meaning moment }
    requires reached { IsReached (wan_in V.meaning moment) (state_of moment) }
    requires top { top ≡ (wan_in V.meaning moment).top }
    requires below { (state_of moment).share < top }
    requires named { AreLinks (wan_in V.meaning moment) notes.old.named.items }
    requires left { 62 ≤ notes.old.left }
    ensures moment { IfOk result (IsMoment V.meaning) }
    ensures wan { IfOk result (λ next. wan_in V.meaning next ≡ wan_in V.meaning moment.entry) }
    ensures reached { IfOk result
        (λ next. IsReached (wan_in V.meaning moment.entry) (state_of next)) }
    ensures search { IfOk result (λ next.
        searches top (state_of next) ≡ searches top (state_of moment.entry) + 1) }
    ensures named { OnOk result (AreLinks (wan_in V.meaning moment.entry) notes.new.named.items) }
    ensures ticks { steps.new + notes.new.left ≤ steps.old + notes.old.left }
    ensures right_hints { hints.now ≡ reverse (filling (wan_in V.meaning moment.entry)).closings
        → steps.new ≤ steps.old + 2 }
{
    let hint = hint_at(hints, moment.closings().len(), moment.share(), top);
    let mut moment = risen::<V, Brand, L>(alloc, moment, top, hint, notes, steps)?;
    if moment.share() < top {
        moment.step()?;
    }
    Ok(moment)
}

// The share of the hint for the closing at this place, brought into the range of the search.
fn hint_at(hints: &[Closing], place: usize, low: u64, top: u64) -> u64
    ensures { result ≡ hint_of hints.now place low top }
{
    match hints.get(place) {
        Some(hint) => top.min(low.max(hint.share)),
        None => top,
    }
}
