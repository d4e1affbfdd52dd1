//! The check of a list of closings: whether they are those of the filling, without filling.
//!
//! `check` first walks over the list, and looks at each link only where its load changes
//! (`closing_walk`). Where every look comes out as it should, the list is right. Else it is gone
//! over once more, each link tested at each closing, for the first closing at fault and its cause.
//! The top call's `check` line prints its verdict. The closings that a table or a document names
//! are a certificate of the whole allocation: where the verdict is `Right`, nothing but the filling
//! has them ("Certificate law", docs/DEFINITIONS.md). It does not stand on the solver, whose
//! answers it judges. Nothing is promised of time.
#![tactic(auto)]

ghost use Rattle.std.specs.Prelude.{◌≡◌, ◌↔◌, ℕ, ◌+◌, ◌*◌, ◌<◌, ◌≤◌, length, reverse, IfOk};
ghost use Rattle.bwe_specs.specs.declared.network.Verdict.TheVariants.{Right};
ghost use Rattle.bwe_specs.specs.Filling.{filling};
ghost use Rattle.bwe_specs.specs.RightClosings.{verdict as verdict_of};
ghost use Rattle.path_groups.specs.Plan.{IsBuiltOn};
ghost use Rattle.mpfa_fill.specs.GroupValues.{Values, wan_of};
ghost use Rattle.link_front.specs.Moves.{links_over_all};

mod by_all;

use crate::by_all::verdict_by_all;
use bwe_specs::OutOfMemory;
pub use bwe_specs::{Cause, Closing, Verdict};
use closing_walk::seen_right;
use kept_values::{KeptValues, Meant};
use mono_search::Steps;
use mpfa_fill::GroupValues;
use path_groups::PathPlan;
use std::alloc::Global;
use std::marker::Brand;
use std::sync::ledger::{Blank, Ledger};
use wan_topology::Topology;

/// The verdict on a list of closings, in their order ("Right closings", docs/DEFINITIONS.md).
///
/// The first closing at fault is named, with the first of its causes in the order of `Cause`; after
/// all closings `OverAtTop`. Link numbers and shares in the list may be any.
pub fn check<V: GroupValues>(
    alloc: Global,
    values: &V,
    topology: &Topology,
    plan: &PathPlan,
    closings: &[Closing],
) -> Result<Verdict, OutOfMemory>
    requires built_on { IsBuiltOn topology.now plan.now }
    requires groups { (V.meaning values.now).groups ≡ length plan.now }
    ensures verdict { IfOk result (λ verdict. verdict
        ≡ verdict_of (wan_of (V.meaning values.now) plan.now topology.now.capacities)
        closings.now) }

    // Certificate law
    ensures right { IfOk result (λ verdict. (verdict ≡ Right) ↔ (closings.now
        ≡ reverse (filling
        (wan_of (V.meaning values.now) plan.now topology.now.capacities)).closings)) }
{
    counted_check::<V, Brand>(alloc, values, topology, plan, closings, Blank::new(1))
}

// The same on a counter of its own.
fn counted_check<V: GroupValues, L: Ledger>(
    alloc: Global,
    values: &V,
    topology: &Topology,
    plan: &PathPlan,
    closings: &[Closing],
    blank: Blank,
) -> Result<Verdict, OutOfMemory>
    requires built_on { IsBuiltOn topology.now plan.now }
    requires groups { (V.meaning values.now).groups ≡ length plan.now }
    requires name { blank.name ≡ L.name }
    requires parts { blank.parts ≡ L.parts }
    requires some { 0 < L.parts }
    ensures verdict { IfOk result (λ verdict. verdict
        ≡ verdict_of (wan_of (V.meaning values.now) plan.now topology.now.capacities)
        closings.now) }
    ensures right { IfOk result (λ verdict. (verdict ≡ Right) ↔ (closings.now
        ≡ reverse (filling
        (wan_of (V.meaning values.now) plan.now topology.now.capacities)).closings)) }
{
    let mut steps: Steps<L> = Steps::new(blank);
    check_by_looks(alloc, values, topology, plan, closings, &mut steps)
}

/// The same verdict, with each look at a link counted: a look asks for the load of one link at one
/// share.
///
/// Of right closings they are at most one for each closing, one for each link at the top, and one
/// more for each link of a path group that a group leaves, and of one to which it comes.
pub fn check_by_looks<V: GroupValues, L: Ledger>(
    alloc: Global,
    values: &V,
    topology: &Topology,
    plan: &PathPlan,
    closings: &[Closing],
    steps: &mut Steps<L>,
) -> Result<Verdict, OutOfMemory>
    requires built_on { IsBuiltOn topology.now plan.now }
    requires groups { (V.meaning values.now).groups ≡ length plan.now }
    ensures verdict { IfOk result (λ verdict. verdict
        ≡ verdict_of (wan_of (V.meaning values.now) plan.now topology.now.capacities)
        closings.now) }

    // Certificate law
    ensures right { IfOk result (λ verdict. (verdict ≡ Right) ↔ (closings.now
        ≡ reverse (filling
        (wan_of (V.meaning values.now) plan.now topology.now.capacities)).closings)) }
    ensures looks { IfOk result (λ verdict. verdict ≡ Right
        → let links = length topology.now.capacities in
        steps.new
        ≤ steps.old + (links + length closings.now + 2 * links_over_all links plan.now)) }
{
    let verdict = judged(alloc, values, topology, plan, closings, steps)?;
    let _top = values.top();
    Ok(verdict)
}

// The verdict, with values that are kept once they were asked for.
fn judged<V: GroupValues, L: Ledger>(
    alloc: Global,
    values: &V,
    topology: &Topology,
    plan: &PathPlan,
    closings: &[Closing],
    steps: &mut Steps<L>,
) -> Result<Verdict, OutOfMemory>
    requires built_on { IsBuiltOn topology.now plan.now }
    requires groups { (V.meaning values.now).groups ≡ length plan.now }
    ensures verdict { IfOk result (λ verdict. verdict
        ≡ verdict_of (wan_of (V.meaning values.now) plan.now topology.now.capacities)
        closings.now) }
    ensures looks { IfOk result (λ verdict. verdict ≡ Right
        → let links = length topology.now.capacities in
        steps.new
        ≤ steps.old + (links + length closings.now + 2 * links_over_all links plan.now)) }
{
    judged_by::<V, Brand, L>(alloc, values, topology, plan, closings, steps)
}

// The same, where the values are told apart by their meaning.
fn judged_by<V: GroupValues, K: Meant, L: Ledger>(
    alloc: Global,
    values: &V,
    topology: &Topology,
    plan: &PathPlan,
    closings: &[Closing],
    steps: &mut Steps<L>,
) -> Result<Verdict, OutOfMemory>
    requires meant { K.value ≡ (V.meaning values.now).value }
    requires built_on { IsBuiltOn topology.now plan.now }
    requires groups { (V.meaning values.now).groups ≡ length plan.now }
    ensures verdict { IfOk result (λ verdict. verdict
        ≡ verdict_of (wan_of (V.meaning values.now) plan.now topology.now.capacities)
        closings.now) }
    ensures looks { IfOk result (λ verdict. verdict ≡ Right
        → let links = length topology.now.capacities in
        steps.new
        ≤ steps.old + (links + length closings.now + 2 * links_over_all links plan.now)) }
{
    let kept: KeptValues<V, K> = KeptValues::of(alloc, values)?;
    walked(alloc, &kept, topology, plan, closings, steps)
}

// The verdict of the walk, or else of the pass over all links.
fn walked<V: GroupValues, L: Ledger>(
    alloc: Global,
    values: &V,
    topology: &Topology,
    plan: &PathPlan,
    closings: &[Closing],
    steps: &mut Steps<L>,
) -> Result<Verdict, OutOfMemory>
    requires built_on { IsBuiltOn topology.now plan.now }
    requires groups { (V.meaning values.now).groups ≡ length plan.now }
    ensures verdict { IfOk result (λ verdict. verdict
        ≡ verdict_of (wan_of (V.meaning values.now) plan.now topology.now.capacities)
        closings.now) }
    ensures looks { IfOk result (λ verdict. verdict ≡ Right
        → let links = length topology.now.capacities in
        steps.new
        ≤ steps.old + (links + length closings.now + 2 * links_over_all links plan.now)) }
{
    if seen_right(alloc, values, topology, plan, closings, steps)? {
        return Ok(Verdict::Right);
    }
    Ok(verdict_by_all(alloc, values, topology, plan, closings, steps)?)
}
