//! A walk over closings that looks at a link only where its load changes.

ghost use Rattle.std.specs.Prelude.{◌≡◌, ◌==◌, nat_eq, nat_lt, if◌then◌else◌, ℕ, suc, ◌+◌, ◌*◌, ◌<◌, ◌≤◌, ◌∷◌, [], true, false, not, length, reverse, take, slice_index_or, IfOk, OnOk, None};
ghost use Rattle.std.specs.List.{list_any};
ghost use Rattle.bwe_specs.specs.Paths.{path_group_at, path_group_count, uses, is_open, current_path_group};
ghost use Rattle.bwe_specs.specs.Filling.{closed_links};
ghost use Rattle.bwe_specs.specs.RightClosings.{last_share, over_at, AreRight, AreRightToTop, IsRightAfter};
ghost use Rattle.path_groups.specs.Plan.{IsBuiltOn};
ghost use Rattle.mpfa_fill.specs.GroupValues.{Values, wan_of};
ghost use Rattle.mpfa_fill.specs.LastFit.{is_over_at};
ghost use Rattle.link_front.specs.Front.{wan_in, closings_in, IsFront};
ghost use Rattle.closing_walk.specs.Ends.{AreEndLoads, AreBounds};
ghost use Rattle.closing_walk.specs.Known.{AreKnownTwice};
ghost use Rattle.closing_walk.specs.Walk.{closing_at, AreRising, Reaches, IsNeeded, IsHigh, IsAt, AreOwing, Settles, StaysOff, StayOff, IsWalked, from_at};
ghost use Rattle.link_front.specs.Moves.{links_of, links_over_all, moves_of, moves_ahead};

use crate::ends::{EndLoads, end_loads, is_over_by};
use crate::known::{KnownValues, looks_over};
use bwe_specs::{Closing, MAX_SHARE, OutOfMemory};
use growth_queries::{next_place, place_over};
use link_front::{Front, GroupsByLink};
use mono_search::Steps;
use mpfa_fill::GroupValues;
use path_groups::PathPlan;
use std::alloc::Global;
use std::sync::ledger::Ledger;
use wan_topology::Topology;

/// Whether the closings, in their order, are seen to be right ("Right closings",
/// docs/DEFINITIONS.md). Link numbers and shares in the list may be any.
///
/// Each look at a link is counted: a look asks for the load of one link at one share. A link is
/// looked at once where it closes, at most once for each path group over it that a group leaves, at
/// most once for each to which one comes, and once at the top.
pub fn seen_right<V: GroupValues, L: Ledger>(
    alloc: Global,
    values: &V,
    topology: &Topology,
    plan: &PathPlan,
    closings: &[Closing],
    steps: &mut Steps<L>,
) -> Result<bool, OutOfMemory>
    requires built_on { IsBuiltOn topology.now plan.now }
    requires groups { (V.meaning values.now).groups ≡ length plan.now }
    ensures right { IfOk result (λ seen. seen ≡ true
        → AreRightToTop (wan_of (V.meaning values.now) plan.now topology.now.capacities)
        (reverse closings.now)) }
    ensures wrong { IfOk result (λ seen. seen ≡ false
        → AreRightToTop (wan_of (V.meaning values.now) plan.now topology.now.capacities)
        (reverse closings.now) → ⊥) }

    // Also where memory runs out.
    ensures looks { let links = length topology.now.capacities in
        steps.new
        ≤ steps.old + (links + length closings.now + 2 * links_over_all links plan.now) }
{
    let by_link = GroupsByLink::of(alloc, topology, plan)?;
    seen_listed(alloc, values, topology, plan, &by_link, closings, steps)
}

// The same, once the groups of each link are listed.
fn seen_listed<'a, V: GroupValues, L: Ledger>(
    alloc: Global,
    values: &'a V,
    topology: &'a Topology,
    plan: &'a PathPlan,
    by_link: &'a GroupsByLink<'a>,
    closings: &[Closing],
    steps: &mut Steps<L>,
) -> Result<bool, OutOfMemory>
    requires built_on { IsBuiltOn topology.now plan.now }
    requires listed { by_link.now ≡ plan.now }
    requires groups { (V.meaning values.now).groups ≡ length plan.now }
    ensures right { IfOk result (λ seen. seen ≡ true
        → AreRightToTop (wan_of (V.meaning values.now) plan.now topology.now.capacities)
        (reverse closings.now)) }
    ensures wrong { IfOk result (λ seen. seen ≡ false
        → AreRightToTop (wan_of (V.meaning values.now) plan.now topology.now.capacities)
        (reverse closings.now) → ⊥) }
    ensures looks { let links = length topology.now.capacities in
        steps.new
        ≤ steps.old + (links + length closings.now + 2 * links_over_all links plan.now) }
{
    let top = values.top();
    let mut known = KnownValues::none(alloc, plan.groups())?;
    let mut ended = Front::open(alloc, values, topology, plan, by_link)?;
    let Some(mut ends) = end_loads(alloc, &mut ended, &mut known, closings, top, steps)? else {
        return Ok(false);
    };
    let mut front = Front::open(alloc, values, topology, plan, by_link)?;
    let mut froms = vec![in alloc; 0; front.links() as usize]?;
    Ok(is_walked(
        alloc, &mut front, &mut known, &mut ends, &mut froms, closings, top, steps,
    )?)
}

// Whether the closings are seen to be right, where none is closed yet. With each link stands the
// place from which on it was not looked at.
pub(crate) fn is_walked<V: GroupValues, L: Ledger>(
    alloc: Global,
    front: &mut Front<V>,
    known: &mut KnownValues,
    ends: &mut EndLoads,
    froms: &mut [usize],
    closings: &[Closing],
    top: u64,
    steps: &mut Steps<L>,
) -> Result<bool, OutOfMemory>
    requires front { IsFront V.meaning front.old }
    requires known { AreKnownTwice (wan_in V.meaning front.old) known.old }
    requires ends { AreEndLoads (wan_in V.meaning front.old) closings.now ends.old }
    requires walked { IsWalked (wan_in V.meaning front.old) (closings_in front.old) closings.now 0
        froms.old }
    requires none { closings_in front.old ≡ [] }
    requires top { top ≡ (wan_in V.meaning front.old).top }
    ensures right { IfOk result (λ seen. seen ≡ true
        → AreRightToTop (wan_in V.meaning front.old) (reverse closings.now)) }
    ensures wrong { IfOk result (λ seen. seen ≡ false
        → AreRightToTop (wan_in V.meaning front.old) (reverse closings.now) → ⊥) }
    ensures ticks { steps.new
        ≤ steps.old + length closings.now + moves_ahead (wan_in V.meaning front.old) [] }
{
    for at in 0..closings.len() {
        if !passes(alloc, front, known, ends, froms, closings, at, top, steps)? {
            return Ok(false);
        }
    }
    Ok(true)
}

// Whether the closing is seen to be right if all before it are, but for the looks that links owe.
fn passes<V: GroupValues, L: Ledger>(
    alloc: Global,
    front: &mut Front<V>,
    known: &mut KnownValues,
    ends: &mut EndLoads,
    froms: &mut [usize],
    closings: &[Closing],
    at: usize,
    top: u64,
    steps: &mut Steps<L>,
) -> Result<bool, OutOfMemory>
    requires front { IsFront V.meaning front.old }
    requires known { AreKnownTwice (wan_in V.meaning front.old) known.old }
    requires ends { AreEndLoads (wan_in V.meaning front.old) closings.now ends.old }
    requires closings { closings_in front.old ≡ reverse (take at closings.now) }
    requires at { at < length closings.now }
    requires walked { IsWalked (wan_in V.meaning front.old) (closings_in front.old) closings.now at
        froms.old }
    requires top { top ≡ (wan_in V.meaning front.old).top }
    ensures known { AreKnownTwice (wan_in V.meaning front.old) known.new }
    ensures ends { IfOk result (λ seen. seen ≡ true
        → AreEndLoads (wan_in V.meaning front.old) closings.now ends.new) }
    ensures front { OnOk result (IsFront V.meaning front.new) }
    ensures wan { OnOk result (wan_in V.meaning front.new ≡ wan_in V.meaning front.old) }
    ensures closings { IfOk result (λ seen. seen ≡ true
        → closings_in front.new ≡ closing_at closings.now at ∷ closings_in front.old) }
    ensures walked { IfOk result (λ seen. seen ≡ true
        → IsWalked (wan_in V.meaning front.old)
        (closing_at closings.now at ∷ closings_in front.old) closings.now (suc at) froms.new) }
    ensures wrong { IfOk result (λ seen. seen ≡ false
        → AreRight (wan_in V.meaning front.old) (closing_at closings.now at ∷ closings_in front.old) → ⊥) }
    ensures ticks { steps.new
        ≤ steps.old + 1 + moves_ahead (wan_in V.meaning front.old) (closings_in front.old) }
    ensures ticks_seen { IfOk result (λ seen. seen ≡ true
        → steps.new + moves_ahead (wan_in V.meaning front.old)
        (closing_at closings.now at ∷ closings_in front.old)
        ≤ steps.old + 1 + moves_ahead (wan_in V.meaning front.old) (closings_in front.old)) }
{
    let closing = closings[at];
    if !is_in_order(front, closing, top) {
        return Ok(false);
    }
    if !looks_over(alloc, front, known, closing.link, closing.share + 1, steps)? {
        return Ok(false);
    }
    ends.bound(front, closings, at);
    if !settles_all(alloc, front, known, ends, froms, closings, at, steps)? {
        return Ok(false);
    }
    ends.unbound(front, closings, closing.link);
    front.close(closing)?;
    Ok(true)
}

// Whether the closing is of an open link, at a share that the order allows.
pub(crate) fn is_in_order<V: GroupValues>(front: &Front<V>, closing: Closing, top: u64) -> bool
    requires top { top ≡ (wan_in V.meaning front.now).top }
    ensures link { result ≡ true → closing.link < length (wan_in V.meaning front.now).capacities }
    ensures open { result ≡ true
        → list_any (nat_eq closing.link) (closed_links (closings_in front.now)) ≡ false }
    ensures keeps { result ≡ true → last_share (closings_in front.now) ≤ closing.share }
    ensures below { result ≡ true → closing.share < (wan_in V.meaning front.now).top }
    ensures wrong { result ≡ false
        → IsRightAfter (wan_in V.meaning front.now) (closings_in front.now) closing → ⊥ }
{
    if closing.link >= front.links() {
        return false;
    }
    if front.growth.is_closed(closing.link) {
        return false;
    }
    if closing.share < last_of(front.closings()) {
        return false;
    }
    closing.share < top
}

// The share of the last closing, or 0.
fn last_of(closings: &[Closing]) -> u64
    ensures { result ≡ last_share (reverse closings.now) }
{
    match closings.last() {
        Some(closing) => closing.share,
        None => 0,
    }
}

// Looks at the links whose loads the closing changes, as far as they owe it. Whether all fit.
fn settles_all<V: GroupValues, L: Ledger>(
    alloc: Global,
    front: &Front<V>,
    known: &mut KnownValues,
    ends: &EndLoads,
    froms: &mut [usize],
    closings: &[Closing],
    at: usize,
    steps: &mut Steps<L>,
) -> Result<bool, OutOfMemory>
    requires front { IsFront V.meaning front.now }
    requires known { AreKnownTwice (wan_in V.meaning front.now) known.old }
    requires bounds { AreBounds (wan_in V.meaning front.now) (closings_in front.now) ends.now }
    requires order { IsAt (wan_in V.meaning front.now) (closings_in front.now) closings.now at }
    requires owing { AreOwing (wan_in V.meaning front.now) (closings_in front.now) closings.now at
        froms.old }
    ensures known { AreKnownTwice (wan_in V.meaning front.now) known.new }
    ensures settles { IfOk result (λ fits. fits ≡ true
        → Settles (wan_in V.meaning front.now) (closings_in front.now) closings.now at froms.old
        froms.new) }
    ensures off { IfOk result (λ fits. fits ≡ true
        → StayOff (wan_in V.meaning front.now) (closings_in front.now) closings.now at froms.new
        (length (wan_in V.meaning front.now).groups)) }
    ensures wrong { IfOk result (λ fits. fits ≡ false
        → AreRight (wan_in V.meaning front.now) (closing_at closings.now at ∷ closings_in front.now) → ⊥) }
    ensures ticks { steps.new
        ≤ steps.old + moves_ahead (wan_in V.meaning front.now) (closings_in front.now) }
    ensures ticks_seen { IfOk result (λ fits. fits ≡ true
        → steps.new + moves_ahead (wan_in V.meaning front.now)
        (closing_at closings.now at ∷ closings_in front.now)
        ≤ steps.old + moves_ahead (wan_in V.meaning front.now) (closings_in front.now)) }
{
    for group in front.by_link.on(closings[at].link) {
        if !settles_group(
            alloc, front, known, ends, *group, froms, closings, at, steps,
        )? {
            return Ok(false);
        }
    }
    Ok(true)
}

// The same of the links on the path group that the group leaves, and of those on the one to which
// it comes.
fn settles_group<V: GroupValues, L: Ledger>(
    alloc: Global,
    front: &Front<V>,
    known: &mut KnownValues,
    ends: &EndLoads,
    group: u32,
    froms: &mut [usize],
    closings: &[Closing],
    at: usize,
    steps: &mut Steps<L>,
) -> Result<bool, OutOfMemory>
    requires front { IsFront V.meaning front.now }
    requires known { AreKnownTwice (wan_in V.meaning front.now) known.old }
    requires bounds { AreBounds (wan_in V.meaning front.now) (closings_in front.now) ends.now }
    requires group { group < length (wan_in V.meaning front.now).groups }
    requires order { IsAt (wan_in V.meaning front.now) (closings_in front.now) closings.now at }
    requires owing { AreOwing (wan_in V.meaning front.now) (closings_in front.now) closings.now at
        froms.old }
    ensures known { AreKnownTwice (wan_in V.meaning front.now) known.new }
    ensures settles { IfOk result (λ fits. fits ≡ true
        → Settles (wan_in V.meaning front.now) (closings_in front.now) closings.now at froms.old
        froms.new) }
    ensures off { IfOk result (λ fits. fits ≡ true
        → (link : ℕ) → from_at froms.new link ≤ at
        → StaysOff (wan_in V.meaning front.now) (closings_in front.now) closings.now at link
        (from_at froms.new link) group) }
    ensures wrong { IfOk result (λ fits. fits ≡ false
        → AreRight (wan_in V.meaning front.now) (closing_at closings.now at ∷ closings_in front.now) → ⊥) }
    ensures ticks { steps.new + moves_of (wan_in V.meaning front.now)
        (closing_at closings.now at ∷ closings_in front.now) group
        ≤ steps.old + moves_of (wan_in V.meaning front.now) (closings_in front.now) group }
{
    let closing = closings[at];
    let Some(place) = place_over(&front.growth, group, closing.link) else {
        return Ok(true);
    };
    if !settles_links(
        alloc, front, known, ends, group, place, true, froms, closings, at, steps,
    )? {
        return Ok(false);
    }
    match next_place(&front.growth, group, closing.link) {
        Some(next) => Ok(settles_links(
            alloc, front, known, ends, group, next, false, froms, closings, at, steps,
        )?),
        None => Ok(true),
    }
}

// The same of the links of a path group: of one that a group leaves of all, and of one to which it
// comes of those that need more than the share of the closing.
fn settles_links<V: GroupValues, L: Ledger>(
    alloc: Global,
    front: &Front<V>,
    known: &mut KnownValues,
    ends: &EndLoads,
    group: u32,
    place: u32,
    leaves: bool,
    froms: &mut [usize],
    closings: &[Closing],
    at: usize,
    steps: &mut Steps<L>,
) -> Result<bool, OutOfMemory>
    requires front { IsFront V.meaning front.now }
    requires known { AreKnownTwice (wan_in V.meaning front.now) known.old }
    requires bounds { AreBounds (wan_in V.meaning front.now) (closings_in front.now) ends.now }
    requires group { group < length (wan_in V.meaning front.now).groups }
    requires place { place < path_group_count (wan_in V.meaning front.now).groups group }
    requires order { IsAt (wan_in V.meaning front.now) (closings_in front.now) closings.now at }
    requires owing { AreOwing (wan_in V.meaning front.now) (closings_in front.now) closings.now at
        froms.old }
    ensures known { AreKnownTwice (wan_in V.meaning front.now) known.new }
    ensures settles { IfOk result (λ fits. fits ≡ true
        → Settles (wan_in V.meaning front.now) (closings_in front.now) closings.now at froms.old
        froms.new) }
    ensures low { IfOk result (λ fits. fits ≡ true
        → (link : ℕ) → uses (path_group_at (wan_in V.meaning front.now).groups group place) link
        ≡ true → from_at froms.new link ≤ at
        → IsHigh closings.now at link (from_at froms.new link) → ⊥) }
    ensures settled { IfOk result (λ fits. fits ≡ true → leaves ≡ true
        → (link : ℕ) → uses (path_group_at (wan_in V.meaning front.now).groups group place) link
        ≡ true → at < from_at froms.new link) }
    ensures wrong { IfOk result (λ fits. fits ≡ false
        → AreRight (wan_in V.meaning front.now) (closing_at closings.now at ∷ closings_in front.now) → ⊥) }
    ensures ticks { steps.new
        ≤ steps.old + links_of (length (wan_in V.meaning front.now).capacities)
        (path_group_at (wan_in V.meaning front.now).groups group place) }
{
    for part in front.by_link.plan().parts(group, place) {
        if !settles_link(
            alloc, front, known, ends, part.link, leaves, froms, closings, at, steps,
        )? {
            return Ok(false);
        }
    }
    Ok(true)
}

// The same of one link. It is one look, or none where it was looked at.
fn settles_link<V: GroupValues, L: Ledger>(
    alloc: Global,
    front: &Front<V>,
    known: &mut KnownValues,
    ends: &EndLoads,
    link: u32,
    leaves: bool,
    froms: &mut [usize],
    closings: &[Closing],
    at: usize,
    steps: &mut Steps<L>,
) -> Result<bool, OutOfMemory>
    requires front { IsFront V.meaning front.now }
    requires known { AreKnownTwice (wan_in V.meaning front.now) known.old }
    requires bounds { AreBounds (wan_in V.meaning front.now) (closings_in front.now) ends.now }
    requires link { link < length (wan_in V.meaning front.now).capacities }
    requires order { IsAt (wan_in V.meaning front.now) (closings_in front.now) closings.now at }
    requires owing { AreOwing (wan_in V.meaning front.now) (closings_in front.now) closings.now at
        froms.old }
    ensures known { AreKnownTwice (wan_in V.meaning front.now) known.new }
    ensures settles { IfOk result (λ fits. fits ≡ true
        → Settles (wan_in V.meaning front.now) (closings_in front.now) closings.now at froms.old
        froms.new) }
    ensures low { IfOk result (λ fits. fits ≡ true → from_at froms.new link ≤ at
        → IsHigh closings.now at link (from_at froms.new link) → ⊥) }
    ensures settled { IfOk result (λ fits. fits ≡ true → leaves ≡ true
        → at < from_at froms.new link) }
    ensures wrong { IfOk result (λ fits. fits ≡ false
        → AreRight (wan_in V.meaning front.now) (closing_at closings.now at ∷ closings_in front.now) → ⊥) }
    ensures ticks { steps.new
        ≤ steps.old + (if nat_lt at (from_at froms.old link) then 0 else 1) }
    ensures ticks_seen { IfOk result (λ fits. fits ≡ true
        → steps.new + (if nat_lt at (from_at froms.new link) then 0 else 1)
        ≤ steps.old + (if nat_lt at (from_at froms.old link) then 0 else 1)) }
{
    let from = froms[link as usize];
    if from > at {
        return Ok(true);
    }
    let share = owed(closings, from, at, link);
    if !leaves && share == closings[at].share {
        return Ok(true);
    }
    if is_over_by(alloc, front, known, ends, link, share, steps)? {
        return Ok(false);
    }
    froms[link as usize] = at + 1;
    Ok(true)
}

// A share that reaches what the link needs at the places from one to another, whose closing has the
// greatest share of them.
fn owed(closings: &[Closing], from: usize, at: usize, link: u32) -> u64
    requires at { at < length closings.now }
    requires from { from ≤ at }
    requires rise { AreRising closings.now (suc at) }
    requires small { (closing_at closings.now at).share < MAX_SHARE }
    ensures reaches { Reaches closings.now from (suc at) link result }
    ensures last { (closing_at closings.now at).share ≤ result }
    ensures within { result ≤ suc (closing_at closings.now at).share }
    ensures needed { IsNeeded closings.now from at link result }
{
    let share = closings[at].share;
    if link < closings[at].link {
        return share + 1;
    }
    let mut place = at;
    while place > from && closings[place - 1].share == share {
        place -= 1;
        if link < closings[place].link {
            return share + 1;
        }
    }
    share
}
