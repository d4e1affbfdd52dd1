//! The loads with which a list of closings ends, and what they bound on the way there.
//!
//! As long as closings are made in their order no load falls. So where the list leaves a link that
//! fits in the end, it fits at all their shares. What a link has one share further, before a
//! closing, is more than that at most by what the groups have there that leave the closed link. So
//! most links need no look.

ghost use Rattle.std.specs.Prelude.{◌≡◌, ℕ, ◌+◌, ◌<◌, ◌≤◌, suc, [], true, false, length, reverse, take, slice_index, IfOk, OnOk, IfSome, None};
ghost use Rattle.bwe_specs.specs.Paths.{path_group_at, path_group_count, link_load, load_on, uses};
ghost use Rattle.bwe_specs.specs.RightClosings.{last_share, amounts_at, AreRightToTop};
ghost use Rattle.path_groups.specs.Parts.{has_part};
ghost use Rattle.mpfa_fill.specs.GroupValues.{Values};
ghost use Rattle.mpfa_fill.specs.LastFit.{is_over_at};
ghost use Rattle.link_front.specs.Front.{wan_in, closings_in, IsFront};
ghost use Rattle.closing_walk.specs.Known.{AreKnownTwice};
ghost use Rattle.closing_walk.specs.Walk.{closing_at, AreRising, IsAt, IsOrdered};
ghost use Rattle.closing_walk.specs.Ends.{AreEndLoads, AreBounds, AreWithin, AreLoads, FitsBy};

use crate::known::{KnownValues, load_at, looks_over};
use crate::walk::is_in_order;
use bwe_specs::{Closing, MAX_TOTAL, OutOfMemory};
use growth_queries::place_over;
use link_front::Front;
use mono_search::Steps;
use mpfa_fill::GroupValues;
use path_groups::PathPlan;
use std::alloc::Global;
use std::sync::ledger::Ledger;

// More than that is not kept as the extra of a link.
const MOST: u64 = u64::MAX;

/// Of each link its load at the top, once all closings of the list are made; and what the groups
/// that leave the next closed link put on it from its share to the next. `upto` is that next share,
/// where the extra is known. Loads are kilobits per second.
#[derive(Drop)]
pub(crate) struct EndLoads {
    pub(crate) loads: Vec<u64>,
    pub(crate) extra: Vec<u64>,
    pub(crate) upto: Option<u64>,
}

/// The loads with which the closings end, where nothing is closed yet. `None` where they are not in
/// order, or a link is over in the end. Each link is looked at once.
pub(crate) fn end_loads<V: GroupValues, L: Ledger>(
    alloc: Global,
    front: &mut Front<V>,
    known: &mut KnownValues,
    closings: &[Closing],
    top: u64,
    steps: &mut Steps<L>,
) -> Result<Option<EndLoads>, OutOfMemory>
    requires front { IsFront V.meaning front.old }
    requires known { AreKnownTwice (wan_in V.meaning front.old) known.old }
    requires none { closings_in front.old ≡ [] }
    requires top { top ≡ (wan_in V.meaning front.old).top }
    ensures known { AreKnownTwice (wan_in V.meaning front.old) known.new }
    ensures ends { IfOk result
        (λ found. IfSome found (AreEndLoads (wan_in V.meaning front.old) closings.now)) }
    ensures wrong { IfOk result (λ found. found ≡ None
        → AreRightToTop (wan_in V.meaning front.old) (reverse closings.now) → ⊥) }
    ensures ticks { steps.new ≤ steps.old + length (wan_in V.meaning front.old).capacities }
{
    if !closes_all(front, closings, top)? {
        return Ok(None);
    }
    let extra = vec![in alloc; 0; front.links() as usize]?;
    match loads_in_end(alloc, front, known, top, steps)? {
        Some(loads) => Ok(Some(EndLoads {
            loads,
            extra,
            upto: None,
        })),
        None => Ok(None),
    }
}

// Makes the closings, as long as they are in order. Whether all are.
fn closes_all<V: GroupValues>(
    front: &mut Front<V>,
    closings: &[Closing],
    top: u64,
) -> Result<bool, OutOfMemory>
    requires front { IsFront V.meaning front.old }
    requires none { closings_in front.old ≡ [] }
    requires top { top ≡ (wan_in V.meaning front.old).top }
    ensures front { OnOk result (IsFront V.meaning front.new) }
    ensures wan { OnOk result (wan_in V.meaning front.new ≡ wan_in V.meaning front.old) }
    ensures closings { IfOk result (λ all. all ≡ true
        → closings_in front.new ≡ reverse closings.now) }
    ensures order { IfOk result (λ all. all ≡ true
        → IsOrdered (wan_in V.meaning front.old) closings.now (length closings.now)) }
    ensures wrong { IfOk result (λ all. all ≡ false
        → AreRightToTop (wan_in V.meaning front.old) (reverse closings.now) → ⊥) }
{
    for at in 0..closings.len() {
        if !is_in_order(front, closings[at], top) {
            return Ok(false);
        }
        front.close(closings[at])?;
    }
    Ok(true)
}

// The load of each link at the top, or `None` where one is over there.
fn loads_in_end<V: GroupValues, L: Ledger>(
    alloc: Global,
    front: &Front<V>,
    known: &mut KnownValues,
    top: u64,
    steps: &mut Steps<L>,
) -> Result<Option<Vec<u64>>, OutOfMemory>
    requires front { IsFront V.meaning front.now }
    requires known { AreKnownTwice (wan_in V.meaning front.now) known.old }
    requires top { top ≡ (wan_in V.meaning front.now).top }
    ensures known { AreKnownTwice (wan_in V.meaning front.now) known.new }
    ensures loads { IfOk result (λ found. IfSome found (λ loads.
        AreLoads (wan_in V.meaning front.now) (closings_in front.now) top
        (length (wan_in V.meaning front.now).capacities) loads.items)) }
    ensures over { IfOk result (λ found. found ≡ None
        → ((link : ℕ) → link < length (wan_in V.meaning front.now).capacities
        → is_over_at (wan_in V.meaning front.now) (closings_in front.now) top link ≡ false) → ⊥) }
    ensures ticks { steps.new ≤ steps.old + length (wan_in V.meaning front.now).capacities }
{
    let mut loads = Vec::new(alloc);
    for link in 0..front.links() {
        let load = load_at(alloc, front, known, link, top, steps)?;
        if load > front.growth.capacity(link) as u128 {
            return Ok(None);
        }
        loads.push(load as u64)?;
    }
    Ok(Some(loads))
}

impl EndLoads {
    /// Makes the extra that of the closing at a place, and so bounds the loads one share further.
    /// Where the next closing is at the same share, nothing is known of it.
    pub(crate) fn bound<V: GroupValues>(
        &mut self,
        front: &Front<V>,
        closings: &[Closing],
        at: usize,
    )
        requires front { IsFront V.meaning front.now }
        requires order { IsAt (wan_in V.meaning front.now) (closings_in front.now) closings.now at }
        requires closings { closings_in front.now ≡ reverse (take at closings.now) }
        requires ends { AreEndLoads (wan_in V.meaning front.now) closings.now self.old }
        ensures bounds { AreBounds (wan_in V.meaning front.now) (closings_in front.now) self.new }
        ensures ends { AreEndLoads (wan_in V.meaning front.now) closings.now self.new }
    {
        self.upto = None;
        if !is_last_at(closings, at) {
            return;
        }
        add_all(front, &mut self.extra, closings, at);
        self.upto = Some(closings[at].share + 1);
    }

    /// Takes the extra of the groups over a link away.
    pub(crate) fn unbound<V: GroupValues>(
        &mut self,
        front: &Front<V>,
        closings: &[Closing],
        link: u32,
    )
        requires front { IsFront V.meaning front.now }
        requires ends { AreEndLoads (wan_in V.meaning front.now) closings.now self.old }
        ensures { AreEndLoads (wan_in V.meaning front.now) closings.now self.new }
    {
        self.upto = None;
        for group in front.by_link.on(link) {
            clear_group(front, &mut self.extra, *group, link);
        }
    }

    // Whether they show that the link fits at the share.
    fn fits(&self, link: u32, share: u64, capacity: u64) -> bool
        requires loads { link < length self.now.loads.items }
        requires extra { link < length self.now.extra.items }
        ensures { result ≡ true → FitsBy self.now link share capacity }
    {
        match self.upto {
            Some(upto) => {
                let load = self.loads[link as usize];
                let extra = self.extra[link as usize];
                share <= upto && extra < MOST && load as u128 + extra as u128 <= capacity as u128
            }
            None => false,
        }
    }
}

/// Whether the link is over at a share, if nothing closes on the way there. It is one look, or none
/// where it fits by the loads of the end.
pub(crate) fn is_over_by<V: GroupValues, L: Ledger>(
    alloc: Global,
    front: &Front<V>,
    known: &mut KnownValues,
    ends: &EndLoads,
    link: u32,
    share: u64,
    steps: &mut Steps<L>,
) -> Result<bool, OutOfMemory>
    requires front { IsFront V.meaning front.now }
    requires known { AreKnownTwice (wan_in V.meaning front.now) known.old }
    requires bounds { AreBounds (wan_in V.meaning front.now) (closings_in front.now) ends.now }
    requires link { link < length (wan_in V.meaning front.now).capacities }
    requires last { last_share (closings_in front.now) ≤ share }
    requires within { share ≤ (wan_in V.meaning front.now).top }
    ensures known { AreKnownTwice (wan_in V.meaning front.now) known.new }
    ensures over { IfOk result
        (λ over. over ≡ is_over_at (wan_in V.meaning front.now) (closings_in front.now) share link) }
    ensures ticks { steps.new ≤ steps.old + 1 }
{
    if ends.fits(link, share, front.growth.capacity(link)) {
        return Ok(false);
    }
    looks_over(alloc, front, known, link, share, steps)
}

// Whether each later closing is at a higher share than the one at the place.
fn is_last_at(closings: &[Closing], at: usize) -> bool
    requires at { at < length closings.now }
    requires rise { AreRising closings.now (length closings.now) }
    ensures { result ≡ true → (place : ℕ) → at < place → place < length closings.now
        → (closing_at closings.now at).share < (closing_at closings.now place).share }
{
    if at + 1 < closings.len() {
        closings[at].share < closings[at + 1].share
    } else {
        true
    }
}

// Adds to the extra of each link what the groups that grow over the link of the closing put on it
// from the share of the closing to the next.
fn add_all<V: GroupValues>(front: &Front<V>, extra: &mut [u64], closings: &[Closing], at: usize)
    requires front { IsFront V.meaning front.now }
    requires order { IsAt (wan_in V.meaning front.now) (closings_in front.now) closings.now at }
    requires closings { closings_in front.now ≡ reverse (take at closings.now) }
    requires each { length extra.old ≡ length (wan_in V.meaning front.now).capacities }
    requires rise { AreRising closings.now (length closings.now) }
    requires below { (place : ℕ) → place < length closings.now
        → (closing_at closings.now place).share < (wan_in V.meaning front.now).top }
    requires later { (place : ℕ) → at < place → place < length closings.now
        → (closing_at closings.now at).share < (closing_at closings.now place).share }
    ensures each { length extra.new ≡ length extra.old }
    ensures within { AreWithin (wan_in V.meaning front.now) (closings_in front.now) closings.now
        (suc (closing_at closings.now at).share) extra.new
        (length (wan_in V.meaning front.now).groups) }
{
    let link = closings[at].link;
    for group in front.by_link.on(link) {
        add_group(front, extra, closings, at, *group);
    }
}

// The same of one group.
fn add_group<V: GroupValues>(
    front: &Front<V>,
    extra: &mut [u64],
    closings: &[Closing],
    at: usize,
    group: u32,
)
    requires front { IsFront V.meaning front.now }
    requires order { IsAt (wan_in V.meaning front.now) (closings_in front.now) closings.now at }
    requires closings { closings_in front.now ≡ reverse (take at closings.now) }
    requires each { length extra.old ≡ length (wan_in V.meaning front.now).capacities }
    requires rise { AreRising closings.now (length closings.now) }
    requires below { (place : ℕ) → place < length closings.now
        → (closing_at closings.now place).share < (wan_in V.meaning front.now).top }
    requires later { (place : ℕ) → at < place → place < length closings.now
        → (closing_at closings.now at).share < (closing_at closings.now place).share }
    requires group { group < length (wan_in V.meaning front.now).groups }
    requires within { AreWithin (wan_in V.meaning front.now) (closings_in front.now) closings.now
        (suc (closing_at closings.now at).share) extra.old group }
    ensures each { length extra.new ≡ length extra.old }
    ensures within { AreWithin (wan_in V.meaning front.now) (closings_in front.now) closings.now
        (suc (closing_at closings.now at).share) extra.new (group + 1) }
{
    let closing = closings[at];
    let Some(place) = place_over(&front.growth, group, closing.link) else {
        return;
    };
    let more = rise_of(front, group, closing.share);
    add_parts(front.by_link.plan(), extra, group, place, more);
}

// By so much the group's value rises from the share to the next.
fn rise_of<V: GroupValues>(front: &Front<V>, group: u32, share: u64) -> u64
    requires front { IsFront V.meaning front.now }
    requires group { group < length (wan_in V.meaning front.now).groups }
    requires below { share < (wan_in V.meaning front.now).top }
    ensures rise { let wan = wan_in V.meaning front.now in
        wan.value group (suc share) ≤ wan.value group share + result }
    ensures few { result ≤ MAX_TOTAL }
{
    let here = front.growth.value(group, share);
    let next = front.growth.value(group, share + 1);
    next.saturating_sub(here).min(MAX_TOTAL)
}

// Adds what so much more of the group on its path group would put on each link.
fn add_parts(plan: &PathPlan, extra: &mut [u64], group: u32, place: u32, more: u64)
    requires group { group < length plan.now }
    requires place { place < path_group_count plan.now group }
    requires more { more ≤ MAX_TOTAL }
    requires links { (link : ℕ) → uses (path_group_at plan.now group place) link ≡ true
        → link < length extra.old }
    ensures each { length extra.new ≡ length extra.old }
    ensures grown { (link : ℕ) → slice_index extra.old link ≤ slice_index extra.new link }
    ensures added { (link : ℕ) → uses (path_group_at plan.now group place) link ≡ true
        → slice_index extra.new link < 18446744073709551615
        → slice_index extra.old link + load_on (path_group_at plan.now group place) link more
        ≤ slice_index extra.new link }
{
    for part in plan.parts(group, place) {
        let load = plan.load(group, place, part.link, more);
        let link = part.link as usize;
        extra[link] = extra[link].saturating_add(load);
    }
}

// Takes away the extra of each link of the path group on which the group grows over a link.
fn clear_group<V: GroupValues>(front: &Front<V>, extra: &mut [u64], group: u32, link: u32)
    requires front { IsFront V.meaning front.now }
    requires each { length extra.old ≡ length (wan_in V.meaning front.now).capacities }
    requires group { group < length (wan_in V.meaning front.now).groups }
    ensures { length extra.new ≡ length extra.old }
{
    if let Some(place) = place_over(&front.growth, group, link) {
        clear_parts(front.by_link.plan(), extra, group, place);
    }
}

// Takes away the extra of each link of the path group.
fn clear_parts(plan: &PathPlan, extra: &mut [u64], group: u32, place: u32)
    requires group { group < length plan.now }
    requires place { place < path_group_count plan.now group }
    requires links { (link : ℕ) → uses (path_group_at plan.now group place) link ≡ true
        → link < length extra.old }
    ensures { length extra.new ≡ length extra.old }
{
    for part in plan.parts(group, place) {
        extra[part.link as usize] = 0;
    }
}
