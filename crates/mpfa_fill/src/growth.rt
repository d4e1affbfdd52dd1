//! The groups of a filling, each as it was when it last came up to its value.

ghost use Rattle.std.specs.Prelude.{◌≡◌, true, ℕ, ◌+◌, ◌-◌, ◌<◌, ◌≤◌, ◌∷◌, ◌++◌, [], length, map, reverse, set, slice_index, IfOk, OnOk, IfSome, MatchOption, None};
ghost use Rattle.std.specs.List.{list_any};
ghost use Rattle.bwe_specs.specs.Reports.{numbers};
ghost use Rattle.bwe_specs.specs.Paths.{path_group_at, path_group_count, uses, link_load, lowest_over, is_over as is_link_over};
ghost use Rattle.bwe_specs.specs.Filling.{closed_links};
ghost use Rattle.bwe_specs.specs.RightClosings.{last_share, amounts_at, over_at, AreRight};
ghost use Rattle.path_groups.specs.Plan.{IsBuiltOn};
ghost use Rattle.path_groups.specs.Parts.{IsPartOn};
ghost use Rattle.bwe_specs.specs.Lists.{lists_of};
ghost use Rattle.link_sums.specs.Sums.{amount_at, IsSummedOver, total_of};
ghost use Rattle.mpfa_fill.specs.GroupValues.{Values, AreGroupValues, wan_of};
ghost use Rattle.mpfa_fill.specs.Closings.{is_closed};
ghost use Rattle.mpfa_fill.specs.Standing.{IsPlaced, standing_under};
ghost use Rattle.mpfa_fill.specs.LastFit.{is_over_at, GrowsNotOver};
ghost use Rattle.mpfa_fill.specs.Growth.{wan_in, closings_in, added_in, standing_at, IsUp, KeepsParts, KeepsNetwork, IsGrowth, IsKnown, IsTermOf, AreTermsOn};
ghost use Rattle.mpfa_fill.specs.Filling.{IsFilling};
ghost use Rattle.mpfa_fill.specs.Told.{IsTold};
ghost use Rattle.mpfa_fill.specs.declared.standing.Standing.TheVariants.{Grows};

use crate::asked::Asked;
use crate::closings::Closings;
use crate::filling::Filling;
use crate::standing::{Standing, first_standings, standing_after, stop_shares, uses_closed};
use crate::values::GroupValues;
use bwe_specs::{Closing, MAX_TOTAL, OutOfMemory};
use link_sums::LinkSums;
use path_groups::{LinkPart, PathPlan};
use std::alloc::Global;
use wan_topology::Topology;

/// The closings so far, and how each group stands under them.
///
/// A group that grows has on its path group what was added of it, and its value above that of its
/// standing. What was added is summed over the links.
#[derive(Drop)]
pub struct Growth<'a, V: GroupValues> {
    values: &'a V,
    topology: &'a Topology,
    plan: &'a PathPlan,
    closings: Closings,
    standings: Vec<Standing>,
    sums: LinkSums,
}

/// A group that grows over a link: where, how much was added there and what that puts on the link,
/// and the value above which it has more. Its value at one share may be known, so that it is not
/// asked for there.
#[derive(Clone, Copy)]
pub struct Term {
    pub group: u32,
    pub place: u32,
    pub amount: u64,
    pub value: u64,
    pub part: LinkPart,
    pub held: u64,
    pub known: Option<ValueAt>,
}

/// A value at a share.
#[derive(Clone, Copy)]
pub struct ValueAt {
    pub share: u64,
    pub value: u64,
}

impl<'a, V: GroupValues> Growth<'a, V> {
    /// Nothing is closed and every amount is 0.
    pub fn open(
        alloc: Global,
        values: &'a V,
        topology: &'a Topology,
        plan: &'a PathPlan,
    ) -> Result<Growth<'a, V>, OutOfMemory>
        requires built_on { IsBuiltOn topology.now plan.now }
        requires values { AreGroupValues (V.meaning values.now) }
        requires groups { (V.meaning values.now).groups ≡ length plan.now }
        ensures growth { IfOk result (IsGrowth V.meaning) }
        ensures wan { IfOk result (λ growth.
            wan_in V.meaning growth
            ≡ wan_of (V.meaning values.now) plan.now topology.now.capacities) }
        ensures closings { IfOk result (λ growth. closings_in growth ≡ []) }
        ensures none { IfOk result
            (λ growth. (group place : ℕ) → added_in growth group place ≡ 0) }
    {
        let sums = LinkSums::open(alloc, topology, plan)?;
        let closings = Closings::none(alloc, topology.links())?;
        let standings = first_standings(alloc, plan, &closings)?;
        Ok(Growth {
            values,
            topology,
            plan,
            closings,
            standings,
            sums,
        })
    }

    /// How many links there are.
    pub fn links(&self) -> u32
        ensures { result ≡ length (wan_in V.meaning self.now).capacities }
    {
        self.topology.links()
    }

    /// How many groups there are.
    pub fn groups(&self) -> u32
        ensures { result ≡ length (wan_in V.meaning self.now).groups }
    {
        self.plan.groups()
    }

    /// What the groups may have at each share.
    pub fn values(&self) -> &V
        ensures { result.now ≡ self.now.values.now }
    {
        self.values
    }

    /// The path groups.
    pub fn plan(&self) -> &PathPlan
        ensures { result.now ≡ self.now.plan.now }
    {
        self.plan
    }

    /// The closings so far, in their order.
    pub fn closings(&self) -> &[Closing]
        ensures { reverse result.now ≡ closings_in self.now }
    {
        self.closings.list()
    }

    /// Whether the link was closed. It reads one flag.
    pub fn is_closed(&self, link: u32) -> bool
        ensures { result ≡ is_closed self.now.closings link }
    {
        self.closings.is_closed(link)
    }

    /// Whether the path group uses a link that was closed.
    pub fn uses_closed(&self, group: u32, place: u32) -> bool
        requires group { group < length self.now.plan.now }
        requires place { place < path_group_count self.now.plan.now group }
        ensures { result
            ≡ list_any (λ closing. uses (path_group_at self.now.plan.now group place) closing.link)
            self.now.closings }
    {
        uses_closed(self.plan, group, place, &self.closings)
    }

    /// How the group stands.
    pub fn standing(&self, group: u32) -> Standing
        requires growth { IsGrowth V.meaning self.now }
        requires group { group < length self.now.plan.now }
        ensures { result ≡ standing_at self.now group }
    {
        self.standings[group as usize]
    }

    /// What was added of the group on the path group.
    pub fn amount(&self, group: u32, place: u32) -> u64
        requires summed { IsSummedOver self.now.plan.now self.now.sums }
        requires group { group < length self.now.plan.now }
        requires place { place < path_group_count self.now.plan.now group }
        ensures { result ≡ added_in self.now group place }
    {
        self.sums.amount(self.plan, group, place)
    }

    /// Whether what was added puts the link over.
    pub fn is_over(&self, link: u32) -> bool
        requires growth { IsGrowth V.meaning self.now }
        requires link { link < length (wan_in V.meaning self.now).capacities }
        ensures { let wan = wan_in V.meaning self.now in
            result ≡ is_link_over wan.groups wan.capacities (added_in self.now) link }
    {
        self.sums.load(link) > self.topology.capacity(link)
    }

    /// The lowest link that what was added puts over.
    pub fn first_over(&self) -> Option<u32>
        requires growth { IsGrowth V.meaning self.now }
        ensures { let wan = wan_in V.meaning self.now in
            result ≡ lowest_over wan.groups wan.capacities (added_in self.now) }
    {
        self.sums.first_over(self.topology)
    }

    /// Adds what the group has at the share, if it grows. It takes no memory.
    pub fn bring_up(&mut self, group: u32, share: u64)
        requires group { group < length self.old.plan.now }
        requires growth { IsGrowth V.meaning self.old }
        requires last { last_share (closings_in self.old) ≤ share }
        requires within { share ≤ (wan_in V.meaning self.old).top }
        ensures growth { IsGrowth V.meaning self.new }
        ensures wan { wan_in V.meaning self.new ≡ wan_in V.meaning self.old }
        ensures parts { KeepsParts self.old self.new }
        ensures up { IsUp (wan_in V.meaning self.old) share group (standing_at self.new group) }
        ensures others { (other : ℕ) → (other ≡ group → ⊥)
            → standing_at self.new other ≡ standing_at self.old other }
    {
        let Standing::Grows { place, value } = self.standings[group as usize] else {
            return;
        };
        let now = self.values.value(group, share);
        change(&mut self.sums, self.plan, group, place, value, now);
        self.standings[group as usize] = Standing::Grows { place, value: now };
    }

    /// Adds what all groups that grow have at the share. It takes no memory.
    pub fn bring_all_up(&mut self, share: u64)
        requires growth { IsGrowth V.meaning self.old }
        requires last { last_share (closings_in self.old) ≤ share }
        requires within { share ≤ (wan_in V.meaning self.old).top }
        ensures growth { IsGrowth V.meaning self.new }
        ensures wan { wan_in V.meaning self.new ≡ wan_in V.meaning self.old }
        ensures parts { KeepsParts self.old self.new }
        ensures up { added_in self.new
            ≡ amounts_at (wan_in V.meaning self.old) (closings_in self.old) share }
    {
        for group in 0..self.plan.groups() {
            self.bring_up(group, share);
        }
    }

    /// Adds a closing. Each group that grew over its link has to move on next.
    pub fn close(&mut self, closing: Closing) -> Result<(), OutOfMemory>
        ensures closings { OnOk result
            (self.new.closings ≡ self.old.closings ++ closing ∷ []) }
        ensures network { KeepsNetwork self.old self.new }
        ensures standings { self.new.standings ≡ self.old.standings }
        ensures sums { self.new.sums ≡ self.old.sums }
    {
        self.closings.push(closing)?;
        Ok(())
    }

    /// The group goes on with its next open path group, if it grew over the link of the last
    /// closing. It answers how the group stood before, and how it stands now.
    pub fn move_on(&mut self, group: u32, closing: Closing) -> (Standing, Standing)
        requires group { group < length self.old.plan.now }
        requires standings { length self.old.standings.items ≡ length self.old.plan.now }
        requires placed { IsPlaced self.old.plan.now group (standing_at self.old group) }
        ensures before { result.0 ≡ standing_at self.old group }
        ensures after { result.1 ≡ standing_under self.old.plan.now group
            (closed_links (closings_in self.old)) closing (standing_at self.old group) }
        ensures standings { self.new.standings.items
            ≡ set self.old.standings.items group result.1 }
        ensures network { KeepsNetwork self.old self.new }
        ensures closings { self.new.closings ≡ self.old.closings }
        ensures sums { self.new.sums ≡ self.old.sums }
    {
        let before = self.standings[group as usize];
        let after = standing_after(self.plan, group, &self.closings, closing, before);
        self.standings[group as usize] = after;
        (before, after)
    }

    /// The group, if it grows over the link.
    pub fn term_of(&self, group: u32, link: u32) -> Option<Term>
        requires growth { IsGrowth V.meaning self.now }
        requires group { group < length self.now.plan.now }
        ensures { MatchOption result
            (GrowsNotOver (wan_in V.meaning self.now) (closings_in self.now) link group)
            (IsTermOf (wan_in V.meaning self.now) (closings_in self.now) (added_in self.now)
            link group) }
    {
        let Standing::Grows { place, value } = self.standings[group as usize] else {
            return None;
        };
        let part = self.plan.part(group, place, link)?;
        Some(self.term(group, place, value, part, None))
    }

    /// The term of the group at the link of the part. The group grows on the path group, from this
    /// value on. Its value at one share may be known.
    pub fn term(
        &self,
        group: u32,
        place: u32,
        value: u64,
        part: LinkPart,
        known: Option<ValueAt>,
    ) -> Term
        requires growth { IsGrowth V.meaning self.now }
        requires group { group < length self.now.plan.now }
        requires grows { standing_at self.now group ≡ Grows place value }
        requires part { IsPartOn (path_group_at self.now.plan.now group place) part.link part }
        requires known { IsKnown (wan_in V.meaning self.now) group known }
        ensures { IsTermOf (wan_in V.meaning self.now) (closings_in self.now) (added_in self.now)
            part.link group result }
    {
        let amount = self.sums.amount(self.plan, group, place);
        Term {
            group,
            place,
            amount,
            value,
            part,
            held: part.load(amount),
            known,
        }
    }

    /// The group's value at the share.
    pub fn value(&self, group: u32, share: u64) -> u64
        requires growth { IsGrowth V.meaning self.now }
        requires group { group < length self.now.plan.now }
        requires within { share ≤ (wan_in V.meaning self.now).top }
        ensures { result ≡ (wan_in V.meaning self.now).value group share }
    {
        self.values.value(group, share)
    }

    /// The capacity of the link.
    pub fn capacity(&self, link: u32) -> u64
        requires { link < length (wan_in V.meaning self.now).capacities }
        ensures { result ≡ slice_index (wan_in V.meaning self.now).capacities link }
    {
        self.topology.capacity(link)
    }

    /// What was added puts so much on the link.
    pub fn load(&self, link: u32) -> u64
        requires growth { IsGrowth V.meaning self.now }
        requires link { link < length (wan_in V.meaning self.now).capacities }
        ensures { result ≡ link_load (wan_in V.meaning self.now).groups (added_in self.now) link }
    {
        self.sums.load(link)
    }

    /// The load of the link at the share, if nothing closes on the way there. The terms are the
    /// groups that grow over it.
    pub fn load_at(&self, terms: &[Term], link: u32, share: u64) -> u128
        requires growth { IsGrowth V.meaning self.now }
        requires link { link < length (wan_in V.meaning self.now).capacities }
        requires terms { AreTermsOn (wan_in V.meaning self.now) (closings_in self.now)
            (added_in self.now) link terms.now }
        requires last { last_share (closings_in self.now) ≤ share }
        requires within { share ≤ (wan_in V.meaning self.now).top }
        ensures { let wan = wan_in V.meaning self.now in
            result ≡ link_load wan.groups (amounts_at wan (closings_in self.now) share) link }
    {
        let (load, _) = self.load_by(terms, link, share, Asked::Exactly);
        load
    }

    /// Whether the link is over at the share, if nothing closes on the way there. The terms are the
    /// groups that grow over it.
    pub fn is_over_at(&self, terms: &[Term], link: u32, share: u64) -> bool
        requires growth { IsGrowth V.meaning self.now }
        requires link { link < length (wan_in V.meaning self.now).capacities }
        requires terms { AreTermsOn (wan_in V.meaning self.now) (closings_in self.now)
            (added_in self.now) link terms.now }
        requires last { last_share (closings_in self.now) ≤ share }
        requires within { share ≤ (wan_in V.meaning self.now).top }
        ensures { result
            ≡ is_over_at (wan_in V.meaning self.now) (closings_in self.now) share link }
    {
        self.load_at(terms, link, share) > self.capacity(link) as u128
    }

    /// The load of the link at the share, if nothing closes on the way there, as it is asked, and
    /// whether it is the load itself. The terms are the groups that grow over it. Where the
    /// ceilings of the groups' values will do, or the floors, few values are asked for.
    pub fn load_by(&self, terms: &[Term], link: u32, share: u64, asked: Asked) -> (u128, bool)
        requires growth { IsGrowth V.meaning self.now }
        requires link { link < length (wan_in V.meaning self.now).capacities }
        requires terms { AreTermsOn (wan_in V.meaning self.now) (closings_in self.now)
            (added_in self.now) link terms.now }
        requires last { last_share (closings_in self.now) ≤ share }
        requires within { share ≤ (wan_in V.meaning self.now).top }
        ensures told { let wan = wan_in V.meaning self.now in IsTold asked
            (link_load wan.groups (amounts_at wan (closings_in self.now) share) link) result.0 }
        ensures exact { let wan = wan_in V.meaning self.now in result.1 ≡ true
            → result.0 ≡ link_load wan.groups (amounts_at wan (closings_in self.now) share) link }
    {
        let mut load = self.sums.load(link) as u128;
        let mut held: u128 = 0;
        let mut is_exact = true;
        for term in terms {
            let (then, is_amount) = self.amount_by(*term, share, asked);
            is_exact = is_exact & is_amount;
            held += term.held as u128;
            load += term.part.load(then) as u128;
        }
        (load.saturating_sub(held), is_exact)
    }

    // What the group of the term has at the share, on the path group where it grows, as is asked.
    // And whether it is the amount itself.
    fn amount_by(&self, term: Term, share: u64, asked: Asked) -> (u64, bool)
        requires growth { IsGrowth V.meaning self.now }
        requires term { IsTermOf (wan_in V.meaning self.now) (closings_in self.now)
            (added_in self.now) term.part.link term.group term }
        requires last { last_share (closings_in self.now) ≤ share }
        requires within { share ≤ (wan_in V.meaning self.now).top }
        ensures told { IsTold asked (amounts_at (wan_in V.meaning self.now) (closings_in self.now)
            share term.group term.place) result.0 }
        ensures exact { result.1 ≡ true → result.0
            ≡ amounts_at (wan_in V.meaning self.now) (closings_in self.now) share
            term.group term.place }
        ensures small { result.0 ≤ MAX_TOTAL }
    {
        let (value, is_exact) = self.value_by(term, share, asked);
        ((term.amount + value).saturating_sub(term.value), is_exact)
    }

    // The value of the group of the term at the share, as is asked, and no more than at the top. It
    // is asked for unless it is known, or few steps tell a ceiling or a floor where that will do.
    // And whether it is the value itself.
    fn value_by(&self, term: Term, share: u64, asked: Asked) -> (u64, bool)
        requires growth { IsGrowth V.meaning self.now }
        requires group { term.group < length self.now.plan.now }
        requires known { IsKnown (wan_in V.meaning self.now) term.group term.known }
        requires within { share ≤ (wan_in V.meaning self.now).top }
        ensures told { IsTold asked ((wan_in V.meaning self.now).value term.group share) result.0 }
        ensures exact { result.1 ≡ true
            → result.0 ≡ (wan_in V.meaning self.now).value term.group share }
        ensures most { result.0
            ≤ (wan_in V.meaning self.now).value term.group (wan_in V.meaning self.now).top }
    {
        let Some(known) = term.known else {
            return (self.values.value(term.group, share), true);
        };
        if known.share == share {
            return (known.value, true);
        }
        if known.share != self.values.top() {
            return (self.values.value(term.group, share), true);
        }
        if self.values.is_full(term.group, share, known.value) {
            return (known.value, true);
        }
        match self.bound_by(term.group, share, known.value, asked) {
            Some(bound) => (bound.min(known.value), false),
            None => (self.values.value(term.group, share), true),
        }
    }

    // A ceiling or a floor of the group's value at the share, as it is asked, where few steps tell
    // one. `most` is what the group has at the top.
    fn bound_by(&self, group: u32, share: u64, most: u64, asked: Asked) -> Option<u64>
        requires growth { IsGrowth V.meaning self.now }
        requires group { group < length self.now.plan.now }
        requires within { share ≤ (wan_in V.meaning self.now).top }
        requires most { most
            ≡ (wan_in V.meaning self.now).value group (wan_in V.meaning self.now).top }
        ensures { IfSome result (λ bound.
            IsTold asked ((wan_in V.meaning self.now).value group share) bound) }
    {
        match asked {
            Asked::Exactly => None,
            Asked::AtMost => self.values.ceiling(group, share),
            Asked::AtLeast => self.values.floor(group, share, most),
        }
    }

    /// The filling, once all groups have come up to the top and no link is over there.
    pub fn into_filling(self, alloc: Global, top: u64) -> Result<Filling, OutOfMemory>
        requires growth { IsGrowth V.meaning self }
        requires top { top ≡ (wan_in V.meaning self).top }
        requires up { added_in self ≡ amounts_at (wan_in V.meaning self) (closings_in self) top }
        requires right { AreRight (wan_in V.meaning self) (closings_in self) }
        requires fits { over_at (wan_in V.meaning self) (closings_in self) top ≡ None }
        ensures { IfOk result (IsFilling (wan_in V.meaning self.entry)) }
    {
        let amounts = amounts_of(alloc, self.plan, &self.sums)?;
        let shares = stop_shares(alloc, &self.standings, top)?;
        Ok(Filling {
            closings: self.closings.into_list(),
            amounts,
            shares,
            loads: self.sums.into_loads(),
        })
    }
}

// Raises or lowers an amount as a value has changed. Where it has not, no load is touched.
fn change(sums: &mut LinkSums, plan: &PathPlan, group: u32, place: u32, from: u64, to: u64)
    requires summed { IsSummedOver plan.now sums.old }
    requires group { group < length plan.now }
    requires place { place < path_group_count plan.now group }
    requires total { total_of plan.now sums.old.amounts + (to - from) ≤ MAX_TOTAL }
    requires amount { from - to ≤ amount_at sums.old.amounts group place }
    ensures summed { IsSummedOver plan.now sums.new }
    ensures links { length sums.new.loads ≡ length sums.old.loads }
    ensures amount { amount_at sums.new.amounts group place + from
        ≡ amount_at sums.old.amounts group place + to }
    ensures others { (group' place' : ℕ) → (group' ≡ group → place' ≡ place → ⊥)
        → amount_at sums.new.amounts group' place' ≡ amount_at sums.old.amounts group' place' }
{
    if from < to {
        sums.raise(plan, group, place, to - from);
    } else if to < from {
        sums.lower(plan, group, place, from - to);
    }
}

// The amounts in rows.
fn amounts_of(alloc: Global, plan: &PathPlan, sums: &LinkSums) -> Result<Vec<Vec<u64>>, OutOfMemory>
    requires { IsSummedOver plan.now sums.now }
    ensures { IfOk result (λ rows. lists_of rows.items
        ≡ map (λ group. map (amount_at sums.now.amounts group)
        (numbers (path_group_count plan.now group))) (numbers (length plan.now))) }
{
    let mut rows = Vec::new(alloc);
    for group in 0..plan.groups() {
        rows.push(row_of(alloc, plan, sums, group)?)?;
    }
    Ok(rows)
}

// The amounts of one group.
fn row_of(
    alloc: Global,
    plan: &PathPlan,
    sums: &LinkSums,
    group: u32,
) -> Result<Vec<u64>, OutOfMemory>
    requires rows { IsSummedOver plan.now sums.now }
    requires group { group < length plan.now }
    ensures { IfOk result
        (λ row. row.items
        ≡ map (amount_at sums.now.amounts group) (numbers (path_group_count plan.now group))) }
{
    let mut row = Vec::new(alloc);
    for place in 0..plan.places(group) {
        row.push(sums.amount(plan, group, place))?;
    }
    Ok(row)
}
