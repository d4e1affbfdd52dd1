//! A moment of a filling, which goes from share to share and closes links.

ghost use Rattle.std.specs.Prelude.{◌≡◌, ◌<◌, ◌≤◌, ◌∷◌, [], true, length, reverse, IfOk, OnOk, None};
ghost use Rattle.bwe_specs.specs.Paths.{is_over as is_link_over};
ghost use Rattle.bwe_specs.specs.Filling.{filling_step, IsReached};
ghost use Rattle.bwe_specs.specs.RightClosings.{last_share, amounts_at, over_at, IsRightAfter};
ghost use Rattle.path_groups.specs.Plan.{IsBuiltOn};
ghost use Rattle.mpfa_fill.specs.GroupValues.{Values, AreGroupValues, wan_of};
ghost use Rattle.mpfa_fill.specs.Growth.{added_in, AreTermsOn};
ghost use Rattle.mpfa_fill.specs.Moment.{state_of, wan_in, IsMoment};
ghost use Rattle.mpfa_fill.specs.LastFit.{is_over_at, IsLastFit};
ghost use Rattle.mpfa_fill.specs.Filling.{IsFilling};

use crate::filling::Filling;
use crate::growth::{Growth, Term};
use crate::values::GroupValues;
use bwe_specs::{Closing, OutOfMemory};
use path_groups::PathPlan;
use std::alloc::Global;
use wan_topology::Topology;

/// A moment of a filling: a share, to which each group has come up, under the closings so far.
#[derive(Drop)]
pub struct Moment<'a, V: GroupValues> {
    growth: Growth<'a, V>,
    share: u64,
}

impl<'a, V: GroupValues> Moment<'a, V> {
    /// Share 0, where nothing is closed and every amount is 0.
    pub fn first(
        alloc: Global,
        values: &'a V,
        topology: &'a Topology,
        plan: &'a PathPlan,
    ) -> Result<Moment<'a, V>, OutOfMemory>
        requires built_on { IsBuiltOn topology.now plan.now }
        requires values { AreGroupValues (V.meaning values.now) }
        requires groups { (V.meaning values.now).groups ≡ length plan.now }
        ensures moment { IfOk result (IsMoment V.meaning) }
        ensures wan { IfOk result (λ moment.
            wan_in V.meaning moment
            ≡ wan_of (V.meaning values.now) plan.now topology.now.capacities) }
        ensures share { IfOk result (λ moment. (state_of moment).share ≡ 0) }
        ensures closings { IfOk result (λ moment. (state_of moment).closings ≡ []) }
    {
        let growth = Growth::open(alloc, values, topology, plan)?;
        Ok(Moment { growth, share: 0 })
    }

    /// The share.
    pub fn share(&self) -> u64
        ensures { result ≡ (state_of self.now).share }
    {
        self.share
    }

    /// The closings so far, in their order.
    pub fn closings(&self) -> &[Closing]
        ensures { reverse result.now ≡ (state_of self.now).closings }
    {
        self.growth.closings()
    }

    /// Goes to another share under the same closings, up or down. It takes no memory.
    ///
    /// It evaluates each group that still grows once, and touches the links of its path group
    /// alone.
    pub fn go_to(&mut self, share: u64)
        requires moment { IsMoment V.meaning self.old }
        requires last { last_share (state_of self.old).closings ≤ share }
        requires within { share ≤ (wan_in V.meaning self.old).top }
        ensures moment { IsMoment V.meaning self.new }
        ensures wan { wan_in V.meaning self.new ≡ wan_in V.meaning self.old }
        ensures share { (state_of self.new).share ≡ share }
        ensures closings { (state_of self.new).closings ≡ (state_of self.old).closings }
    {
        self.growth.bring_all_up(share);
        self.share = share;
    }

    /// Whether the link is over.
    pub fn is_over(&self, link: u32) -> bool
        requires moment { IsMoment V.meaning self.now }
        requires link { link < length (wan_in V.meaning self.now).capacities }
        ensures { let wan = wan_in V.meaning self.now in
            result ≡ is_link_over wan.groups wan.capacities
            (amounts_at wan (state_of self.now).closings (state_of self.now).share) link }
    {
        self.growth.is_over(link)
    }

    /// The lowest link that is over.
    pub fn first_over(&self) -> Option<u32>
        requires moment { IsMoment V.meaning self.now }
        ensures { result ≡ over_at
            (wan_in V.meaning self.now) (state_of self.now).closings (state_of self.now).share }
    {
        self.growth.first_over()
    }

    /// The greatest share from `low` to `high` at which the link by itself fits, whatever becomes
    /// of the others.
    ///
    /// It asks for the values of the groups that grow over the link, some 30 times each, and of no
    /// others.
    pub fn last_fit(
        &self,
        alloc: Global,
        link: u32,
        low: u64,
        high: u64,
    ) -> Result<u64, OutOfMemory>
        requires moment { IsMoment V.meaning self.now }
        requires link { link < length (wan_in V.meaning self.now).capacities }
        requires last { last_share (state_of self.now).closings ≤ low }
        requires order { low ≤ high }
        requires within { high ≤ (wan_in V.meaning self.now).top }
        ensures { IfOk result
            (IsLastFit (wan_in V.meaning self.now) (state_of self.now).closings link low high) }
    {
        let terms = self.terms_on(alloc, link)?;
        if low == high || !self.growth.is_over_at(&terms, link, high) {
            return Ok(high);
        }
        Ok(self.last_fit_below(&terms, link, low, high))
    }

    /// Closes the link at the share. A group that grew over it goes on with its next open path
    /// group.
    pub fn close_link(&mut self, link: u32) -> Result<(), OutOfMemory>
        requires moment { IsMoment V.meaning self.old }
        requires right { IsRightAfter (wan_in V.meaning self.old) (state_of self.old).closings
            (record { link = link; share = (state_of self.old).share }) }
        ensures moment { OnOk result (IsMoment V.meaning self.new) }
        ensures wan { OnOk result (wan_in V.meaning self.new ≡ wan_in V.meaning self.old) }
        ensures share { OnOk result ((state_of self.new).share ≡ (state_of self.old).share) }
        ensures closings { OnOk result ((state_of self.new).closings
            ≡ record { link = link; share = (state_of self.old).share }
            ∷ (state_of self.old).closings) }
    {
        let closing = Closing {
            link,
            share: self.share,
        };
        self.growth.close(closing)?;
        for group in 0..self.growth.groups() {
            self.growth.move_on(group, closing);
        }
        Ok(())
    }

    /// One step of the filling, below the top ("Filling step", docs/DEFINITIONS.md): the share
    /// rises by one, or where a link would be over, the lowest such link is closed.
    pub fn step(&mut self) -> Result<(), OutOfMemory>
        requires moment { IsMoment V.meaning self.old }
        requires reached { IsReached (wan_in V.meaning self.old) (state_of self.old) }
        requires below { (state_of self.old).share < (wan_in V.meaning self.old).top }
        ensures moment { OnOk result (IsMoment V.meaning self.new) }
        ensures wan { OnOk result (wan_in V.meaning self.new ≡ wan_in V.meaning self.old) }
        ensures step { OnOk result
            (state_of self.new ≡ filling_step (wan_in V.meaning self.old) (state_of self.old)) }
    {
        let share = self.share();
        self.go_to(share + 1);
        if let Some(link) = self.first_over() {
            self.go_to(share);
            self.close_link(link)?;
        }
        Ok(())
    }

    // The groups that grow over the link.
    fn terms_on(&self, alloc: Global, link: u32) -> Result<Vec<Term>, OutOfMemory>
        requires moment { IsMoment V.meaning self.now }
        requires link { link < length (wan_in V.meaning self.now).capacities }
        ensures { IfOk result
            (λ terms. AreTermsOn (wan_in V.meaning self.now) (state_of self.now).closings
            (added_in self.now.growth) link terms.items) }
    {
        let mut terms = Vec::new(alloc);
        for group in 0..self.growth.groups() {
            if let Some(term) = self.growth.term_of(group, link) {
                terms.push(term)?;
            }
        }
        Ok(terms)
    }

    // The greatest share at which the link fits, where it is over at a high one.
    fn last_fit_below(&self, terms: &[Term], link: u32, low: u64, high: u64) -> u64
        requires moment { IsMoment V.meaning self.now }
        requires link { link < length (wan_in V.meaning self.now).capacities }
        requires terms { AreTermsOn (wan_in V.meaning self.now) (state_of self.now).closings
            (added_in self.now.growth) link terms.now }
        requires last { last_share (state_of self.now).closings ≤ low }
        requires order { low < high }
        requires within { high ≤ (wan_in V.meaning self.now).top }
        requires over { is_over_at (wan_in V.meaning self.now) (state_of self.now).closings high
            link ≡ true }
        ensures { IsLastFit (wan_in V.meaning self.now) (state_of self.now).closings link low high
            result }
    {
        let mut low = low;
        let mut high = high - 1;
        while low < high {
            let middle = low + (high - low).div_ceil(2);
            if self.growth.is_over_at(terms, link, middle) {
                high = middle - 1;
            } else {
                low = middle;
            }
        }
        low
    }

    /// The filling, once the top is reached.
    pub fn into_filling(self, alloc: Global) -> Result<Filling, OutOfMemory>
        requires moment { IsMoment V.meaning self }
        requires at_top { (state_of self).share ≡ (wan_in V.meaning self).top }
        requires fits { over_at (wan_in V.meaning self) (state_of self).closings
            (state_of self).share ≡ None }
        ensures { IfOk result (IsFilling (wan_in V.meaning self.entry)) }
    {
        self.growth.into_filling(alloc, self.share)
    }
}
