//! The groups under the closings so far, where those that use a link are known.

ghost use Rattle.std.specs.Prelude.{◌≡◌, ℕ, ◌<◌, ◌≤◌, ◌+◌, ◌∷◌, [], length, reverse, IfOk, OnOk, OnErr};
ghost use Rattle.bwe_specs.specs.RightClosings.{last_share};
ghost use Rattle.path_groups.specs.Plan.{IsBuiltOn};
ghost use Rattle.mpfa_fill.specs.GroupValues.{Values, AreGroupValues, wan_of};
ghost use Rattle.mpfa_fill.specs.Growth.{IsUpOver, AreTermsOn};
ghost use Rattle.link_front.specs.Front.{wan_in, closings_in, added_in, standing_at, KeepsParts, AreKnown, IsFront};

use crate::by_link::GroupsByLink;
use bwe_specs::{Closing, OutOfMemory};
use growth_queries::{bring_up_over, term_of_use};
use mpfa_fill::{GroupValues, Growth, Term, ValueAt};
use path_groups::PathPlan;
use std::alloc::Global;
use wan_topology::Topology;

/// The closings so far, how each group stands under them, and which groups use each link.
#[derive(Drop)]
pub struct Front<'a, V: GroupValues> {
    pub growth: Growth<'a, V>,
    pub by_link: &'a GroupsByLink<'a>,
}

impl<'a, V: GroupValues> Front<'a, V> {
    /// Nothing is closed and every amount is 0.
    pub fn open(
        alloc: Global,
        values: &'a V,
        topology: &'a Topology,
        plan: &'a PathPlan,
        by_link: &'a GroupsByLink<'a>,
    ) -> Result<Front<'a, V>, OutOfMemory>
        requires built_on { IsBuiltOn topology.now plan.now }
        requires listed { by_link.now ≡ plan.now }
        requires values { AreGroupValues (V.meaning values.now) }
        requires groups { (V.meaning values.now).groups ≡ length plan.now }
        ensures front { IfOk result (IsFront V.meaning) }
        ensures wan { IfOk result (λ front.
            wan_in V.meaning front
            ≡ wan_of (V.meaning values.now) plan.now topology.now.capacities) }
        ensures closings { IfOk result (λ front. closings_in front ≡ []) }
    {
        let growth = Growth::open(alloc, values, topology, plan)?;
        Ok(Front { growth, by_link })
    }

    /// How many links there are.
    pub fn links(&self) -> u32
        ensures { result ≡ length (wan_in V.meaning self.now).capacities }
    {
        self.growth.links()
    }

    /// The closings so far, in their order.
    pub fn closings(&self) -> &[Closing]
        ensures { reverse result.now ≡ closings_in self.now }
    {
        self.growth.closings()
    }

    /// Closes a link. A group that grew over it goes on with its next open path group.
    pub fn close(&mut self, closing: Closing) -> Result<(), OutOfMemory>
        requires front { IsFront V.meaning self.old }
        requires keeps { last_share (closings_in self.old) ≤ closing.share }
        requires below { closing.share < (wan_in V.meaning self.old).top }
        ensures front { OnOk result (IsFront V.meaning self.new) }
        ensures wan { OnOk result (wan_in V.meaning self.new ≡ wan_in V.meaning self.old) }
        ensures closings { OnOk result (closings_in self.new ≡ closing ∷ closings_in self.old) }
    {
        self.bring_up(closing.link, closing.share);
        self.growth.close(closing)?;
        let by_link = self.by_link;
        for group in by_link.on(closing.link) {
            self.growth.move_on(*group, closing);
        }
        Ok(())
    }

    /// Adds what the groups that grow over the link have at the share.
    pub fn bring_up(&mut self, link: u32, share: u64)
        requires front { IsFront V.meaning self.old }
        requires last { last_share (closings_in self.old) ≤ share }
        requires within { share ≤ (wan_in V.meaning self.old).top }
        ensures front { IsFront V.meaning self.new }
        ensures wan { wan_in V.meaning self.new ≡ wan_in V.meaning self.old }
        ensures parts { KeepsParts self.old self.new }
        ensures up { (group : ℕ) → group < length (wan_in V.meaning self.old).groups
            → IsUpOver (wan_in V.meaning self.old) link share group (standing_at self.new group) }
    {
        let by_link = self.by_link;
        for group in by_link.on(link) {
            bring_up_over(&mut self.growth, *group, link, share);
        }
    }

    /// The groups that grow over the link, each with what is known of its value.
    pub fn terms_on(
        &self,
        alloc: Global,
        link: u32,
        known: &[ValueAt],
    ) -> Result<Vec<Term>, OutOfMemory>
        requires front { IsFront V.meaning self.now }
        requires link { link < length (wan_in V.meaning self.now).capacities }
        requires known { AreKnown (wan_in V.meaning self.now) known.now }
        ensures { IfOk result
            (λ terms. AreTermsOn (wan_in V.meaning self.now) (closings_in self.now)
            (added_in self.now) link terms.items) }
    {
        let (groups, uses) = self.by_link.uses_on(link);
        let mut terms = Vec::new(alloc);
        for (at, group) in groups.iter().enumerate() {
            let value = known[*group as usize];
            if let Some(term) = term_of_use(&self.growth, *group, link, uses[at], value) {
                terms.push(term)?;
            }
        }
        Ok(terms)
    }
}
