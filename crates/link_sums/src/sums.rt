//! Amounts and loads together.

ghost use Rattle.std.specs.Prelude.{◌≡◌, ◌↔◌, ℕ, ◌+◌, ◌<◌, ◌≤◌, List, length, slice_index, IfOk, IfSome, IsNone};
ghost use Rattle.bwe_specs.specs.Paths.{PathGroups, path_group_count, lowest_over};
ghost use Rattle.path_groups.specs.Plan.{IsBuiltOn};
ghost use Rattle.link_sums.specs.Sums.{amount_at, IsSummedOver, RaisesAmount, total_of, EachLinkFits, IsLowestOver};

use crate::amounts::{Amounts, zeros};
use crate::loads::move_loads;
use bwe_specs::{MAX_TOTAL, OutOfMemory};
use path_groups::PathPlan;
use std::alloc::Global;
use std::marker::Model;
use wan_topology::Topology;

/// Amounts by group and place, and the load that they put on each link. All are kilobits per
/// second.
#[derive(Drop)]
pub struct LinkSums {
    amounts: Amounts,
    loads: Vec<u64>,
}

impl Model for LinkSums {
    ghost use Rattle.link_sums.specs.Sums.{Sums};

    ghost Value = { Sums };

    ghost view = { λ sums. record { amounts = sums.amounts; loads = sums.loads.items } };
}

impl LinkSums {
    /// Sums over the plan and the links of the topology on which it was built. All amounts are 0,
    /// and so are all loads.
    pub fn open(
        alloc: Global,
        topology: &Topology,
        plan: &PathPlan,
    ) -> Result<LinkSums, OutOfMemory>
        requires built_on { IsBuiltOn topology.now plan.now }
        ensures summed { IfOk result (IsSummedOver plan.now) }
        ensures links { IfOk result (λ sums. length sums.loads ≡ length topology.now.capacities) }
        ensures none { IfOk result
            (λ sums. (group place : ℕ) → amount_at sums.amounts group place ≡ 0) }
    {
        let amounts = Amounts::open(alloc, plan)?;
        let loads = zeros(alloc, topology.links() as usize)?;
        Ok(LinkSums { amounts, loads })
    }

    /// The amount of the group at the place.
    pub fn amount(&self, plan: &PathPlan, group: u32, place: u32) -> u64
        requires summed { IsSummedOver plan.now self.now }
        requires group { group < length plan.now }
        requires place { place < path_group_count plan.now group }
        ensures { result ≡ amount_at self.now.amounts group place }
    {
        self.amounts.amount(plan, group, place)
    }

    /// The load of the link.
    pub fn load(&self, link: u32) -> u64
        requires { link < length self.now.loads }
        ensures { result ≡ slice_index self.now.loads link }
    {
        self.loads[link as usize]
    }

    /// The load of each link, by its number.
    pub fn into_loads(self) -> Vec<u64>
        ensures { result.items ≡ self.loads }
    {
        let LinkSums { loads, .. } = self;
        loads
    }

    /// The lowest link that is over, `None` where every link fits ("Load rule",
    /// docs/DEFINITIONS.md).
    ///
    /// `topology` has the links that `open` was given. Its capacities may have changed since.
    pub fn first_over(&self, topology: &Topology) -> Option<u32>
        requires same_links { length self.now.loads ≡ length topology.now.capacities }
        ensures none { IsNone result ↔ EachLinkFits topology.now.capacities self.now.loads }
        ensures lowest { IfSome result (IsLowestOver topology.now.capacities self.now.loads) }

        // The same in the words of the Load rule.
        ensures of_plan { (groups : List PathGroups) → IsSummedOver groups self.now
            → result ≡ lowest_over groups topology.now.capacities (amount_at self.now.amounts) }
    {
        for link in 0..topology.links() {
            if self.loads[link as usize] > topology.capacity(link) {
                return Some(link);
            }
        }
        None
    }

    /// Raises one amount by `more`, and the loads with it. The plan is the one that `open` was
    /// given.
    pub fn raise(&mut self, plan: &PathPlan, group: u32, place: u32, more: u64)
        requires summed { IsSummedOver plan.now self.old }
        requires group { group < length plan.now }
        requires place { place < path_group_count plan.now group }
        requires total { total_of plan.now self.old.amounts + more ≤ MAX_TOTAL }
        ensures raised { RaisesAmount self.old.amounts self.new.amounts group place more }
        ensures summed { IsSummedOver plan.now self.new }
        ensures links { length self.new.loads ≡ length self.old.loads }
    {
        let before = self.amounts.amount(plan, group, place);
        move_loads(&mut self.loads, plan, group, place, before, before + more);
        self.amounts.raise(plan, group, place, more);
    }

    /// Lowers one amount by `less`, and the loads with it. The plan is the one that `open` was
    /// given.
    pub fn lower(&mut self, plan: &PathPlan, group: u32, place: u32, less: u64)
        requires summed { IsSummedOver plan.now self.old }
        requires group { group < length plan.now }
        requires place { place < path_group_count plan.now group }
        requires less { less ≤ amount_at self.old.amounts group place }
        ensures lowered { RaisesAmount self.new.amounts self.old.amounts group place less }
        ensures summed { IsSummedOver plan.now self.new }
        ensures links { length self.new.loads ≡ length self.old.loads }
    {
        let before = self.amounts.amount(plan, group, place);
        move_loads(&mut self.loads, plan, group, place, before, before - less);
        self.amounts.lower(plan, group, place, less);
    }
}
