//! The fillings of all tiers, one after the other.

ghost use Rattle.std.specs.Prelude.{◌≡◌, ◌+◌, ◌-◌, ◌<◌, ◌≤◌, ◌^◌, ℕ, IfOk, OnOk, [], length, map, max, fold, replicate, slice_index, slice_index_or};
ghost use Rattle.bwe_specs.specs.Reports.{numbers};
ghost use Rattle.bwe_specs.specs.Values.{AreValues};
ghost use Rattle.path_groups.specs.Plan.{IsBuiltOn};
ghost use Rattle.policy_tree.specs.Trees.{IsTree, value_in};
ghost use Rattle.mpfa_fill.specs.Filling.{IsFilling};
ghost use Rattle.mpfa_fill.specs.GroupValues.{wan_of};
ghost use Rattle.tiers.specs.Tiered.{tier_count};
ghost use Rattle.wan_topology.specs.Network.{Network};
ghost use Rattle.tiers.specs.Fillings.{AreFilled, HasLine, IsFilledSome, IsFilledTo, line_in_tier};
ghost use Rattle.tiers.specs.Fillings.{values_of_tier, wan_by, with_filling};

use crate::values::TierValues;
use allocator::fill_kept;
use bwe_specs::{Closing, OutOfMemory};
use limit_table::GroupLine;
use mpfa_fill::Filling;
use path_groups::PathPlan;
use plain_table::{FirstClosings, group_line};
use policy_tree::PolicyTree;
use std::alloc::Global;
use std::marker::{Brand, Model};
use wan_topology::Topology;

/// By tier: the closings in their order, the amounts by group and place, and each group's stop
/// share. And the load of each link under all of these amounts. Amounts and loads are kilobits per
/// second.
#[derive(Drop)]
pub(crate) struct Fillings {
    pub(crate) closings: Vec<Vec<Closing>>,
    amounts: Vec<Vec<Vec<u64>>>,
    shares: Vec<Vec<u64>>,
    pub(crate) loads: Vec<u64>,
}

impl Model for Fillings {
    ghost use Rattle.bwe_specs.specs.Lists.{lists_of};
    ghost use Rattle.tiers.specs.Fillings.{Fillings as FillingsView, all_rows_in};

    ghost Value = { FillingsView };

    ghost view = { λ fillings. record {
      closings = lists_of fillings.closings.items;
      amounts = all_rows_in fillings.amounts.items;
      shares = lists_of fillings.shares.items;
      loads = fillings.loads.items;
    } };
}

impl Fillings {
    // No tier is filled: no link of so many carries anything.
    fn none(alloc: Global, links: u32) -> Result<Fillings, OutOfMemory>
        ensures { IfOk result (λ fillings. fillings ≡ record {
          closings = [];
          amounts = [];
          shares = [];
          loads = replicate links 0;
        }) }
    {
        Ok(Fillings {
            closings: Vec::new(alloc),
            amounts: Vec::new(alloc),
            shares: Vec::new(alloc),
            loads: vec![in alloc; 0; links as usize]?,
        })
    }

    // Takes the filling of the next tier.
    fn take(&mut self, filling: Filling) -> Result<(), OutOfMemory>
        requires links { length filling.loads.items ≡ length self.old.loads }
        requires fit { (link : ℕ) → link < length filling.loads.items
            → slice_index self.old.loads link + slice_index filling.loads.items link < 2 ^ 64 }
        ensures { OnOk result (self.new ≡ with_filling self.old filling) }
    {
        let Filling {
            closings,
            amounts,
            shares,
            loads,
        } = filling;
        self.closings.push(closings)?;
        self.amounts.push(amounts)?;
        self.shares.push(shares)?;
        add_loads(&mut self.loads, &loads);
        Ok(())
    }

    /// The closings of each tier, and which of them was the first of each link.
    pub(crate) fn firsts(&self, alloc: Global) -> Result<Vec<FirstClosings<'_>>, OutOfMemory>
        ensures { IfOk result (λ firsts. firsts.items ≡ self.now.closings) }
    {
        let mut firsts = Vec::new(alloc);
        for closings in &self.closings {
            firsts.push(FirstClosings::of(alloc, closings)?)?;
        }
        Ok(firsts)
    }

    /// The line of a group in the filling of a tier, which has these closings.
    pub(crate) fn line(
        &self,
        alloc: Global,
        plan: &PathPlan,
        closings: &FirstClosings,
        tier: usize,
        group: u32,
    ) -> Result<GroupLine, OutOfMemory>
        requires group { group < length plan.now }
        requires closings { closings.now ≡ slice_index_or self.now.closings tier [] }
        requires has { HasLine plan.now self.now tier group }
        ensures { IfOk result (λ line. line ≡ line_in_tier plan.now self.now tier group) }
    {
        let row = &self.amounts[tier][group as usize];
        let share = self.shares[tier][group as usize];
        group_line(alloc, plan, closings, group, row, share)
    }
}

/// The fillings of all tiers, from 0 to the greatest one given.
pub(crate) fn fill_each(
    alloc: Global,
    tree: &PolicyTree,
    topology: Topology,
    plan: &PathPlan,
    tiers: &[u8],
) -> Result<Fillings, OutOfMemory>
    requires built_on { IsBuiltOn topology plan.now }
    requires groups { length tree.now.clusters ≡ length plan.now }
    requires one_each { length tiers.now ≡ length plan.now }
    ensures { IfOk result
        (AreFilled (wan_by tree.now topology plan.now) tiers.now (tier_count tiers.now)) }
{
    tree.what_holds();
    let mut topology = topology;
    let mut fillings = Fillings::none(alloc, topology.links())?;
    for tier in 0..count_of(tiers) {
        fill_next(alloc, tree, &mut topology, plan, tiers, tier, &mut fillings)?;
    }
    Ok(fillings)
}

// Fills a tier over what the lower ones left, and takes its loads from the links.
fn fill_next(
    alloc: Global,
    tree: &PolicyTree,
    topology: &mut Topology,
    plan: &PathPlan,
    tiers: &[u8],
    tier: u32,
    fillings: &mut Fillings,
) -> Result<(), OutOfMemory>
    requires built_on { IsBuiltOn topology.old plan.now }
    requires groups { length tree.now.clusters ≡ length plan.now }
    requires filled { IsFilledSome tree.now plan.now tiers.now tier topology.old fillings.old }
    ensures { OnOk result ((initial : Network)
        → IsFilledTo tree.now initial plan.now tiers.now tier topology.old fillings.old
        → IsFilledTo tree.now initial plan.now tiers.now (tier + 1) topology.new fillings.new) }
{
    tree.what_holds();
    let filling = fill_tier(alloc, tree, topology, plan, tiers, tier)?;
    lower(topology, &filling.loads);
    fillings.take(filling)?;
    Ok(())
}

// The filling of a tier between the capacities of the topology.
fn fill_tier(
    alloc: Global,
    tree: &PolicyTree,
    topology: &Topology,
    plan: &PathPlan,
    tiers: &[u8],
    tier: u32,
) -> Result<Filling, OutOfMemory>
    requires built_on { IsBuiltOn topology.now plan.now }
    requires groups { length tree.now.clusters ≡ length plan.now }
    ensures { IfOk result
        (IsFilling (wan_of (values_of_tier tree.now tiers.now tier) plan.now
        topology.now.capacities)) }
{
    let values = TierValues { tree, tiers, tier };
    fill_kept::<TierValues<'_>, Brand>(alloc, &values, topology, plan)
}

// How many tiers there are, from 0 to the greatest one given.
fn count_of(tiers: &[u8]) -> u32
    ensures count { result ≡ tier_count tiers.now }
    ensures few { result ≤ 256 }
{
    let mut count = 0;
    for tier in tiers {
        count = count.max(u32::from(*tier) + 1);
    }
    count
}

// Takes the loads from the capacities of the links.
fn lower(topology: &mut Topology, loads: &[u64])
    requires links { length loads.now ≡ length topology.old.capacities }
    requires fit { (link : ℕ) → link < length loads.now
        → slice_index loads.now link ≤ slice_index topology.old.capacities link }
    ensures { topology.new ≡ record topology.old {
      capacities = map
          (λ link. slice_index topology.old.capacities link - slice_index loads.now link)
          (numbers (length topology.old.capacities));
    } }
{
    for link in 0..topology.links() {
        let left = topology.capacity(link) - loads[link as usize];
        topology.set_capacity(link, left);
    }
}

// Adds a load to each load.
fn add_loads(loads: &mut [u64], more: &[u64])
    requires links { length more.now ≡ length loads.old }
    requires fit { (link : ℕ) → link < length more.now
        → slice_index loads.old link + slice_index more.now link < 2 ^ 64 }
    ensures { loads.new ≡ map (λ link. slice_index loads.old link + slice_index more.now link)
        (numbers (length loads.old)) }
{
    for link in 0..loads.len() {
        loads[link] += more[link];
    }
}
