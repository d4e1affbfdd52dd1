//! A tree and a network as they stand after reports.

ghost use Rattle.std.specs.Prelude.{◌≡◌, ◌+◌, ◌^◌, ◌<◌, ◌≤◌, ◌++◌, ◌∷◌, [], ℕ, All, List, length, flat_map, zip, slice_index, IfOk, OnOk, OnErr, Some, unwrap_or};
ghost use Rattle.bwe_specs.specs.declared.report.Report.{Report};
ghost use Rattle.bwe_specs.specs.Fit.{IsFit};
ghost use Rattle.bwe_specs.specs.Tree.{cluster_limits};
ghost use Rattle.mpfa_fill.specs.Filling.{IsFilling};
ghost use Rattle.policy_tree.specs.Trees.{asking, demand_in, value_in, IsTree};
ghost use Rattle.bwe_specs.specs.Values.{AreValues};
ghost use Rattle.wan_topology.specs.Network.{IsNetwork};
ghost use Rattle.plain_table.specs.Reported.{Reported as ReportedView, IsAfter, with_capacity, with_report};
ghost use Rattle.plain_table.specs.Tables.{IsFitted, wan_by};
ghost use Rattle.allocator.specs.Allocators.{kept};

use bwe_specs::{MAX_AMOUNT, OutOfMemory, Report, Target};
use kept_tree::KeptTree;
use mpfa_fill::Filling;
use path_groups::PathPlan;
use policy_tree::PolicyTree;
use std::alloc::Global;
use std::marker::Model;
use std::thread::Threads;
use wan_topology::Topology;

/// A tree and a network that take in reports one by one.
///
/// A report of a demand sets its task's demand, one of a capacity its link's capacity. The
/// capacities that the network was given are kept from the first report that changes one.
#[derive(Drop)]
pub struct Reported {
    tree: KeptTree,
    topology: Topology,
    given: Option<Vec<u64>>,
    prefix: u64,
}

impl Model for Reported {
    ghost use Rattle.std.specs.Prelude.{unwrap_or};
    ghost use Rattle.plain_table.specs.Reported.{Reported as ReportedView};
    ghost use Rattle.allocator.specs.Allocators.{kept};

    ghost Value = { ReportedView };

    ghost view = { λ reported. record {
      tree = reported.tree;
      network = reported.topology;
      given = unwrap_or (kept reported.given) reported.topology.capacities;
      prefix = reported.prefix;
    } };
}

impl Reported {
    /// Before any report.
    pub fn new(tree: PolicyTree, topology: Topology) -> Reported
        ensures { result ≡ record {
          tree = tree;
          network = topology;
          given = topology.capacities;
          prefix = 0;
        } }
    {
        Reported {
            tree: KeptTree::new(tree),
            topology,
            given: None,
            prefix: 0,
        }
    }

    /// The tree, with the demands that were reported.
    pub fn tree(&self) -> &PolicyTree
        ensures same { result.now ≡ self.now.tree }
        ensures tree { IsTree result.now }
        ensures values { AreValues (length result.now.clusters) result.now.top
            (value_in result.now) }
    {
        let tree = self.tree.tree();
        tree.what_holds();
        tree
    }

    /// The network, with the capacities that were reported.
    pub fn topology(&self) -> &Topology
        ensures same { result.now ≡ self.now.network }
        ensures network { IsNetwork result.now }
    {
        self.topology.what_holds();
        &self.topology
    }

    /// Proof only: states what holds of each network, and that 64 bits count the reports.
    pub fn what_holds(&self)
        ensures network { IsNetwork self.now.network }
        ensures prefix { self.now.prefix < 2 ^ 64 }
    {
        let _prefix = self.prefix;
        self.topology.what_holds();
    }

    /// How many reports were taken in.
    pub fn prefix(&self) -> u64
        ensures { result ≡ self.now.prefix }
    {
        self.prefix
    }

    /// From now on the tree keeps the values and limits that tables ask for.
    pub fn keep(&mut self, alloc: Global) -> Result<(), OutOfMemory>
        ensures { self.new ≡ self.old }
    {
        self.tree.keep(alloc)
    }

    /// Whether the tree keeps the values and limits that tables ask for.
    pub fn keeps(&self) -> bool {
        self.tree.keeps()
    }

    /// The filling under the demands and capacities that were reported last, with values that the
    /// tree keeps.
    pub(crate) fn fill(&mut self, alloc: Global, plan: &PathPlan) -> Result<Filling, OutOfMemory>
        requires { IsFitted self.old plan.now }
        ensures same { self.new ≡ self.old }
        ensures filling { IfOk result (IsFilling (wan_by self.old plan.now)) }
    {
        self.tree.fill(alloc, &self.topology, plan)
    }

    /// Each task's limit, where the groups have these amounts, with limits that the tree keeps. All
    /// are kilobits per second.
    pub(crate) fn limits(&mut self, alloc: Global, amounts: &[u64]) -> Result<Vec<u64>, OutOfMemory>
        requires amounts { length amounts.now ≡ length self.old.tree.clusters }
        requires within { (group : ℕ) → group < length self.old.tree.clusters
            → slice_index amounts.now group ≤ value_in self.old.tree group self.old.tree.top }
        ensures same { self.new ≡ self.old }
        ensures limits { IfOk result (λ limits. limits.items ≡ flat_map
            (λ given. cluster_limits self.old.tree.top (demand_in self.old.tree) given.0 given.1)
            (zip self.old.tree.clusters amounts.now)) }
    {
        self.tree.limits(alloc, amounts)
    }

    /// Makes the tree's values cheap again after demands were reported. No value changes.
    pub fn rematch(&mut self)
        ensures { self.new ≡ self.old }
    {
        self.tree.rematch();
    }

    /// The same on threads, as `PolicyTree::rematch_on_threads`.
    pub fn rematch_on_threads<R: Threads + Sync>(&mut self, rt: &R)
        ensures { self.new ≡ self.old }
    {
        self.tree.rematch_on_threads(rt);
    }

    /// Takes in a report, of as many as 64 bits count. Out of memory, nothing has changed.
    pub fn absorb(&mut self, alloc: Global, report: Report) -> Result<(), OutOfMemory>
        requires fit { IsFit (length self.old.tree.demands) (length self.old.network.capacities)
            report }
        requires room { self.old.prefix < u64.MAX }
        ensures ok { OnOk result (self.new ≡ with_report self.old report) }
        ensures after { OnOk result ((reports : List Report)
            → IsAfter self.old reports → IsAfter self.new (reports ++ report ∷ [])) }
        ensures refused { OnErr result (self.new ≡ self.old) }
    {
        match report.target {
            Target::Task { number } => self.absorb_demand(number, report.amount),
            Target::Link { number } => self.absorb_capacity(alloc, number, report.amount),
        }
    }

    /// The tree and the network as the reports left them.
    pub fn into_parts(self) -> (PolicyTree, Topology)
        ensures tree { result.0 ≡ self.tree }
        ensures network { result.1 ≡ self.network }
    {
        let Reported { tree, topology, .. } = self;
        (tree.into_tree(), topology)
    }

    fn absorb_demand(&mut self, task: u32, demand: u64) -> Result<(), OutOfMemory>
        requires task { task < length self.old.tree.demands }
        requires demand { demand ≤ MAX_AMOUNT }
        requires room { self.old.prefix < u64.MAX }
        ensures ok { OnOk result (self.new ≡ record self.old {
          tree = asking self.old.tree task demand;
          prefix = self.old.prefix + 1;
        }) }
        ensures refused { OnErr result (self.new ≡ self.old) }
    {
        self.tree.set_demand(task, demand)?;
        self.prefix += 1;
        Ok(())
    }

    fn absorb_capacity(
        &mut self,
        alloc: Global,
        link: u32,
        capacity: u64,
    ) -> Result<(), OutOfMemory>
        requires link { link < length self.old.network.capacities }
        requires capacity { capacity ≤ MAX_AMOUNT }
        requires room { self.old.prefix < u64.MAX }
        ensures ok { OnOk result (self.new ≡ record self.old {
          network = with_capacity self.old.network link capacity;
          prefix = self.old.prefix + 1;
        }) }
        ensures refused { OnErr result (self.new ≡ self.old) }
    {
        keep_given(alloc, &mut self.given, &self.topology)?;
        self.topology.set_capacity(link, capacity);
        self.prefix += 1;
        Ok(())
    }
}

// Keeps the capacities that the network was given, where they are not kept yet.
fn keep_given(
    alloc: Global,
    given: &mut Option<Vec<u64>>,
    topology: &Topology,
) -> Result<(), OutOfMemory>
    ensures ok { OnOk result
        (kept given.new ≡ Some (unwrap_or (kept given.old) topology.now.capacities)) }
    ensures refused { OnErr result (given.new ≡ given.old) }
{
    if given.is_none() {
        *given = Some(capacities_of(alloc, topology)?);
    }
    Ok(())
}

/// What each link can carry, in kilobits per second.
pub fn capacities_of(alloc: Global, topology: &Topology) -> Result<Vec<u64>, OutOfMemory>
    ensures same { IfOk result (λ capacities. capacities.items ≡ topology.now.capacities) }
    ensures range { All (λ capacity. capacity ≤ MAX_AMOUNT) topology.now.capacities }
{
    let mut capacities = Vec::new(alloc);
    for link in 0..topology.links() {
        capacities.push(topology.capacity(link))?;
    }
    Ok(capacities)
}
