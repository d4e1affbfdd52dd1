//! The allocator.

ghost use Rattle.std.specs.Prelude.{◌≡◌, ◌^◌, ◌<◌, ◌++◌, ◌∷◌, [], List, length, replicate, IfOk, OnOk, OnErr};
ghost use Rattle.bwe_specs.specs.declared.report.Report.{Report};
ghost use Rattle.bwe_specs.specs.Fit.{IsFit};
ghost use Rattle.path_groups.specs.Plan.{IsBuiltOn};
ghost use Rattle.policy_tree.specs.Trees.{task_numbers};

use crate::reported::Reported;
use crate::table::{present_table, present_table_on_threads};
use bwe_specs::{OutOfMemory, Report};
use demand_book::Maker;
use limit_table::LimitTable;
use path_groups::PathPlan;
use policy_tree::PolicyTree;
use std::alloc::Global;
use std::marker::Model;
use std::thread::Threads;
use tree_values::TreeValues;
use wan_topology::Topology;

/// Makes tables of limits from reports.
///
/// After `keep` it keeps of each table that it makes the values that were asked for and each
/// group's limits, so that the next table costs what has changed. Before, it keeps nothing.
#[derive(Drop)]
pub struct Allocator {
    reported: Reported,
    plan: PathPlan,
}

impl Model for Allocator {
    ghost use Rattle.plain_table.specs.Tables.{IsFitted};
    ghost use Rattle.allocator.specs.Allocators.{Allocating};

    ghost Value = { Allocating };

    ghost view = { λ allocator. record { reported = allocator.reported; groups = allocator.plan } };

    ghost invariant = { λ allocator. IsFitted allocator.reported allocator.plan };
}

/// The type whose meaning is a plan, for clauses. No value of it is made.
pub struct AllocatorPlan;

impl Model for AllocatorPlan {
    ghost use Rattle.std.specs.Prelude.{[]};
    ghost use Rattle.bwe_specs.specs.Allocation.{Plan};

    ghost Value = { Plan };

    ghost view = { λ _. record { top = 0; clusters = []; groups = []; capacities = [] } };
}

impl Allocator {
    /// The allocator of a tree in which no demand is set, and of path groups over the links of a
    /// network. A link without a report has its capacity in `topology`.
    pub fn new(tree: PolicyTree, topology: Topology, plan: PathPlan) -> Allocator
        requires idle { tree.demands ≡ replicate (length tree.demands) 0 }
        requires built_on { IsBuiltOn topology plan }
        requires groups { length tree.clusters ≡ length plan }
        ensures plan { ⟦<Allocator as Maker>⟧.plan result
            ≡ record {
              top = tree.top;
              clusters = tree.clusters;
              groups = plan;
              capacities = topology.capacities;
            } }
        ensures tasks { length (task_numbers tree.clusters) ≡ length tree.demands }
        ensures first { ⟦<Allocator as Maker>⟧.absorbed result [] }
    {
        plan.what_holds();
        tree.what_holds();
        Allocator {
            reported: Reported::new(tree, topology),
            plan,
        }
    }

    /// Proof only: states that 32 bits number the tasks.
    pub fn what_holds(&self)
        ensures { ⟦<Allocator as Maker>⟧.plan_tasks (⟦<Allocator as Maker>⟧.plan self.now)
            < 2 ^ 32 }
    {
        let _tasks = self.tasks();
    }

    /// Takes in a report, as `absorb` does, also behind `MAX_REPORTS` and more.
    ///
    /// 64 bits count the reports; no list of them is kept. Out of memory, nothing has changed.
    pub fn take_in(&mut self, alloc: Global, report: Report) -> Result<(), OutOfMemory>
        requires fit { IsFit
            (⟦<Allocator as Maker>⟧.plan_tasks (⟦<Allocator as Maker>⟧.plan self.old))
            (⟦<Allocator as Maker>⟧.plan_links (⟦<Allocator as Maker>⟧.plan self.old)) report }
        requires room { self.old.reported.prefix < u64.MAX }
        ensures plan { ⟦<Allocator as Maker>⟧.plan self.new ≡ ⟦<Allocator as Maker>⟧.plan self.old }
        ensures ok { OnOk result
            ((reports : List Report) → ⟦<Allocator as Maker>⟧.absorbed self.old reports
            → ⟦<Allocator as Maker>⟧.absorbed self.new (reports ++ report ∷ [])) }
        ensures refused { OnErr result (self.new ≡ self.old) }
    {
        self.reported.absorb(alloc, report)
    }

    /// Makes the table as `table` does, the values of clusters and the limits on threads.
    ///
    /// After `keep` the limits are worked out on one thread, which goes into the groups that have
    /// changed. That more than one works is promised by no clause, nor is time.
    pub fn table_on_threads<R: Threads + Sync>(
        &mut self,
        rt: &R,
        alloc: Global,
    ) -> Result<LimitTable, OutOfMemory>
        ensures plan { ⟦<Allocator as Maker>⟧.plan self.new ≡ ⟦<Allocator as Maker>⟧.plan self.old }
        ensures absorbed { (reports : List Report)
            → ⟦<Allocator as Maker>⟧.absorbed self.old reports
            → ⟦<Allocator as Maker>⟧.absorbed self.new reports }
        ensures table { IfOk result (λ table.
            (reports : List Report) → ⟦<Allocator as Maker>⟧.absorbed self.old reports
            → table ≡ ⟦<Allocator as Maker>⟧.table_of (⟦<Allocator as Maker>⟧.plan self.old)
            reports) }
    {
        self.reported.rematch_on_threads(rt);
        present_table_on_threads(rt, alloc, &mut self.reported, &self.plan)
    }

    /// From now on values and limits are kept from one table to the next.
    pub fn keep(&mut self, alloc: Global) -> Result<(), OutOfMemory>
        ensures { self.new ≡ self.old }
    {
        self.reported.keep(alloc)
    }

    /// How many reports were taken in.
    pub fn prefix(&self) -> u64
        ensures { result ≡ self.now.reported.prefix }
    {
        self.reported.prefix()
    }

    /// The groups' values under the demands that were reported.
    pub fn values(&self) -> TreeValues<'_>
        ensures { result.tree.now ≡ self.now.reported.tree }
    {
        TreeValues {
            tree: self.reported.tree(),
        }
    }

    /// The network, with the capacities that were reported.
    pub fn topology(&self) -> &Topology
        ensures { result.now ≡ self.now.reported.network }
    {
        self.reported.topology()
    }

    /// The path groups, which go over the links of the network, for each group of the tree.
    pub fn plan(&self) -> &PathPlan
        ensures same { result.now ≡ self.now.groups }
        ensures built_on { IsBuiltOn self.now.reported.network result.now }
        ensures groups { length self.now.reported.tree.clusters ≡ length result.now }
    {
        &self.plan
    }

    /// The tree and the network as the reports left them, and the path groups.
    pub fn into_parts(self) -> (PolicyTree, Topology, PathPlan)
        ensures tree { result.0 ≡ self.reported.tree }
        ensures network { result.1 ≡ self.reported.network }
        ensures plan { result.2 ≡ self.groups }
        ensures built_on { IsBuiltOn self.reported.network self.groups }
        ensures groups { length self.reported.tree.clusters ≡ length self.groups }
    {
        let Allocator { reported, plan } = self;
        let (tree, topology) = reported.into_parts();
        (tree, topology, plan)
    }
}

impl Maker for Allocator {
    ghost use Rattle.std.specs.Prelude.{length};
    ghost use Rattle.bwe_specs.specs.Allocation.{allocation};
    ghost use Rattle.plain_table.specs.Reported.{IsAfter};
    ghost use Rattle.allocator.specs.Allocators.{plan_in};
    ghost use Rattle.allocator.specs.Frames.{task_count};
    ghost use Rattle.allocator.specs.FrameLaws.{covers-allocation, one_frame-allocation, same_tasks-allocation};

    type Table = LimitTable;

    type Plan = AllocatorPlan;

    ghost plan = { plan_in };

    ghost plan_tasks = { task_count };

    ghost plan_links = { λ plan. length plan.capacities };

    ghost absorbed = { λ allocator reports. IsAfter allocator.reported reports };

    ghost table_of = { allocation };

    ghost covers_all = { covers-allocation };

    ghost one_frame = { one_frame-allocation };

    ghost same_tasks = { same_tasks-allocation };

    fn tasks(&self) -> u32 {
        self.reported.tree().tasks()
    }

    fn links(&self) -> u32 {
        self.reported.topology().links()
    }

    fn absorb(&mut self, alloc: Global, report: Report) -> Result<(), OutOfMemory> {
        self.reported.absorb(alloc, report)
    }

    fn table(&mut self, alloc: Global) -> Result<LimitTable, OutOfMemory> {
        self.reported.rematch();
        present_table(alloc, &mut self.reported, &self.plan)
    }
}
