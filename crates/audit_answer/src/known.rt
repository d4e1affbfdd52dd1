//! An allocator that knows one table.

ghost use Rattle.std.specs.Prelude.{◌≡◌, true, List, IfOk};
ghost use Rattle.bwe_specs.specs.declared.report.Report.{Report};
ghost use Rattle.allocator.specs.Allocators.{plan_in};
ghost use Rattle.plain_table.specs.Reported.{IsAfter};
ghost use Rattle.audit_answer.specs.Known.{IsKnown};

use allocator::{Allocator, AllocatorPlan, capacities_of};
use bwe_specs::{OutOfMemory, Report};
use demand_book::{Maker, Posted};
use limit_table::LimitTable;
use policy_tree::PolicyTree;
use std::alloc::Global;
use wan_topology::Topology;

/// A table, and the demands and capacities that stood when it was made.
#[derive(Drop)]
pub(crate) struct Known {
    pub(crate) table: LimitTable,
    demands: Vec<u64>,
    capacities: Vec<u64>,
}

/// Makes an allocator's table, and keeps what it was made of.
pub(crate) fn known_of(alloc: Global, allocator: &mut Allocator) -> Result<Known, OutOfMemory>
    requires after { (reports : List Report) × IsAfter allocator.old.reported reports }
    ensures plan { plan_in allocator.new ≡ plan_in allocator.old }
    ensures known { IfOk result (IsKnown (plan_in allocator.old)) }
    ensures table { IfOk result
        (λ known. (reports : List Report) → IsAfter allocator.old.reported reports
        → known.table ≡ ⟦<Allocator as Maker>⟧.table_of (plan_in allocator.old) reports) }
{
    let demands = demands_of(alloc, allocator.values().tree)?;
    let capacities = capacities_of(alloc, allocator.topology())?;
    let table = allocator.table(alloc)?;
    Ok(Known {
        table,
        demands,
        capacities,
    })
}

/// An allocator that makes no table where the known one stands.
#[derive(Drop)]
pub(crate) struct KnowingAllocator {
    pub(crate) allocator: Allocator,
    pub(crate) known: Known,
    ghost right: { IsKnown (plan_in allocator) known },
}

impl Maker for KnowingAllocator {
    ghost use Rattle.std.specs.Prelude.{length};
    ghost use Rattle.bwe_specs.specs.Allocation.{allocation};
    ghost use Rattle.allocator.specs.Allocators.{plan_in};
    ghost use Rattle.allocator.specs.Frames.{task_count};
    ghost use Rattle.allocator.specs.FrameLaws.{covers-allocation, one_frame-allocation, same_tasks-allocation};
    ghost use Rattle.plain_table.specs.Reported.{IsAfter};

    type Table = LimitTable;

    type Plan = AllocatorPlan;

    ghost plan = { λ knowing. plan_in knowing.allocator };

    ghost plan_tasks = { task_count };

    ghost plan_links = { λ plan. length plan.capacities };

    ghost absorbed = { λ knowing reports. IsAfter knowing.allocator.reported reports };

    ghost table_of = { allocation };

    ghost covers_all = { covers-allocation };

    ghost one_frame = { one_frame-allocation };

    ghost same_tasks = { same_tasks-allocation };

    fn tasks(&self) -> u32 {
        self.allocator.tasks()
    }

    fn links(&self) -> u32 {
        self.allocator.links()
    }

    fn absorb(&mut self, alloc: Global, report: Report) -> Result<(), OutOfMemory> {
        self.allocator.absorb(alloc, report)
    }

    fn table(&mut self, alloc: Global) -> Result<LimitTable, OutOfMemory> {
        if stands(&self.known, &self.allocator) {
            return self.known.table.copy(alloc);
        }
        self.allocator.table(alloc)
    }
}

// Whether the known table is that of the demands and capacities as they now are.
fn stands(known: &Known, allocator: &Allocator) -> bool
    ensures prefix { result ≡ true → known.now.table.prefix ≡ allocator.now.reported.prefix }
    ensures demands { result ≡ true
        → known.now.demands.items ≡ allocator.now.reported.tree.demands }
    ensures capacities { result ≡ true
        → known.now.capacities.items ≡ allocator.now.reported.network.capacities }
{
    known.table.prefix == allocator.prefix()
        && are_demands(&known.demands, allocator.values().tree)
        && are_capacities(&known.capacities, allocator.topology())
}

// The demand of each task.
fn demands_of(alloc: Global, tree: &PolicyTree) -> Result<Vec<u64>, OutOfMemory>
    ensures { IfOk result (λ demands. demands.items ≡ tree.now.demands) }
{
    let mut demands = Vec::new(alloc);
    for task in 0..tree.tasks() {
        demands.push(tree.demand(task))?;
    }
    Ok(demands)
}

// Whether the tasks have these demands.
fn are_demands(demands: &[u64], tree: &PolicyTree) -> bool
    ensures { result ≡ true → demands.now ≡ tree.now.demands }
{
    if demands.len() != tree.tasks() as usize {
        return false;
    }
    for task in 0..tree.tasks() {
        if demands[task as usize] != tree.demand(task) {
            return false;
        }
    }
    true
}

// Whether the links have these capacities.
fn are_capacities(capacities: &[u64], topology: &Topology) -> bool
    ensures { result ≡ true → capacities.now ≡ topology.now.capacities }
{
    if capacities.len() != topology.links() as usize {
        return false;
    }
    for link in 0..topology.links() {
        if capacities[link as usize] != topology.capacity(link) {
            return false;
        }
    }
    true
}
