//! The least maker.
ghost use Rattle.std.specs.Prelude.{◌≡◌, [], List, refl};
ghost use Rattle.bwe_specs.specs.declared.report.Report.{Report};
ghost use Rattle.report_book.specs.Small.{HasSummed, small_table};

use bwe_specs::{OutOfMemory, Report, Target};
use demand_book::{Maker, Posted};
use std::alloc::Global;

/// The table of a `SmallMaker`: its total is the sum of all demands that were reported, and each
/// limit is 0.
#[derive(Clone, Copy, Debug, PartialEq, Eq)]
pub struct SmallTable {
    pub prefix: u64,
    pub total: u64,
    pub tasks: u32,
}

impl Posted for SmallTable {
    type Frame = u32;

    ghost frame = { λ table. table.tasks };

    ghost tasks_of = { λ tasks. tasks };

    ghost covers = { λ table. table.prefix };

    ghost limit_at = { λ table task. 0 };

    ghost total_of = { λ table. table.total };

    type Change = SmallTable;

    ghost leads = { λ table change later. (table.tasks ≡ later.tasks) × (change ≡ later) };

    fn prefix(&self) -> u64 {
        self.prefix
    }

    fn limit(&self, _task: u32) -> u64 {
        0
    }

    fn total(&self) -> u64 {
        self.total
    }

    fn copy(&self, _alloc: Global) -> Result<SmallTable, OutOfMemory> {
        Ok(*self)
    }

    fn change_to(&self, _alloc: Global, later: &SmallTable) -> Result<SmallTable, OutOfMemory> {
        Ok(*later)
    }

    fn apply(&mut self, _alloc: Global, change: &SmallTable) -> Result<(), OutOfMemory> {
        *self = *change;
        Ok(())
    }
}

/// Makes tables whose total is the sum of all demands that were reported. It takes no memory.
#[derive(Clone, Copy, Debug, PartialEq, Eq)]
pub struct SmallMaker {
    tasks: u32,
    links: u32,
    prefix: u64,
    total: u64,
}

impl SmallMaker {
    /// A maker that has taken in nothing.
    pub fn new(tasks: u32, links: u32) -> SmallMaker
        ensures plan { ⟦<SmallMaker as Maker>⟧.plan result ≡ (tasks, links) }
        ensures empty { ⟦<SmallMaker as Maker>⟧.absorbed result [] }
    {
        SmallMaker {
            tasks,
            links,
            prefix: 0,
            total: 0,
        }
    }
}

impl Maker for SmallMaker {
    type Table = SmallTable;

    type Plan = (u32, u32);

    ghost plan = { λ maker. (maker.tasks, maker.links) };

    ghost plan_tasks = { λ plan. plan.0 };

    ghost plan_links = { λ plan. plan.1 };

    ghost absorbed = { HasSummed };

    ghost table_of = { λ plan reports. small_table plan.0 reports };

    ghost covers_all = { λ plan reports. refl };

    ghost one_frame = { λ plan reports others. refl };

    ghost same_tasks = { λ plan reports. refl };

    fn tasks(&self) -> u32 {
        self.tasks
    }

    fn links(&self) -> u32 {
        self.links
    }

    fn absorb(&mut self, _alloc: Global, report: Report) -> Result<(), OutOfMemory> {
        if let Target::Task { number: _ } = report.target {
            self.total += report.amount;
        }
        self.prefix += 1;
        Ok(())
    }

    fn table(&mut self, _alloc: Global) -> Result<SmallTable, OutOfMemory> {
        Ok(SmallTable {
            prefix: self.prefix,
            total: self.total,
            tasks: self.tasks,
        })
    }
}
