//! The maker of the tables: a task's limit is what it last asked for.

ghost use Rattle.std.specs.Prelude.{◌≡◌, [], IfOk, map, refl, slice_index};
ghost use Rattle.bwe_specs.specs.Reports.{demand_after, numbers};
ghost use Rattle.bwe_protocol.specs.Echo.{Holds, echo_of};

use bwe_specs::{OutOfMemory, Report};
use demand_book::{Maker, Posted};
use report_book::DemandBook;
use std::alloc::Global;
use std::marker::Model;

/// A table in which each task may send what it last asked for. Its total is not summed, and is 0.
#[derive(Drop)]
pub(crate) struct EchoTable {
    prefix: u64,
    tasks: u32,
    limits: Vec<u64>,
}

impl Model for EchoTable {
    ghost use Rattle.bwe_protocol.specs.Echo.{Echo};

    ghost Value = { Echo };

    ghost view = { λ table.
        record { prefix = table.prefix; tasks = table.tasks; limits = table.limits.items } };
}

impl Posted for EchoTable {
    type Frame = u32;

    ghost frame = { λ table. table.tasks };

    ghost tasks_of = { λ tasks. tasks };

    ghost covers = { λ table. table.prefix };

    ghost limit_at = { λ table task. slice_index table.limits task };

    ghost total_of = { λ table. 0 };

    type Change = EchoTable;

    ghost leads = { λ table change later. (table.tasks ≡ later.tasks) × (change ≡ later) };

    fn prefix(&self) -> u64 {
        self.prefix
    }

    fn limit(&self, task: u32) -> u64 {
        match self.limits.get(task as usize) {
            Some(limit) => *limit,
            None => 0,
        }
    }

    fn total(&self) -> u64 {
        0
    }

    fn copy(&self, alloc: Global) -> Result<EchoTable, OutOfMemory> {
        Ok(EchoTable {
            prefix: self.prefix,
            tasks: self.tasks,
            limits: Vec::from_slice(alloc, self.limits.as_slice())?,
        })
    }

    fn change_to(&self, alloc: Global, later: &EchoTable) -> Result<EchoTable, OutOfMemory> {
        later.copy(alloc)
    }

    fn apply(&mut self, alloc: Global, change: &EchoTable) -> Result<(), OutOfMemory> {
        *self = change.copy(alloc)?;
        Ok(())
    }
}

/// Takes in reports of demands alone.
#[derive(Drop)]
pub(crate) struct EchoMaker {
    tasks: u32,
    book: DemandBook,
    ghost tasks_counted: { book.tasks ≡ tasks },
}

impl EchoMaker {
    /// A maker for so many tasks that has taken in nothing.
    pub(crate) fn new(alloc: Global, tasks: u32) -> Result<EchoMaker, OutOfMemory>
        ensures plan { IfOk result (λ maker. ⟦<EchoMaker as Maker>⟧.plan maker ≡ tasks) }
        ensures empty { IfOk result (λ maker. ⟦<EchoMaker as Maker>⟧.absorbed maker []) }
    {
        let book = DemandBook::new(alloc, &[], tasks)?;
        Ok(EchoMaker { tasks, book })
    }

    // What each task last asked for.
    fn limits(&self, alloc: Global) -> Result<Vec<u64>, OutOfMemory>
        ensures { IfOk result (λ limits. limits.items
            ≡ map (demand_after self.now.book.reports) (numbers self.now.tasks)) }
    {
        let mut limits = Vec::with_capacity(alloc, self.tasks as usize)?;
        for task in 0..self.tasks {
            limits.push(self.book.demand_after(task, self.book.len()))?;
        }
        Ok(limits)
    }
}

impl Maker for EchoMaker {
    type Table = EchoTable;

    type Plan = u32;

    ghost plan = { λ maker. maker.tasks };

    ghost plan_tasks = { λ plan. plan };

    ghost plan_links = { λ plan. 0 };

    ghost absorbed = { λ maker reports. Holds maker.tasks maker.book reports };

    ghost table_of = { echo_of };

    ghost covers_all = { λ plan reports. refl };

    ghost one_frame = { λ plan reports others. refl };

    ghost same_tasks = { λ plan reports. refl };

    fn tasks(&self) -> u32 {
        self.tasks
    }

    fn links(&self) -> u32 {
        0
    }

    fn absorb(&mut self, _alloc: Global, report: Report) -> Result<(), OutOfMemory> {
        match self.book.push(report) {
            Ok(_place) => Ok(()),
            Err(_) => Err(OutOfMemory),
        }
    }

    fn table(&mut self, alloc: Global) -> Result<EchoTable, OutOfMemory> {
        Ok(EchoTable {
            prefix: self.book.len(),
            tasks: self.tasks,
            limits: self.limits(alloc)?,
        })
    }
}
