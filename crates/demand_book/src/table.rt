//! What is published of a table of limits.

ghost use Rattle.std.specs.Prelude.{◌≡◌, slice_index, IfOk, OnErr, OnOk};
ghost use Rattle.bwe_specs.specs.Allocation.{Table};
ghost use Rattle.limit_table.specs.Tables.{total_of};
ghost use Rattle.demand_book.specs.Following.{IsKeptAlong, with_change};
ghost use Rattle.demand_book.specs.TableChanges.{Leads, frame_of};

use crate::change::{TableChange, change_between};
use crate::line::copy_lines;
use crate::posted::Posted;
use bwe_specs::OutOfMemory;
use limit_table::{LimitTable, total_in};
use std::alloc::Global;
use std::marker::Model;

/// How many tasks, path groups of each group, and links a table has. No value of it is made:
/// clauses speak of it.
pub struct TableFrame;

impl Model for TableFrame {
    ghost use Rattle.std.specs.Prelude.{[]};
    ghost use Rattle.demand_book.specs.TableChanges.{Frame};

    ghost Value = { Frame };

    ghost view = { λ _. record { tasks = 0; path_groups = []; links = 0 } };
}

impl Posted for LimitTable {
    type Frame = TableFrame;

    ghost frame = { frame_of };

    ghost tasks_of = { λ frame. frame.tasks };

    ghost covers = { λ table. table.prefix };

    ghost limit_at = { λ table task. slice_index table.limits task };

    ghost total_of = { total_of };

    type Change = TableChange;

    ghost leads = { Leads };

    fn prefix(&self) -> u64 {
        self.prefix
    }

    fn limit(&self, task: u32) -> u64 {
        self.limits[task as usize]
    }

    fn total(&self) -> u64 {
        total_in(&self.groups)
    }

    fn copy(&self, alloc: Global) -> Result<LimitTable, OutOfMemory> {
        Ok(LimitTable {
            prefix: self.prefix,
            limits: Vec::from_slice(alloc, &self.limits)?,
            groups: copy_lines(alloc, &self.groups)?,
            loads: Vec::from_slice(alloc, &self.loads)?,
            closings: Vec::from_slice(alloc, &self.closings)?,
        })
    }

    fn change_to(&self, alloc: Global, later: &LimitTable) -> Result<TableChange, OutOfMemory>
        requires one_plan { frame_of self.now ≡ frame_of later.now }
        ensures leads { IfOk result (λ change. Leads self.now change later.now) }

        // Kept by changes: with this change and with those along any list of tables behind the
        // later one, the table is the last of them
        ensures kept { IfOk result (IsKeptAlong self.now later.now) }
    {
        change_between(alloc, self, later)
    }

    fn apply(&mut self, alloc: Global, change: &TableChange) -> Result<(), OutOfMemory>
        requires leads { (later : Table) × Leads self.old change.now later }
        ensures frame { frame_of self.new ≡ frame_of self.old }
        ensures ok { OnOk result
            ((later : Table) → Leads self.old change.now later → self.new ≡ later) }

        // The table has what the change says, and what it had else
        ensures written { OnOk result (self.new ≡ with_change self.old change.now) }
        ensures refused { OnErr result (self.new ≡ self.old) }
    {
        // What takes memory comes first, so that a refusal leaves the table as it was.
        let copied = change.copy(alloc)?;
        copied.write_to(self);
        Ok(())
    }
}
