//! What differs between two tables.

ghost use Rattle.std.specs.Prelude.{◌≡◌, ◌<◌, ◌^◌, ℕ, List, length, option_map, IfOk};
ghost use Rattle.bwe_specs.specs.Allocation.{Table, GroupLine as GroupLineView};
ghost use Rattle.demand_book.specs.Changes.{Changes, IsChanged};
ghost use Rattle.demand_book.specs.TableChanges.{Leads, frame_of};

use crate::line::{copy_line, is_equal_line};
use bwe_specs::{Closing, OutOfMemory};
use limit_table::{GroupLine, LimitTable};
use std::alloc::Global;
use std::marker::Model;

/// An entry for each limit, group and load that differs, in rising order, with what the later table
/// has there, and the later closings where they differ.
#[derive(Debug, Drop)]
pub struct TableChange {
    pub prefix: u64,
    pub limits: Vec<(u32, u64)>,
    pub groups: Vec<(u32, GroupLine)>,
    pub loads: Vec<(u32, u64)>,
    pub closings: Option<Vec<Closing>>,
}

impl Model for TableChange {
    ghost use Rattle.std.specs.Prelude.{option_map};
    ghost use Rattle.demand_book.specs.TableChanges.{Change};

    ghost Value = { Change };

    ghost view = { λ change. record {
      prefix = change.prefix;
      limits = change.limits.items;
      groups = change.groups.items;
      loads = change.loads.items;
      closings = option_map (λ closings. closings.items) change.closings;
    } };
}

impl TableChange {
    /// An equal change.
    pub fn copy(&self, alloc: Global) -> Result<TableChange, OutOfMemory>
        ensures { IfOk result (λ copy. copy ≡ self.now) }
    {
        Ok(TableChange {
            prefix: self.prefix,
            limits: Vec::from_slice(alloc, &self.limits)?,
            groups: copy_entries(alloc, &self.groups)?,
            loads: Vec::from_slice(alloc, &self.loads)?,
            closings: copy_closings(alloc, &self.closings)?,
        })
    }

    /// Brings a table up to date, from which this change leads on.
    pub(crate) fn write_to(self, table: &mut LimitTable)
        requires leads { (later : Table) × Leads table.old self later }
        ensures { (later : Table) → Leads table.old self later → table.new ≡ later }
    {
        let TableChange {
            prefix,
            limits,
            groups,
            loads,
            closings,
        } = self;
        table.prefix = prefix;
        write_numbers(&mut table.limits, &limits);
        write_lines(&mut table.groups, groups);
        write_numbers(&mut table.loads, &loads);
        if let Some(closings) = closings {
            table.closings = closings;
        }
    }
}

// Writes each entry to its place.
fn write_numbers(numbers: &mut [u64], entries: &[(u32, u64)])
    requires changes { (later : List ℕ) × Changes 0 numbers.old later entries.now }
    ensures { (later : List ℕ) → Changes 0 numbers.old later entries.now → numbers.new ≡ later }
{
    for entry in entries {
        numbers[entry.0 as usize] = entry.1;
    }
}

// Writes each entry to its place.
fn write_lines(lines: &mut [GroupLine], entries: Vec<(u32, GroupLine)>)
    requires changes { (later : List GroupLineView) × Changes 0 lines.old later entries.items }
    ensures { (later : List GroupLineView) → Changes 0 lines.old later entries.items
        → lines.new ≡ later }
{
    for (at, line) in entries {
        lines[at as usize] = line;
    }
}

// Equal entries.
fn copy_entries(
    alloc: Global,
    entries: &[(u32, GroupLine)],
) -> Result<Vec<(u32, GroupLine)>, OutOfMemory>
    ensures { IfOk result (λ copies. copies.items ≡ entries.now) }
{
    let mut copies = Vec::with_capacity(alloc, entries.len())?;
    for entry in entries {
        copies.push((entry.0, copy_line(alloc, &entry.1)?))?;
    }
    Ok(copies)
}

// Equal closings, where there are any.
fn copy_closings(
    alloc: Global,
    closings: &Option<Vec<Closing>>,
) -> Result<Option<Vec<Closing>>, OutOfMemory>
    ensures { IfOk result
        (λ copy. option_map (λ closings. closings.items) copy
        ≡ option_map (λ closings. closings.items) closings.now) }
{
    match closings {
        Some(closings) => Ok(Some(Vec::from_slice(alloc, closings)?)),
        None => Ok(None),
    }
}

/// What leads from the one table to the later one.
pub(crate) fn change_between(
    alloc: Global,
    table: &LimitTable,
    later: &LimitTable,
) -> Result<TableChange, OutOfMemory>
    requires one_plan { frame_of table.now ≡ frame_of later.now }
    ensures { IfOk result (λ change. Leads table.now change later.now) }
{
    Ok(TableChange {
        prefix: later.prefix,
        limits: changed_numbers(alloc, &table.limits, &later.limits)?,
        groups: changed_lines(alloc, &table.groups, &later.groups)?,
        loads: changed_numbers(alloc, &table.loads, &later.loads)?,
        closings: changed_closings(alloc, &table.closings, &later.closings)?,
    })
}

// An entry for each number that differs.
fn changed_numbers(alloc: Global, old: &[u64], new: &[u64]) -> Result<Vec<(u32, u64)>, OutOfMemory>
    requires same_length { length old.now ≡ length new.now }
    requires few { length new.now < 2 ^ 32 }
    ensures { IfOk result (λ entries. Changes 0 old.now new.now entries.items) }
{
    let mut entries = Vec::new(alloc);
    for at in 0..new.len() {
        if old[at] != new[at] {
            entries.push((at as u32, new[at]))?;
        }
    }
    Ok(entries)
}

// An entry for each line that differs.
fn changed_lines(
    alloc: Global,
    old: &[GroupLine],
    new: &[GroupLine],
) -> Result<Vec<(u32, GroupLine)>, OutOfMemory>
    requires same_length { length old.now ≡ length new.now }
    requires few { length new.now < 2 ^ 32 }
    ensures { IfOk result (λ entries. Changes 0 old.now new.now entries.items) }
{
    let mut entries = Vec::new(alloc);
    for at in 0..new.len() {
        if !is_equal_line(&old[at], &new[at]) {
            entries.push((at as u32, copy_line(alloc, &new[at])?))?;
        }
    }
    Ok(entries)
}

// The later closings, where they differ.
fn changed_closings(
    alloc: Global,
    old: &[Closing],
    new: &[Closing],
) -> Result<Option<Vec<Closing>>, OutOfMemory>
    ensures { IfOk result
        (λ change. IsChanged old.now new.now (option_map (λ closings. closings.items) change)) }
{
    if old == new {
        return Ok(None);
    }
    Ok(Some(Vec::from_slice(alloc, new)?))
}
