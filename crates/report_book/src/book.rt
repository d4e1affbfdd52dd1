//! The book of reports.
ghost use Rattle.std.specs.Prelude.{ℕ, ◌≡◌, ◌<◌, ◌≤◌, ◌++◌, ◌∷◌, ◌↔◌, [], length, take, slice_get, slice_set, slice_index, IfOk, IfErr, OnOk, OnErr};
ghost use Rattle.bwe_specs.specs.Reports.{demand_after, capacity_after};
ghost use Rattle.report_book.specs.declared.book.BookError.TheVariants.{OutOfMemory};
ghost use Rattle.bwe_specs.specs.Fit.{IsFit, IsInRange};
ghost use Rattle.bwe_specs.specs.Lists.{lists_of};
ghost use Rattle.report_book.specs.Book.{Book, IsRefusal, with_report, row_at, task_rows_after, link_rows_after};

use crate::told::{Told, last_before};
use bwe_specs::{MAX_REPORTS, OutOfMemory, Report, Target};
use std::alloc::{AllocError, AllocFailed, Global};
use std::marker::Model;

/// Why a report was not taken in.
#[derive(Clone, Copy, Debug, PartialEq, Eq)]
pub enum BookError {
    /// As many reports are held as a log may have.
    Full { reports: u64 },
    OutOfMemory,
}

impl<T: Drop> From<AllocFailed<T>> for BookError {
    ghost from_gives = { λ _ error. error ≡ OutOfMemory };

    fn from(_failed: AllocFailed<T>) -> BookError {
        BookError::OutOfMemory
    }
}

/// Reports in their order, and the demand of each task and the capacity of each link after any
/// prefix of them.
///
/// What a task or link was told stands in a row of its own, in the order of the reports.
#[derive(Drop)]
pub struct DemandBook {
    capacities: Vec<u64>,
    reports: Vec<Report>,
    task_rows: Vec<Vec<Told>>,
    link_rows: Vec<Vec<Told>>,
}

impl Model for DemandBook {
    ghost use Rattle.std.specs.Prelude.{length};
    ghost use Rattle.bwe_specs.specs.Lists.{lists_of};
    ghost use Rattle.report_book.specs.Book.{Book, AreKept};

    ghost Value = { Book };

    ghost view = { λ book.
        record {
          tasks = length book.task_rows.items;
          capacities = book.capacities.items;
          reports = book.reports.items;
        } };

    ghost invariant = { λ book. AreKept
        (record {
          tasks = length book.task_rows.items;
          capacities = book.capacities.items;
          reports = book.reports.items;
        })
        (lists_of book.task_rows.items) (lists_of book.link_rows.items) };
}

impl DemandBook {
    /// An empty book of so many tasks, and of links with these capacities.
    pub fn new(alloc: Global, capacities: &[u64], tasks: u32) -> Result<DemandBook, OutOfMemory>
        ensures { IfOk result
            (λ book. book ≡ record { tasks = tasks; capacities = capacities.now; reports = [] }) }
    {
        Ok(DemandBook {
            capacities: Vec::from_slice(alloc, capacities)?,
            reports: Vec::new(alloc),
            task_rows: empty_rows(alloc, tasks as usize)?,
            link_rows: empty_rows(alloc, capacities.len())?,
        })
    }

    /// Takes in a report, and answers its place.
    pub fn push(&mut self, report: Report) -> Result<u64, BookError>
        requires fit { IsFit self.old.tasks (length self.old.capacities) report }
        ensures place { IfOk result (λ place. place ≡ length self.old.reports) }
        ensures ok { OnOk result (self.new ≡ with_report self.old report) }

        // Full exactly at the limit.
        ensures full { (result ≡ Err (BookError.Full MAX_REPORTS))
            ↔ (length self.old.reports ≡ MAX_REPORTS) }
        ensures refusal { IfErr result (IsRefusal (length self.old.reports)) }
        ensures refused { OnErr result (self.new ≡ self.old) }
    {
        let place = self.reports.len() as u64;
        if place == MAX_REPORTS {
            return Err(BookError::Full { reports: place });
        }
        let entry = Told {
            place,
            amount: report.amount,
        };
        self.reports.push(report)?;
        match tell(
            &mut self.task_rows,
            &mut self.link_rows,
            report.target,
            entry,
        ) {
            Ok(()) => Ok(place),
            Err(_) => {
                self.reports.pop();
                Err(BookError::OutOfMemory)
            }
        }
    }

    /// How many reports are held.
    pub fn len(&self) -> u64
        ensures { result ≡ length self.now.reports }
    {
        self.reports.len() as u64
    }

    /// The report at a place. It takes no memory.
    pub fn entry(&self, place: u64) -> Option<Report>
        ensures { result ≡ slice_get self.now.reports place }
    {
        self.reports.get(place as usize).copied()
    }

    /// The demand of a task after the first reports, in kilobits per second: that of its last
    /// report among them, or 0 ("Demands and capacities"). It costs by the logarithm of the task's
    /// reports, and takes no memory.
    pub fn demand_after(&self, task: u32, prefix: u64) -> u64
        requires task { task < self.now.tasks }
        requires prefix { prefix ≤ length self.now.reports }
        ensures { result ≡ demand_after (take prefix self.now.reports) task }
    {
        last_before(0, self.task_rows[task as usize].as_slice(), prefix)
    }

    /// The capacity of a link after the first reports, in kilobits per second: that of its last
    /// report among them, or the one that the book was made with. It costs by the logarithm of the
    /// link's reports, and takes no memory.
    pub fn capacity_after(&self, link: u32, prefix: u64) -> u64
        requires link { link < length self.now.capacities }
        requires prefix { prefix ≤ length self.now.reports }
        ensures { result ≡ capacity_after self.now.capacities (take prefix self.now.reports) link }
    {
        let first = self.capacities[link as usize];
        last_before(first, self.link_rows[link as usize].as_slice(), prefix)
    }
}

// So many empty rows.
fn empty_rows(alloc: Global, count: usize) -> Result<Vec<Vec<Told>>, OutOfMemory>
    ensures count { IfOk result (λ rows. length rows.items ≡ count) }
    ensures empty { IfOk result (λ rows. (number : ℕ) → row_at (lists_of rows.items) number ≡ []) }
{
    let mut rows = Vec::with_capacity(alloc, count)?;
    for _ in 0..count {
        rows.push(Vec::new(alloc))?;
    }
    Ok(rows)
}

// Writes what the target was told to the end of its row.
fn tell(
    task_rows: &mut Vec<Vec<Told>>,
    link_rows: &mut Vec<Vec<Told>>,
    target: Target,
    entry: Told,
) -> Result<(), AllocError>
    requires target { IsInRange (length task_rows.old.items) (length link_rows.old.items) target }
    ensures tasks { OnOk result
        (lists_of task_rows.new.items
        ≡ task_rows_after target entry (lists_of task_rows.old.items)) }
    ensures links { OnOk result
        (lists_of link_rows.new.items
        ≡ link_rows_after target entry (lists_of link_rows.old.items)) }
    ensures refused_tasks { OnErr result
        (lists_of task_rows.new.items ≡ lists_of task_rows.old.items) }
    ensures refused_links { OnErr result
        (lists_of link_rows.new.items ≡ lists_of link_rows.old.items) }
{
    match target {
        Target::Task { number } => write(task_rows, number, entry),
        Target::Link { number } => write(link_rows, number, entry),
    }
}

// Writes an entry to the end of a row.
fn write(rows: &mut Vec<Vec<Told>>, number: u32, entry: Told) -> Result<(), AllocError>
    requires row { number < length rows.old.items }
    ensures ok { OnOk result (lists_of rows.new.items
        ≡ slice_set (lists_of rows.old.items) number
        (row_at (lists_of rows.old.items) number ++ entry ∷ [])) }
    ensures refused { OnErr result (lists_of rows.new.items ≡ lists_of rows.old.items) }
{
    let row = &mut rows[number as usize];
    write_last(row, entry)?;
    Ok(())
}

// The same at the row. Mostly a document tells it once, so the first entry takes the room of one.
fn write_last(row: &mut Vec<Told>, entry: Told) -> Result<(), AllocError>
    ensures ok { OnOk result (row.new.items ≡ row.old.items ++ entry ∷ []) }
    ensures refused { OnErr result (row.new.items ≡ row.old.items) }
{
    if row.is_empty() {
        row.reserve_exact(1)?;
    }
    row.push(entry)?;
    Ok(())
}
