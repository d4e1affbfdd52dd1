//! The tables of reports that keep coming.

ghost use Rattle.std.specs.Prelude.{◌≡◌, ◌<◌, ◌≤◌, ◌++◌, ◌∷◌, [], ℕ, List, length, All, IfOk, OnOk, OnErr};
ghost use Rattle.bwe_specs.specs.declared.limits.TheConstants.{MAX_REPORTS};
ghost use Rattle.bwe_specs.specs.declared.report.Report.{Report};
ghost use Rattle.bwe_specs.specs.Allocation.{allocation};
ghost use Rattle.bwe_specs.specs.Fit.{IsFit};
ghost use Rattle.demand_book.specs.TableChanges.{frame_of};
ghost use Rattle.last_reports.specs.Snapshot.{snapshot};
ghost use Rattle.live_core.specs.Live.{IsLive, links_of, plan_of, reports_of, tasks_of};

use allocator::{Allocator, after_script};
use bwe_specs::{OutOfMemory, Report};
use demand_book::Maker;
use last_reports::LastReports;
use limit_table::LimitTable;
use std::alloc::Global;
use std::marker::Model;
use std::mem;

/// The demands and capacities of a plan as reports leave them, and the table that was written last.
///
/// It keeps no list of reports, so its memory depends on the plan alone.
#[derive(Drop)]
pub struct LiveCore {
    allocator: Allocator,
    told: LastReports,
    table: LimitTable,
}

impl Model for LiveCore {
    ghost use Rattle.live_core.specs.Live.{Live, IsSomeLive};

    ghost Value = { Live };

    ghost view = { λ core.
        record { allocating = core.allocator; told = core.told; table = core.table } };

    ghost invariant = { λ core. IsSomeLive
        (record { allocating = core.allocator; told = core.told; table = core.table }) };
}

impl LiveCore {
    /// After the reports of a script, whose table is the first that is written.
    pub fn start(
        alloc: Global,
        allocator: Allocator,
        script: &[Report],
    ) -> Result<LiveCore, OutOfMemory>
        requires first { ⟦<Allocator as Maker>⟧.absorbed allocator [] }
        requires few { length script.now ≤ MAX_REPORTS }
        requires fit { All
            (IsFit (⟦<Allocator as Maker>⟧.plan_tasks (⟦<Allocator as Maker>⟧.plan allocator))
            (⟦<Allocator as Maker>⟧.plan_links (⟦<Allocator as Maker>⟧.plan allocator)))
            script.now }
        ensures plan { IfOk result (λ core. plan_of core ≡ ⟦<Allocator as Maker>⟧.plan allocator) }
        ensures live { IfOk result (λ core. IsLive core script.now script.now) }
    {
        let told = LastReports::after(alloc, allocator.tasks(), allocator.links(), script)?;
        let mut allocator = keeping_after(alloc, allocator, script)?;
        let table = table_made_twice(alloc, &mut allocator)?;
        Ok(LiveCore {
            allocator,
            told,
            table,
        })
    }

    /// The table that was written last.
    pub fn table(&self) -> &LimitTable
        ensures same { result.now ≡ self.now.table }
        ensures allocation { (accepted written : List Report) → IsLive self.now accepted written
            → result.now ≡ allocation (plan_of self.now) written }
    {
        &self.table
    }

    /// How many reports were taken in.
    pub fn reports(&self) -> u64
        ensures same { result ≡ reports_of self.now }
        ensures count { (accepted written : List Report) → IsLive self.now accepted written
            → result ≡ length accepted }
    {
        self.allocator.prefix()
    }

    /// Takes in a report behind all others. Out of memory, nothing has changed.
    pub fn report(&mut self, alloc: Global, report: Report) -> Result<(), OutOfMemory>
        requires fit { IsFit (tasks_of self.old) (links_of self.old) report }
        requires room { reports_of self.old < u64.MAX }
        ensures plan { plan_of self.new ≡ plan_of self.old }
        ensures ok { OnOk result
            ((accepted written : List Report) → IsLive self.old accepted written
            → IsLive self.new (accepted ++ report ∷ []) written) }
        ensures refused { OnErr result (self.new ≡ self.old) }
    {
        self.allocator.take_in(alloc, report)?;
        self.told.put(report);
        Ok(())
    }

    /// Writes the table of all reports that were taken in, and gives back the one that was written
    /// before. Out of memory, the earlier table stays the one that was written last.
    pub fn post(&mut self, alloc: Global) -> Result<LimitTable, OutOfMemory>
        ensures plan { plan_of self.new ≡ plan_of self.old }
        ensures earlier { IfOk result (λ earlier. earlier ≡ self.old.table) }
        ensures one_plan { IfOk result (λ earlier. frame_of earlier ≡ frame_of self.new.table) }
        ensures posted { OnOk result
            ((accepted written : List Report) → IsLive self.old accepted written
            → IsLive self.new accepted accepted) }
        ensures refused { OnErr result
            ((accepted written : List Report) → IsLive self.old accepted written
            → IsLive self.new accepted written) }
    {
        let table = self.allocator.table(alloc)?;
        Ok(mem::replace(&mut self.table, table))
    }

    /// The last report of each task, and then of each link, by number.
    pub fn state(&self, alloc: Global) -> Result<Vec<Report>, OutOfMemory>
        ensures snapshot { IfOk result
            (λ state. (accepted written : List Report) → IsLive self.now accepted written
            → state.items ≡ snapshot (tasks_of self.now) (links_of self.now) accepted) }

        // Snapshot promise: these reports alone have the same table, but for the count of reports.
        ensures same_table { IfOk result
            (λ state. (accepted written : List Report) → IsLive self.now accepted written
            → record (allocation (plan_of self.now) state.items) { prefix = length accepted }
            ≡ allocation (plan_of self.now) accepted) }
    {
        Ok(self.told.reports(alloc)?)
    }
}

// The allocator after a script. It keeps values and limits from one table to the next.
fn keeping_after(
    alloc: Global,
    allocator: Allocator,
    script: &[Report],
) -> Result<Allocator, OutOfMemory>
    requires first { ⟦<Allocator as Maker>⟧.absorbed allocator [] }
    requires few { length script.now ≤ MAX_REPORTS }
    requires fit { All (IsFit (⟦<Allocator as Maker>⟧.plan_tasks (⟦<Allocator as Maker>⟧.plan allocator))
        (⟦<Allocator as Maker>⟧.plan_links (⟦<Allocator as Maker>⟧.plan allocator)))
        script.now }
    ensures absorbed { IfOk result
        (λ after. ⟦<Allocator as Maker>⟧.absorbed after script.now) }
    ensures plan { IfOk result
        (λ after. ⟦<Allocator as Maker>⟧.plan after ≡ ⟦<Allocator as Maker>⟧.plan allocator) }
{
    let mut allocator = after_script(alloc, allocator, script)?;
    allocator.keep(alloc)?;
    Ok(allocator)
}

// The allocator's table. The first making finds many values by their bounds alone; the second asks
// for those that a post after a few changes asks for, and keeps them, so that the first post takes
// no longer than the later ones.
fn table_made_twice(alloc: Global, allocator: &mut Allocator) -> Result<LimitTable, OutOfMemory>
    ensures plan { ⟦<Allocator as Maker>⟧.plan allocator.new
        ≡ ⟦<Allocator as Maker>⟧.plan allocator.old }
    ensures absorbed { (reports : List Report)
        → ⟦<Allocator as Maker>⟧.absorbed allocator.old reports
        → ⟦<Allocator as Maker>⟧.absorbed allocator.new reports }
    ensures table { IfOk result (λ table.
        (reports : List Report) → ⟦<Allocator as Maker>⟧.absorbed allocator.old reports
        → table ≡ ⟦<Allocator as Maker>⟧.table_of (⟦<Allocator as Maker>⟧.plan allocator.old)
        reports) }
{
    drop(allocator.table(alloc)?);
    allocator.table(alloc)
}
