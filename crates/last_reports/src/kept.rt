//! The last report of each task and each link.

ghost use Rattle.std.specs.Prelude.{◌≡◌, ◌++◌, ◌∷◌, [], ℕ, List, None, All, length, filter_map, replicate, IfOk, OnOk};
ghost use Rattle.bwe_specs.specs.declared.report.Report.{Report};
ghost use Rattle.bwe_specs.specs.Fit.{IsInRange};
ghost use Rattle.last_reports.specs.Snapshot.{snapshot, told_after};

use bwe_specs::{OutOfMemory, Report, Target};
use std::alloc::{AllocError, Global};
use std::marker::Model;

/// The last report of each task and each link, where it has one, by number.
#[derive(Drop)]
pub struct LastReports {
    tasks: Vec<Option<Report>>,
    links: Vec<Option<Report>>,
}

impl Model for LastReports {
    ghost use Rattle.last_reports.specs.Snapshot.{Told};

    ghost Value = { Told };

    ghost view = { λ last. record { tasks = last.tasks.items; links = last.links.items } };
}

impl LastReports {
    // Those of so many tasks and links without a report.
    fn new(alloc: Global, tasks: u32, links: u32) -> Result<LastReports, OutOfMemory>
        ensures { IfOk result (λ last. last ≡ told_after tasks links []) }
    {
        Ok(LastReports {
            tasks: nothing(alloc, tasks)?,
            links: nothing(alloc, links)?,
        })
    }

    /// Those of so many tasks and links after a script.
    pub fn after(
        alloc: Global,
        tasks: u32,
        links: u32,
        script: &[Report],
    ) -> Result<LastReports, OutOfMemory>
        requires { All (λ report. IsInRange tasks links report.target) script.now }
        ensures { IfOk result (λ last. last ≡ told_after tasks links script.now) }
    {
        let mut last = LastReports::new(alloc, tasks, links)?;
        for report in script {
            last.put(*report);
        }
        Ok(last)
    }

    /// Takes in a report behind those that there were. It takes no memory.
    pub fn put(&mut self, report: Report)
        requires { IsInRange (length self.old.tasks) (length self.old.links) report.target }
        ensures { (tasks links : ℕ) (reports : List Report)
            → self.old ≡ told_after tasks links reports
            → self.new ≡ told_after tasks links (reports ++ report ∷ []) }
    {
        match report.target {
            Target::Task { number } => self.tasks[number as usize] = Some(report),
            Target::Link { number } => self.links[number as usize] = Some(report),
        }
    }

    /// The last reports of the tasks, and then those of the links, each by number.
    pub fn reports(&self, alloc: Global) -> Result<Vec<Report>, OutOfMemory>
        ensures { IfOk result (λ list. (tasks links : ℕ) (reports : List Report)
            → self.now ≡ told_after tasks links reports
            → list.items ≡ snapshot tasks links reports) }
    {
        let mut list = Vec::new(alloc);
        push_told(&mut list, &self.tasks)?;
        push_told(&mut list, &self.links)?;
        Ok(list)
    }
}

// So many entries without a report.
fn nothing(alloc: Global, count: u32) -> Result<Vec<Option<Report>>, OutOfMemory>
    ensures { IfOk result (λ told. told.items ≡ replicate count None) }
{
    let mut told = Vec::with_capacity(alloc, count as usize)?;
    for _ in 0..count {
        told.push(None)?;
    }
    Ok(told)
}

// Puts the reports that there are at the end of a list.
fn push_told(list: &mut Vec<Report>, told: &[Option<Report>]) -> Result<(), AllocError>
    ensures { OnOk result (list.new.items ≡ list.old.items ++ filter_map (λ last. last) told.now) }
{
    for last in told {
        if let Some(report) = last {
            list.push(*report)?;
        }
    }
    Ok(())
}
