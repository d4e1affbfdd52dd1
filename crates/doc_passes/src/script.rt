//! The script with numbers in place of names. The owners of its tasks and the reports before tell
//! which number a name may have, so that few names are hashed.

ghost use Rattle.std.specs.Prelude.{drop, map};
ghost use Rattle.raw_document.specs.Reading.{Gives, under, each};
ghost use Rattle.raw_document.specs.Raw.{target_view, report_view};
ghost use Rattle.raw_document.specs.declared.key.DocKey.TheVariants as keys;
ghost use Rattle.raw_document.specs.declared.doc_path.PathStep.TheVariants.{Key};
ghost use Rattle.doc_passes.specs.Numbers as spec;

use crate::name_table::NameTable;
use crate::numbered::{number_in_member, number_near_in_member};
use bwe_specs::{Report, Target};
use raw_document::{DocKey, Fault, PathStep, RawReport, RawTarget, under};
use std::alloc::Global;

fn target_number(
    alloc: Global,
    target: &RawTarget,
    links: &NameTable,
    tasks: &NameTable,
    likely_task: u32,
) -> Result<Target, Fault>
    ensures { Gives (λ target. target) result
        (spec.target_number links.now tasks.now (target_view target.now)) }
{
    match target {
        RawTarget::Task(name) => {
            let number = number_near_in_member(alloc, DocKey::Task, tasks, name, likely_task)?;
            Ok(Target::Task { number })
        }
        RawTarget::Link(name) => {
            let number = number_in_member(alloc, DocKey::Link, links, name)?;
            Ok(Target::Link { number })
        }
    }
}

// The task that is as far behind the last report's as that is behind the one before: a script goes
// through the tasks in their order, or through those of one group after the other in turn. It is a
// guess, and no clause is needed.
fn likely_task(found: &[Report]) -> u32 {
    match found {
        [
            ..,
            Report {
                target: Target::Task { number: before },
                ..
            },
            Report {
                target: Target::Task { number: last },
                ..
            },
        ] => last.saturating_add(last.saturating_sub(*before)),
        [
            ..,
            Report {
                target: Target::Task { number: last },
                ..
            },
        ] => last.saturating_add(1),
        _ => 0,
    }
}

// The owner of the target where it is a task, whose report should come from it. Where owners are
// not known, the reporter of four reports before: reporters mostly come one after the other, or in
// turn. It is a guess, and no clause is needed.
fn likely_reporter(target: &Result<Target, Fault>, task_owners: &[u32], found: &[Report]) -> u32 {
    if let Ok(Target::Task { number }) = target
        && let Some(owner) = task_owners.get(*number as usize)
    {
        return *owner;
    }
    match found {
        [.., report, _, _, _] => report.reporter,
        _ => 0,
    }
}

#[tactic(auto, unfolding(crate::specs::Numbers::report_numbers))]
fn report_numbers(
    alloc: Global,
    report: &RawReport,
    links: &NameTable,
    tasks: &NameTable,
    reporters: &NameTable,
    task_owners: &[u32],
    found: &[Report],
) -> Result<Report, Fault>
    ensures { Gives (λ report. report) result
        (spec.report_numbers links.now tasks.now reporters.now (report_view report.now)) }
{
    let target = target_number(alloc, &report.target, links, tasks, likely_task(found));
    let guess = likely_reporter(&target, task_owners, found);
    let reporter = number_near_in_member(
        alloc,
        DocKey::Reporter,
        reporters,
        report.reporter,
        guess,
    )?;
    let target = target?;
    Ok(Report {
        reporter,
        target,
        amount: report.amount,
    })
}

/// The numbers of each report from this place on, or the first fault, told from the list of all.
pub fn each_report_from(
    alloc: Global,
    script: &[RawReport],
    from: usize,
    links: &NameTable,
    tasks: &NameTable,
    reporters: &NameTable,
    task_owners: &[u32],
) -> Result<Vec<Report>, Fault>
    ensures { Gives (λ script. script.items) result
        (each (spec.report_numbers links.now tasks.now reporters.now) from
        (map report_view (drop from script.now))) }
{
    let mut found = Vec::with_capacity(alloc, script.len().saturating_sub(from))?;
    for place in from..script.len() {
        let report = &script[place];
        match report_numbers(alloc, report, links, tasks, reporters, task_owners, &found) {
            Ok(numbers) => found.push(numbers)?,
            Err(fault) => return Err(fault.under(PathStep::Index {
                place: place as u64,
            })),
        }
    }
    Ok(found)
}

/// The numbers of each report, or the first fault.
pub fn script_numbers(
    alloc: Global,
    script: &[RawReport],
    links: &NameTable,
    tasks: &NameTable,
    reporters: &NameTable,
    task_owners: &[u32],
) -> Result<Vec<Report>, Fault>
    ensures { Gives (λ script. script.items) result (under (Key keys.Script)
        (each (spec.report_numbers links.now tasks.now reporters.now) 0
        (map report_view script.now))) }
{
    under(
        PathStep::Key {
            name: DocKey::Script,
        },
        each_report_from(alloc, script, 0, links, tasks, reporters, task_owners),
    )
}
