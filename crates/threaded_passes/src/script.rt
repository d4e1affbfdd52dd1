//! The numbers of a script by halves.

ghost use Rattle.std.specs.Prelude.{◌≤◌, length, take, drop, map};
ghost use Rattle.raw_document.specs.Reading.{Gives, under, each};
ghost use Rattle.raw_document.specs.Raw.{report_view};
ghost use Rattle.raw_document.specs.declared.key.DocKey.TheVariants as keys;
ghost use Rattle.raw_document.specs.declared.doc_path.PathStep.TheVariants.{Key};
ghost use Rattle.doc_passes.specs.Numbers as spec;

use apart::join_apart;
use bwe_specs::Report;
use doc_passes::{NameTable, each_report_from, script_numbers};
use raw_document::{DocKey, Fault, PathStep, RawReport, under};
use std::alloc::Global;
use std::thread::Threads;

// The numbers of so many reports are worth a thread.
const MANY_REPORTS: usize = 32_768;

// The reports before this place and those from it on, each in a thread of its own, told from the
// list of all. Both end before it answers.
fn script_halves<R: Threads + Sync>(
    rt: &R,
    alloc: Global,
    script: &[RawReport],
    middle: usize,
    links: &NameTable,
    tasks: &NameTable,
    reporters: &NameTable,
) -> (Result<Vec<Report>, Fault>, Result<Vec<Report>, Fault>)
    requires middle { middle ≤ length script.now }
    ensures early { Gives (λ script. script.items) result.0
        (each (spec.report_numbers links.now tasks.now reporters.now) 0
        (map report_view (take middle script.now))) }
    ensures late { Gives (λ script. script.items) result.1
        (each (spec.report_numbers links.now tasks.now reporters.now) middle
        (map report_view (drop middle script.now))) }
{
    // a copy for each closure
    let theirs = alloc;
    let (first, _) = script.split_at(middle);
    let late = move || -> Result<Vec<Report>, Fault>
        ensures { Gives (λ script. script.items) result
            (each (spec.report_numbers links.entry.now tasks.entry.now reporters.entry.now) middle
            (map report_view (drop middle script.entry.now))) }
    { each_report_from(theirs, script, middle, links, tasks, reporters, &[]) };
    let early = move || -> Result<Vec<Report>, Fault>
        ensures { Gives (λ script. script.items) result
            (each (spec.report_numbers links.entry.now tasks.entry.now reporters.entry.now) 0
            (map report_view first.entry.now)) }
    { each_report_from(alloc, first, 0, links, tasks, reporters, &[]) };
    join_apart(rt, early, late)
}

// The numbers of each report, half of them in a thread of its own.
fn each_report_on_threads<R: Threads + Sync>(
    rt: &R,
    alloc: Global,
    script: &[RawReport],
    links: &NameTable,
    tasks: &NameTable,
    reporters: &NameTable,
) -> Result<Vec<Report>, Fault>
    ensures { Gives (λ script. script.items) result
        (each (spec.report_numbers links.now tasks.now reporters.now) 0
        (map report_view script.now)) }
{
    let middle = script.len() / 2;
    let (early, late) = script_halves(rt, alloc, script, middle, links, tasks, reporters);
    let mut all = early?;
    let mut rest = late?;
    all.append(&mut rest)?;
    Ok(all)
}

/// The numbers of each report, or the first fault, by halves where the script is long. The guesses do without the owners of tasks, which
/// are found beside it.
pub(crate) fn script_numbers_on_threads<R: Threads + Sync>(
    rt: &R,
    alloc: Global,
    script: &[RawReport],
    links: &NameTable,
    tasks: &NameTable,
    reporters: &NameTable,
) -> Result<Vec<Report>, Fault>
    ensures { Gives (λ script. script.items) result (under (Key keys.Script)
        (each (spec.report_numbers links.now tasks.now reporters.now) 0
        (map report_view script.now))) }
{
    if script.len() < MANY_REPORTS {
        return script_numbers(alloc, script, links, tasks, reporters, &[]);
    }
    under(
        PathStep::Key {
            name: DocKey::Script,
        },
        each_report_on_threads(rt, alloc, script, links, tasks, reporters),
    )
}
