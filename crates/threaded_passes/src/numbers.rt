//! The document with numbers in place of names, by four threads.

ghost use Rattle.std.specs.Prelude.{[]};
ghost use Rattle.std.specs.Thread.{IsSync};
ghost use Rattle.raw_document.specs.Reading.{Gives, under, each};
ghost use Rattle.raw_document.specs.Raw.{raw_view};
ghost use Rattle.raw_document.specs.declared.key.DocKey.TheVariants as keys;
ghost use Rattle.raw_document.specs.declared.doc_path.PathStep.TheVariants.{Key};
ghost use Rattle.doc_passes.specs.Names.{fold_member};
ghost use Rattle.doc_passes.specs.Numbers as spec;
ghost use Rattle.doc_passes.specs.NumbersView.{numbers_view, group_numbers_view};

use crate::groups::group_numbers_on_threads;
use crate::script::script_numbers_on_threads;
use apart::join_apart;
use bwe_specs::Report;
use doc_passes::{DocumentNumbers, GroupNumbers, NameTable, closings_numbers, link_owners};
use raw_document::{Fault, RawDocument};
use std::alloc::Global;
use std::thread::Threads;

// The numbers of groups and script, each by halves in a thread of its own. Both end before it
// answers.
fn groups_beside_script<R: Threads + Sync>(
    rt: &R,
    alloc: Global,
    raw: &RawDocument,
    links: &NameTable,
    tasks: &NameTable,
    reporters: &NameTable,
) -> (Result<GroupNumbers, Fault>, Result<Vec<Report>, Fault>)
    ensures groups { Gives group_numbers_view result.0 (fold_member keys.Groups
        (spec.add_group_numbers links.now reporters.now) ([], []) (raw_view raw.now).groups) }
    ensures script { Gives (λ script. script.items) result.1 (under (Key keys.Script)
        (each (spec.report_numbers links.now tasks.now reporters.now) 0 (raw_view raw.now).script)) }
{
    // a copy for each closure
    let theirs = alloc;
    let script = move || -> Result<Vec<Report>, Fault>
        requires { IsSync R.row }
        ensures { Gives (λ script. script.items) result (under (Key keys.Script)
            (each (spec.report_numbers links.entry.now tasks.entry.now reporters.entry.now) 0
            (raw_view raw.entry.now).script)) }
    { script_numbers_on_threads(rt, theirs, &raw.script, links, tasks, reporters) };
    let groups = move || -> Result<GroupNumbers, Fault>
        requires { IsSync R.row }
        ensures { Gives group_numbers_view result (fold_member keys.Groups
            (spec.add_group_numbers links.entry.now reporters.entry.now) ([], [])
            (raw_view raw.entry.now).groups) }
    { group_numbers_on_threads(rt, alloc, &raw.groups, tasks.len(), links, reporters) };
    join_apart(rt, groups, script)
}

/// The document with each name that refers to another replaced by its number, or the path of the
/// first unknown name, by four threads: two take the script, where it is long, and two the groups, each by
/// halves.
#[tactic(auto, unfolding(doc_passes::specs::Numbers::numbers))]
pub fn document_numbers_on_threads<R: Threads + Sync>(
    rt: &R,
    alloc: Global,
    raw: &RawDocument,
    links: &NameTable,
    tasks: &NameTable,
    reporters: &NameTable,
) -> Result<DocumentNumbers, Fault>
    ensures { Gives numbers_view result
        (spec.numbers links.now tasks.now reporters.now (raw_view raw.now)) }
{
    let link_owners = link_owners(alloc, &raw.links, reporters)?;
    let (groups, script) = groups_beside_script(rt, alloc, raw, links, tasks, reporters);
    let GroupNumbers { specs, owners } = groups?;
    let script = script?;
    let closings = closings_numbers(alloc, &raw.closings, links)?;
    Ok(DocumentNumbers {
        link_owners,
        groups: specs,
        task_owners: owners,
        script,
        closings,
    })
}
