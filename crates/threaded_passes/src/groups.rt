//! The numbers of groups by halves.

ghost use Rattle.std.specs.Prelude.{◌≡◌, ◌≤◌, [], ◌++◌, length, take, drop, map, IfOk, IfErr};
ghost use Rattle.raw_document.specs.declared.doc_path.Fault.TheVariants.{OutOfMemory};
ghost use Rattle.raw_document.specs.Reading.{Gives, each_view};
ghost use Rattle.raw_document.specs.Raw.{group_view};
ghost use Rattle.raw_document.specs.declared.key.DocKey.TheVariants as keys;
ghost use Rattle.bwe_specs.specs.Given.{group_of};
ghost use Rattle.doc_passes.specs.Names.{fold_member};
ghost use Rattle.doc_passes.specs.Numbers as spec;
ghost use Rattle.doc_passes.specs.NumbersView.{group_numbers_view};
ghost use Rattle.threaded_passes.specs.Parts.{fold_member_from};

use crate::walk::walk_member_from;
use apart::join_apart;
use doc_passes::{GroupNumbers, GroupTables, NameTable, group_numbers};
use raw_document::{DocKey, Fault, RawGroup};
use std::alloc::Global;
use std::thread::Threads;

// The numbers of the groups from this place on, told from the list of all.
fn late_group_numbers(
    alloc: Global,
    groups: &[RawGroup],
    from: usize,
    task_count: usize,
    links: &NameTable,
    reporters: &NameTable,
) -> Result<GroupNumbers, Fault>
    ensures { Gives group_numbers_view result (fold_member_from keys.Groups
        (spec.add_group_numbers links.now reporters.now) from ([], [])
        (map group_view (drop from groups.now))) }
{
    let mut specs = Vec::with_capacity(alloc, groups.len())?;
    let mut owners = Vec::with_capacity(alloc, task_count)?;
    let tables = GroupTables { links, reporters };
    walk_member_from(
        alloc,
        DocKey::Groups,
        groups,
        from,
        &tables,
        &mut specs,
        &mut owners,
    )?;
    Ok(GroupNumbers { specs, owners })
}

// The groups before this place and those from it on, each in a thread of its own. Both end before
// it answers.
fn group_halves<R: Threads + Sync>(
    rt: &R,
    alloc: Global,
    groups: &[RawGroup],
    middle: usize,
    task_count: usize,
    links: &NameTable,
    reporters: &NameTable,
) -> (Result<GroupNumbers, Fault>, Result<GroupNumbers, Fault>)
    requires middle { middle ≤ length groups.now }
    ensures early { Gives group_numbers_view result.0 (fold_member keys.Groups
        (spec.add_group_numbers links.now reporters.now) ([], [])
        (map group_view (take middle groups.now))) }
    ensures late { Gives group_numbers_view result.1 (fold_member_from keys.Groups
        (spec.add_group_numbers links.now reporters.now) middle ([], [])
        (map group_view (drop middle groups.now))) }
{
    // a copy for each closure
    let theirs = alloc;
    let (first, _) = groups.split_at(middle);
    let late = move || -> Result<GroupNumbers, Fault>
        ensures { Gives group_numbers_view result (fold_member_from keys.Groups
            (spec.add_group_numbers links.entry.now reporters.entry.now) middle ([], [])
            (map group_view (drop middle groups.entry.now))) }
    { late_group_numbers(theirs, groups, middle, task_count, links, reporters) };
    let early = move || -> Result<GroupNumbers, Fault>
        ensures { Gives group_numbers_view result (fold_member keys.Groups
            (spec.add_group_numbers links.entry.now reporters.entry.now) ([], [])
            (map group_view first.entry.now)) }
    { group_numbers(alloc, first, task_count, links, reporters) };
    join_apart(rt, early, late)
}

// The numbers of all groups, of those of the first and those of the last.
fn both_group_numbers(early: GroupNumbers, late: GroupNumbers) -> Result<GroupNumbers, Fault>
    ensures both { IfOk result (λ all. group_numbers_view all
        ≡ (
          each_view group_of early.specs ++ each_view group_of late.specs,
          early.owners.items ++ late.owners.items,
        )) }
    ensures refused { IfErr result (λ fault. fault ≡ OutOfMemory) }
{
    let mut all = early;
    let mut rest = late;
    all.specs.append(&mut rest.specs)?;
    all.owners.append(&mut rest.owners)?;
    Ok(all)
}

/// The numbers of all groups, half of them in a thread of its own.
pub(crate) fn group_numbers_on_threads<R: Threads + Sync>(
    rt: &R,
    alloc: Global,
    groups: &[RawGroup],
    task_count: usize,
    links: &NameTable,
    reporters: &NameTable,
) -> Result<GroupNumbers, Fault>
    ensures { Gives group_numbers_view result (fold_member keys.Groups
        (spec.add_group_numbers links.now reporters.now) ([], []) (map group_view groups.now)) }
{
    let middle = groups.len() / 2;
    let (early, late) = group_halves(rt, alloc, groups, middle, task_count, links, reporters);
    let early = early?;
    let late = late?;
    both_group_numbers(early, late)
}
