//! The groups with numbers in place of the names that refer to others.

ghost use Rattle.std.specs.Prelude.{[], map};
ghost use Rattle.raw_document.specs.Reading.{Gives, each_view, under, each};
ghost use Rattle.raw_document.specs.Raw as raw;
ghost use Rattle.bwe_specs.specs.Paths as paths;
ghost use Rattle.raw_document.specs.Raw.{name_view, path_view, path_group_view, task_view, job_view, user_view, group_view};
ghost use Rattle.raw_document.specs.declared.key.DocKey.TheVariants as keys;
ghost use Rattle.raw_document.specs.declared.doc_path.PathStep.TheVariants.{Key};
ghost use Rattle.bwe_specs.specs.Given.{path_of, path_group_of, group_of};
ghost use Rattle.doc_passes.specs.Names.{number_in, fold_member};
ghost use Rattle.doc_passes.specs.Numbers as spec;
ghost use Rattle.doc_passes.specs.NumbersView.{group_numbers_view};

use crate::name_table::NameTable;
use crate::numbered::{Numbered, each_numbers, number_near_in_member};
use crate::walk::{Walked, walk_member};
use bwe_specs::{GroupSpec, PathSpec};
use raw_document::{DocKey, Fault, PathStep, RawGroup, RawJob, RawPath, RawTask, RawUser, under};
use std::alloc::Global;

/// What the groups say of numbers: themselves over the links, and the owners of their tasks.
#[derive(Drop)]
pub struct GroupNumbers {
    pub specs: Vec<GroupSpec>,
    pub owners: Vec<u32>,
}

impl<'a> Numbered for RawPath<'a> {
    type Numbers = PathSpec;

    ghost Shown = { raw.Path };

    ghost shown = { path_view };

    ghost Told = { paths.Path };

    ghost told = { path_of };

    ghost in_numbers = { spec.path_numbers };

    #[tactic(auto, unfolding(crate::specs::Numbers::path_numbers))]
    fn numbers(&self, alloc: Global, table: &NameTable) -> Result<PathSpec, Fault> {
        let links = hop_numbers(alloc, &self.links, table)?;
        Ok(PathSpec {
            weight: self.weight,
            links,
        })
    }
}

fn hop_numbers(alloc: Global, names: &[&str], links: &NameTable) -> Result<Vec<u32>, Fault>
    ensures { Gives (λ numbers. numbers.items) result
        (under (Key keys.Links) (each (number_in links.now) 0 (map name_view names.now))) }
{
    under(
        PathStep::Key {
            name: DocKey::Links,
        },
        each_numbers(alloc, names, links),
    )
}

fn path_groups_numbers(
    alloc: Global,
    path_groups: &[Vec<RawPath>],
    links: &NameTable,
) -> Result<Vec<Vec<PathSpec>>, Fault>
    ensures { Gives (each_view path_group_of) result
        (spec.path_groups_numbers links.now (map path_group_view path_groups.now)) }
{
    under(
        PathStep::Key {
            name: DocKey::Paths,
        },
        each_numbers(alloc, path_groups, links),
    )
}

impl<'a, 'b> Walked<NameTable<'b>, Vec<u32>, ()> for RawTask<'a> {
    ghost use Rattle.std.specs.Prelude.{ℕ, List};

    ghost Shown = { raw.Task };

    ghost shown = { task_view };

    ghost State = { List ℕ };

    ghost state = { λ owners _. owners.items };

    ghost after = { spec.add_task_owner };

    #[tactic(auto, unfolding(crate::specs::Numbers::add_task_owner))]
    fn walk(
        &self,
        alloc: Global,
        reporters: &NameTable<'b>,
        owners: &mut Vec<u32>,
        _second: &mut (),
    ) -> Result<(), Fault> {
        // The tasks of a job mostly have one owner, or two in turn.
        let guess = match owners.as_slice() {
            [.., owner, _] => *owner,
            _ => 0,
        };
        let owner = number_near_in_member(
            alloc,
            DocKey::Reporter,
            reporters,
            self.reporter,
            guess,
        )?;
        owners.push(owner)?;
        Ok(())
    }
}

impl<'a, 'b> Walked<NameTable<'b>, Vec<u32>, ()> for RawJob<'a> {
    ghost use Rattle.std.specs.Prelude.{ℕ, List};

    ghost Shown = { raw.Job };

    ghost shown = { job_view };

    ghost State = { List ℕ };

    ghost state = { λ owners _. owners.items };

    ghost after = { spec.add_job_owners };

    fn walk(
        &self,
        alloc: Global,
        reporters: &NameTable<'b>,
        owners: &mut Vec<u32>,
        second: &mut (),
    ) -> Result<(), Fault> {
        walk_member(alloc, DocKey::Tasks, &self.tasks, reporters, owners, second)
    }
}

impl<'a, 'b> Walked<NameTable<'b>, Vec<u32>, ()> for RawUser<'a> {
    ghost use Rattle.std.specs.Prelude.{ℕ, List};

    ghost Shown = { raw.User };

    ghost shown = { user_view };

    ghost State = { List ℕ };

    ghost state = { λ owners _. owners.items };

    ghost after = { spec.add_user_owners };

    fn walk(
        &self,
        alloc: Global,
        reporters: &NameTable<'b>,
        owners: &mut Vec<u32>,
        second: &mut (),
    ) -> Result<(), Fault> {
        walk_member(alloc, DocKey::Jobs, &self.jobs, reporters, owners, second)
    }
}

/// The tables to which a group refers.
#[derive(Drop)]
pub struct GroupTables<'t, 'a> {
    pub links: &'t NameTable<'a>,
    pub reporters: &'t NameTable<'a>,
}

/// Adds the group over the numbers of its links to the groups, and the owners of its tasks to the
/// owners.
impl<'a, 't, 'b> Walked<GroupTables<'t, 'b>, Vec<GroupSpec>, Vec<u32>> for RawGroup<'a> {
    ghost use Rattle.std.specs.Prelude.{ℕ, List};
    ghost use Rattle.bwe_specs.specs.Given.{Group};

    ghost Shown = { raw.Group };

    ghost shown = { group_view };

    ghost State = { List Group × List ℕ };

    ghost state = { λ specs owners. (each_view group_of specs, owners.items) };

    ghost after = { λ tables. spec.add_group_numbers tables.links.now tables.reporters.now };

    #[tactic(auto, unfolding(crate::specs::Numbers::add_group_numbers))]
    fn walk(
        &self,
        alloc: Global,
        tables: &GroupTables<'t, 'b>,
        specs: &mut Vec<GroupSpec>,
        owners: &mut Vec<u32>,
    ) -> Result<(), Fault> {
        let places = path_groups_numbers(alloc, &self.path_groups, tables.links)?;
        walk_member(
            alloc,
            DocKey::Users,
            &self.users,
            tables.reporters,
            owners,
            &mut (),
        )?;
        let from = String::from_str(alloc, self.from)?;
        let to = String::from_str(alloc, self.to)?;
        specs.push(GroupSpec { from, to, places })?;
        Ok(())
    }
}

/// The groups in turn, of a document with so many tasks.
pub fn group_numbers(
    alloc: Global,
    groups: &[RawGroup],
    task_count: usize,
    links: &NameTable,
    reporters: &NameTable,
) -> Result<GroupNumbers, Fault>
    ensures { Gives group_numbers_view result (fold_member keys.Groups
        (spec.add_group_numbers links.now reporters.now) ([], []) (map group_view groups.now)) }
{
    let mut specs = Vec::with_capacity(alloc, groups.len())?;
    let mut owners = Vec::with_capacity(alloc, task_count)?;
    let tables = GroupTables { links, reporters };
    walk_member(
        alloc,
        DocKey::Groups,
        groups,
        &tables,
        &mut specs,
        &mut owners,
    )?;
    Ok(GroupNumbers { specs, owners })
}
