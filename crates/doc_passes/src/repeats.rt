//! Names that stand once, in the order of the walk.

ghost use Rattle.std.specs.Prelude.{◌≡◌, []};
ghost use Rattle.raw_document.specs.Reading.{Gives, IsUnder};
ghost use Rattle.raw_document.specs.Raw as raw;
ghost use Rattle.raw_document.specs.Raw.{name_view, link_view, task_view, job_view, user_view, group_view, raw_view};
ghost use Rattle.raw_document.specs.declared.key.DocKey.TheVariants as keys;
ghost use Rattle.raw_document.specs.declared.doc_path.PathStep.TheVariants.{Key};
ghost use Rattle.doc_passes.specs.Names as names;

use crate::few_names::FewNames;
use crate::name_table::NameTable;
use crate::walk::{Walked, walk_member};
use raw_document::{
    DocKey, Fault, PathStep, RawDocument, RawGroup, RawJob, RawLink, RawTask, RawUser, under,
};
use std::alloc::Global;

// What was added by the name of an object, told from the object.
fn of_name(added: Result<(), Fault>) -> Result<(), Fault>
    ensures { IsUnder (Key keys.Name) added result }
{
    under(PathStep::Key { name: DocKey::Name }, added)
}

impl<'a> Walked<(), NameTable<'a>, ()> for &'a str {
    ghost use Rattle.std.specs.Prelude.{ℕ, List};

    ghost Shown = { List ℕ };

    ghost shown = { name_view };

    ghost State = { List (List ℕ) };

    ghost state = { λ table _. table };

    ghost after = { λ _. names.fresh };

    fn walk(
        &self,
        alloc: Global,
        _given: &(),
        table: &mut NameTable<'a>,
        _second: &mut (),
    ) -> Result<(), Fault> {
        table.add(alloc, *self)
    }
}

impl<'a> Walked<(), NameTable<'a>, ()> for RawLink<'a> {
    ghost use Rattle.std.specs.Prelude.{ℕ, List};

    ghost Shown = { raw.Link };

    ghost shown = { link_view };

    ghost State = { List (List ℕ) };

    ghost state = { λ table _. table };

    ghost after = { λ _. names.add_link };

    fn walk(
        &self,
        alloc: Global,
        _given: &(),
        table: &mut NameTable<'a>,
        _second: &mut (),
    ) -> Result<(), Fault> {
        of_name(table.add(alloc, self.name))
    }
}

impl<'a> Walked<(), NameTable<'a>, ()> for RawTask<'a> {
    ghost use Rattle.std.specs.Prelude.{ℕ, List};

    ghost Shown = { raw.Task };

    ghost shown = { task_view };

    ghost State = { List (List ℕ) };

    ghost state = { λ table _. table };

    ghost after = { λ _. names.add_task };

    fn walk(
        &self,
        alloc: Global,
        _given: &(),
        table: &mut NameTable<'a>,
        _second: &mut (),
    ) -> Result<(), Fault> {
        of_name(table.add(alloc, self.name))
    }
}

/// Adds the name of a job to those of the user's jobs, and the names of its tasks to those of all
/// tasks.
impl<'a> Walked<(), FewNames<'a>, NameTable<'a>> for RawJob<'a> {
    ghost use Rattle.std.specs.Prelude.{ℕ, List};

    ghost Shown = { raw.Job };

    ghost shown = { job_view };

    ghost State = { List (List ℕ) × List (List ℕ) };

    ghost state = { λ table tasks. (table, tasks) };

    ghost after = { λ _. names.add_job };

    #[tactic(auto, unfolding(crate::specs::Names::add_job))]
    fn walk(
        &self,
        alloc: Global,
        _given: &(),
        table: &mut FewNames<'a>,
        tasks: &mut NameTable<'a>,
    ) -> Result<(), Fault> {
        of_name(table.add(alloc, self.name))?;
        walk_member(alloc, DocKey::Tasks, &self.tasks, &(), tasks, &mut ())
    }
}

impl<'a> Walked<(), FewNames<'a>, NameTable<'a>> for RawUser<'a> {
    ghost use Rattle.std.specs.Prelude.{ℕ, List};

    ghost Shown = { raw.User };

    ghost shown = { user_view };

    ghost State = { List (List ℕ) × List (List ℕ) };

    ghost state = { λ table tasks. (table, tasks) };

    ghost after = { λ _. names.add_user };

    #[tactic(auto, unfolding(crate::specs::Names::add_user))]
    fn walk(
        &self,
        alloc: Global,
        _given: &(),
        table: &mut FewNames<'a>,
        tasks: &mut NameTable<'a>,
    ) -> Result<(), Fault> {
        of_name(table.add(alloc, self.name))?;
        let mut jobs = FewNames::new(alloc);
        walk_member(alloc, DocKey::Jobs, &self.jobs, &(), &mut jobs, tasks)
    }
}

impl<'a> Walked<(), NameTable<'a>, NameTable<'a>> for RawGroup<'a> {
    ghost use Rattle.std.specs.Prelude.{ℕ, List};

    ghost Shown = { raw.Group };

    ghost shown = { group_view };

    ghost State = { List (List ℕ) × List (List ℕ) };

    ghost state = { λ table tasks. (table, tasks) };

    ghost after = { λ _. names.add_group };

    #[tactic(auto, unfolding(crate::specs::Names::add_group))]
    fn walk(
        &self,
        alloc: Global,
        _given: &(),
        table: &mut NameTable<'a>,
        tasks: &mut NameTable<'a>,
    ) -> Result<(), Fault> {
        of_name(table.add(alloc, self.name))?;
        let mut users = FewNames::new(alloc);
        walk_member(alloc, DocKey::Users, &self.users, &(), &mut users, tasks)
    }
}

// How many tasks the groups have. It is a guess at the room of a table, and no clause is needed.
fn task_count(groups: &[RawGroup]) -> usize {
    let mut count: usize = 0;
    for group in groups {
        for user in &group.users {
            for job in &user.jobs {
                count = count.saturating_add(job.tasks.len());
            }
        }
    }
    count
}

/// Fills the tables with the names of the document, up to the first name that stood before.
#[tactic(auto, unfolding(crate::specs::Names::name_lists))]
pub fn fill_tables<'a>(
    alloc: Global,
    raw: &RawDocument<'a>,
    links: &mut NameTable<'a>,
    groups: &mut NameTable<'a>,
    tasks: &mut NameTable<'a>,
    reporters: &mut NameTable<'a>,
) -> Result<(), Fault>
    requires no_links { links.old ≡ [] }
    requires no_groups { groups.old ≡ [] }
    requires no_tasks { tasks.old ≡ [] }
    requires no_reporters { reporters.old ≡ [] }
    ensures { Gives
        (λ _. record {
          links = links.new;
          groups = groups.new;
          tasks = tasks.new;
          reporters = reporters.new;
        })
        result (names.name_lists (raw_view raw.now)) }
{
    links.reserve(raw.links.len());
    walk_member(alloc, DocKey::Links, &raw.links, &(), links, &mut ())?;
    groups.reserve(raw.groups.len());
    tasks.reserve(task_count(&raw.groups));
    walk_member(alloc, DocKey::Groups, &raw.groups, &(), groups, tasks)?;
    walk_member(
        alloc,
        DocKey::Reporters,
        &raw.reporters,
        &(),
        reporters,
        &mut (),
    )
}
