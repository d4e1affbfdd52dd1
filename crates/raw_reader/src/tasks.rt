//! Tasks, jobs and users.

ghost use Rattle.std.specs.Prelude.{◌≡◌, Ok};
ghost use Rattle.raw_document.specs.Raw.{job_view, task_view, user_view};
ghost use Rattle.raw_document.specs.Forms.{job_at, task_at, user_at};

use crate::part::Part;
use crate::slots::{Slots, fill, fill_slots};
use crate::source::Source;
use crate::values::is;
use raw_document::{DocKey, RawJob, RawTask, RawUser};
use std::alloc::Global;

#[derive(Drop)]
pub struct TaskSlots<'a> {
    pub name: Option<&'a str>,
    pub reporter: Option<&'a str>,
    pub weight: Option<u64>,
}

impl<'a> Slots<'a> for TaskSlots<'a> {
    ghost use Rattle.raw_reader.specs.Slots.{TaskHolds};

    ghost holds = { TaskHolds };

    fn take(
        &mut self,
        alloc: Global,
        version: u64,
        key: &str,
        reader: &mut Source<'a, '_>,
        depth: usize,
    ) -> Option<()> {
        if is(key, DocKey::Name) {
            return fill(&mut self.name, alloc, version, reader, depth);
        }
        if is(key, DocKey::Reporter) {
            return fill(&mut self.reporter, alloc, version, reader, depth);
        }
        if version != 1 && version != 2 && is(key, DocKey::Weight) {
            return fill(&mut self.weight, alloc, version, reader, depth);
        }
        None
    }
}

impl<'a> Part<'a> for RawTask<'a> {
    const USUAL_COUNT: usize = 1;

    ghost is_read = { λ version d task. task_at version d ≡ Ok (task_view task) };

    fn read(
        alloc: Global,
        version: u64,
        reader: &mut Source<'a, '_>,
        depth: usize,
    ) -> Option<RawTask<'a>> {
        let mut slots = TaskSlots {
            name: None,
            reporter: None,
            weight: None,
        };
        fill_slots(&mut slots, alloc, version, reader, depth)?;
        Some(RawTask {
            name: slots.name?,
            reporter: slots.reporter?,
            weight: slots.weight.unwrap_or(1),
        })
    }
}

#[derive(Drop)]
pub struct JobSlots<'a> {
    pub name: Option<&'a str>,
    pub function: Option<Vec<(u64, u64)>>,
    pub task: Option<Vec<(u64, u64)>>,
    pub tasks: Option<Vec<RawTask<'a>>>,
}

impl<'a> Slots<'a> for JobSlots<'a> {
    ghost use Rattle.raw_reader.specs.Slots.{JobHolds};

    ghost holds = { JobHolds };

    fn take(
        &mut self,
        alloc: Global,
        version: u64,
        key: &str,
        reader: &mut Source<'a, '_>,
        depth: usize,
    ) -> Option<()> {
        if is(key, DocKey::Name) {
            return fill(&mut self.name, alloc, version, reader, depth);
        }
        if is(key, DocKey::Function) {
            return fill(&mut self.function, alloc, version, reader, depth);
        }
        if is(key, DocKey::Task) {
            return fill(&mut self.task, alloc, version, reader, depth);
        }
        if is(key, DocKey::Tasks) {
            return fill(&mut self.tasks, alloc, version, reader, depth);
        }
        None
    }
}

impl<'a> Part<'a> for RawJob<'a> {
    const USUAL_COUNT: usize = 1;

    ghost is_read = { λ version d job. job_at version d ≡ Ok (job_view job) };

    fn read(
        alloc: Global,
        version: u64,
        reader: &mut Source<'a, '_>,
        depth: usize,
    ) -> Option<RawJob<'a>> {
        let mut slots = JobSlots {
            name: None,
            function: None,
            task: None,
            tasks: None,
        };
        fill_slots(&mut slots, alloc, version, reader, depth)?;
        match (slots.name, slots.task, slots.tasks) {
            (Some(name), Some(task), Some(tasks)) => Some(RawJob {
                name,
                function: slots.function,
                task,
                tasks,
            }),
            _ => None,
        }
    }
}

#[derive(Drop)]
pub struct UserSlots<'a> {
    pub name: Option<&'a str>,
    pub function: Option<Vec<(u64, u64)>>,
    pub jobs: Option<Vec<RawJob<'a>>>,
}

impl<'a> Slots<'a> for UserSlots<'a> {
    ghost use Rattle.raw_reader.specs.Slots.{UserHolds};

    ghost holds = { UserHolds };

    fn take(
        &mut self,
        alloc: Global,
        version: u64,
        key: &str,
        reader: &mut Source<'a, '_>,
        depth: usize,
    ) -> Option<()> {
        if is(key, DocKey::Name) {
            return fill(&mut self.name, alloc, version, reader, depth);
        }
        if is(key, DocKey::Function) {
            return fill(&mut self.function, alloc, version, reader, depth);
        }
        if is(key, DocKey::Jobs) {
            return fill(&mut self.jobs, alloc, version, reader, depth);
        }
        None
    }
}

impl<'a> Part<'a> for RawUser<'a> {
    const USUAL_COUNT: usize = 1;

    ghost is_read = { λ version d user. user_at version d ≡ Ok (user_view user) };

    fn read(
        alloc: Global,
        version: u64,
        reader: &mut Source<'a, '_>,
        depth: usize,
    ) -> Option<RawUser<'a>> {
        let mut slots = UserSlots {
            name: None,
            function: None,
            jobs: None,
        };
        fill_slots(&mut slots, alloc, version, reader, depth)?;
        match (slots.name, slots.jobs) {
            (Some(name), Some(jobs)) => Some(RawUser {
                name,
                function: slots.function,
                jobs,
            }),
            _ => None,
        }
    }
}
