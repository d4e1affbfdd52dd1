//! The groups of a made document, with their users, jobs and tasks.
#![tactic(auto, unfolding(raw_document::specs::Words::word))]

ghost use Rattle.std.specs.Prelude.{◌≡◌, ◌<◌, ◌≤◌, map};
ghost use Rattle.doc_maker.specs.Layout.{function_value, group_value, job_value, list_value, point_value, task_value, user_value};
ghost use Rattle.doc_maker.specs.Made.{made, made_function, made_group, made_job, made_task, made_user, tasks_of, user_function};
ghost use Rattle.doc_maker.specs.Writing.{Adds, function_tokens, jobs_tokens, tokens_of, users_tokens};

use crate::network::write_path_groups;
use crate::size::{DocumentSize, write_numbered};
use json::Writer;
use std::alloc::{AllocError, Global};

/// The groups.
pub(crate) fn write_groups(
    alloc: Global,
    out: &mut Writer,
    size: &DocumentSize,
) -> Result<(), AllocError>
    ensures { Adds result out.old out.new
        (tokens_of (list_value group_value (made size.now).groups)) }
{
    out.begin_array()?;
    for group in 0..size.groups() {
        write_group(alloc, out, size, group)?;
    }
    out.end_array()
}

fn write_group(
    alloc: Global,
    out: &mut Writer,
    size: &DocumentSize,
    group: u32,
) -> Result<(), AllocError>
    requires { group < size.now.groups }
    ensures { Adds result out.old out.new (tokens_of (group_value (made_group size.now group))) }
{
    out.begin_object()?;
    out.key("from")?;
    out.string("a")?;
    out.key("name")?;
    write_numbered(alloc, out, "g", group)?;
    out.key("paths")?;
    write_path_groups(alloc, out, size, group)?;
    out.key("to")?;
    out.string("b")?;
    out.key("users")?;
    write_users(alloc, out, size, group)?;
    out.end_object()
}

// The one user of a group.
fn write_users(
    alloc: Global,
    out: &mut Writer,
    size: &DocumentSize,
    group: u32,
) -> Result<(), AllocError>
    requires { group < size.now.groups }
    ensures { Adds result out.old out.new (users_tokens size.now group) }
{
    out.begin_array()?;
    write_user(alloc, out, size, group)?;
    out.end_array()
}

fn write_user(
    alloc: Global,
    out: &mut Writer,
    size: &DocumentSize,
    group: u32,
) -> Result<(), AllocError>
    requires { group < size.now.groups }
    ensures { Adds result out.old out.new (tokens_of (user_value (made_user size.now group))) }
{
    out.begin_object()?;
    write_user_function(out, group)?;
    out.key("jobs")?;
    write_jobs(alloc, out, size, group)?;
    out.key("name")?;
    out.string("u0")?;
    out.end_object()
}

// The user of every third group has a function.
fn write_user_function(out: &mut Writer, group: u32) -> Result<(), AllocError>
    ensures { Adds result out.old out.new (function_tokens (user_function group)) }
{
    if group % 3 == 0 {
        out.key("function")?;
        write_function(out, &[(0, 0), (1_000_000, 2_000)])
    } else {
        Ok(())
    }
}

// The one job of a user.
fn write_jobs(
    alloc: Global,
    out: &mut Writer,
    size: &DocumentSize,
    group: u32,
) -> Result<(), AllocError>
    requires { group < size.now.groups }
    ensures { Adds result out.old out.new (jobs_tokens size.now group) }
{
    out.begin_array()?;
    write_job(alloc, out, size, group)?;
    out.end_array()
}

fn write_job(
    alloc: Global,
    out: &mut Writer,
    size: &DocumentSize,
    group: u32,
) -> Result<(), AllocError>
    requires { group < size.now.groups }
    ensures { Adds result out.old out.new (tokens_of (job_value (made_job size.now group))) }
{
    let drawn = size.drawn(group);
    out.begin_object()?;
    out.key("name")?;
    out.string("j0")?;
    out.key("task")?;
    write_function(
        out,
        &[(0, 0), (500_000, 100 + drawn), (1_000_000, 200 + 2 * drawn)],
    )?;
    out.key("tasks")?;
    write_tasks(alloc, out, size, group)?;
    out.end_object()
}

fn write_function(out: &mut Writer, points: &[(u64, u64)]) -> Result<(), AllocError>
    ensures { Adds result out.old out.new (tokens_of (function_value points.now)) }
{
    out.begin_array()?;
    for (share, amount) in points {
        write_point(out, *share, *amount)?;
    }
    out.end_array()
}

fn write_point(out: &mut Writer, share: u64, amount: u64) -> Result<(), AllocError>
    ensures { Adds result out.old out.new (tokens_of (point_value (share, amount))) }
{
    out.begin_array()?;
    out.u64(share)?;
    out.u64(amount)?;
    out.end_array()
}

// The tasks of a group: each number that the number of groups divides with the rest `group`.
fn write_tasks(
    alloc: Global,
    out: &mut Writer,
    size: &DocumentSize,
    group: u32,
) -> Result<(), AllocError>
    requires { group < size.now.groups }
    ensures { Adds result out.old out.new
        (tokens_of (list_value task_value (map made_task (tasks_of size.now group)))) }
{
    out.begin_array()?;
    let mut task = group;
    while task < size.tasks() {
        write_task(alloc, out, task)?;
        task += size.groups();
    }
    out.end_array()
}

fn write_task(alloc: Global, out: &mut Writer, task: u32) -> Result<(), AllocError>
    ensures { Adds result out.old out.new (tokens_of (task_value (made_task task))) }
{
    out.begin_object()?;
    out.key("name")?;
    write_numbered(alloc, out, "t", task)?;
    out.key("reporter")?;
    write_numbered(alloc, out, "r", task % 4)?;
    out.end_object()
}
