//! Counts above their limits.

ghost use Rattle.std.specs.Prelude.{◌≡◌, ◌+◌, map, IfOk, IfSome};
ghost use Rattle.raw_document.specs.Raw.{path_view, path_group_view, function_view, job_view, user_view, group_view, raw_view};
ghost use Rattle.doc_passes.specs.Limits as limits;

use bwe_specs::{DocumentLimits, MAX_POINTS, OutOfMemory};
use raw_document::{RawDocument, RawGroup, RawJob, RawPath, RawUser};

/// What there are too many of. `Points` are those of one function, `Hops` all entries of all lists
/// of links of paths.
#[derive(Clone, Copy)]
pub enum What {
    Groups,
    Points,
    Hops,
    Reporters,
    Script,
    Closings,
}

/// A count above its limit.
#[derive(Clone, Copy)]
pub struct Overrun {
    pub what: What,
    pub count: u64,
}

fn overrun_of(what: What, limit: u64, count: u64) -> Option<Overrun>
    ensures { result ≡ limits.overrun_of what limit count }
{
    if limit < count {
        Some(Overrun { what, count })
    } else {
        None
    }
}

fn points_overrun(points: &[(u64, u64)]) -> Option<Overrun>
    ensures { result ≡ limits.points_overrun points.now }
{
    overrun_of(What::Points, MAX_POINTS, points.len() as u64)
}

fn configured_overrun(function: &Option<Vec<(u64, u64)>>) -> Option<Overrun>
    ensures { result ≡ limits.configured_overrun (function_view function.now) }
{
    match function {
        Some(points) => points_overrun(points),
        None => None,
    }
}

#[tactic(auto, unfolding(crate::specs::Limits::job_overrun))]
fn job_overrun(job: &RawJob) -> Option<Overrun>
    ensures { result ≡ limits.job_overrun (job_view job.now) }
{
    match configured_overrun(&job.function) {
        Some(overrun) => Some(overrun),
        None => points_overrun(&job.task),
    }
}

fn jobs_overrun(jobs: &[RawJob]) -> Option<Overrun>
    ensures { result ≡ limits.first_some limits.job_overrun (map job_view jobs.now) }
{
    for job in jobs {
        if let Some(overrun) = job_overrun(job) {
            return Some(overrun);
        }
    }
    None
}

#[tactic(auto, unfolding(crate::specs::Limits::user_overrun))]
fn user_overrun(user: &RawUser) -> Option<Overrun>
    ensures { result ≡ limits.user_overrun (user_view user.now) }
{
    match configured_overrun(&user.function) {
        Some(overrun) => Some(overrun),
        None => jobs_overrun(&user.jobs),
    }
}

fn users_overrun(users: &[RawUser]) -> Option<Overrun>
    ensures { result ≡ limits.first_some limits.user_overrun (map user_view users.now) }
{
    for user in users {
        if let Some(overrun) = user_overrun(user) {
            return Some(overrun);
        }
    }
    None
}

#[tactic(auto, unfolding(crate::specs::Limits::group_overrun))]
fn group_overrun(group: &RawGroup) -> Option<Overrun>
    ensures { result ≡ limits.group_overrun (group_view group.now) }
{
    match configured_overrun(&group.function) {
        Some(overrun) => Some(overrun),
        None => users_overrun(&group.users),
    }
}

fn groups_overrun(groups: &[RawGroup]) -> Option<Overrun>
    ensures { result ≡ limits.first_some limits.group_overrun (map group_view groups.now) }
{
    for group in groups {
        if let Some(overrun) = group_overrun(group) {
            return Some(overrun);
        }
    }
    None
}

/// The hops so far and those of a path group. No memory holds so many that the sum wraps.
fn add_path_group_hops(before: u64, path_group: &[RawPath]) -> Option<u64>
    ensures { IfSome result
        (λ total. total ≡ before + limits.path_group_hops (map path_view path_group.now)) }
{
    let mut total = before;
    for path in path_group {
        total = total.checked_add(path.links.len() as u64)?;
    }
    Some(total)
}

fn add_group_hops(before: u64, path_groups: &[Vec<RawPath>]) -> Option<u64>
    ensures { IfSome result (λ total. total ≡
        before + limits.sum_of limits.path_group_hops (map path_group_view path_groups.now)) }
{
    let mut total = before;
    for path_group in path_groups {
        total = add_path_group_hops(total, path_group)?;
    }
    Some(total)
}

fn count_hops(groups: &[RawGroup]) -> Option<u64>
    ensures { IfSome result (λ total. total ≡ limits.hops (map group_view groups.now)) }
{
    let mut total = 0;
    for group in groups {
        total = add_group_hops(total, &group.path_groups)?;
    }
    Some(total)
}

fn hops_overrun(most: u64, groups: &[RawGroup]) -> Result<Option<Overrun>, OutOfMemory>
    ensures { IfOk result (λ overrun. overrun ≡
        limits.overrun_of What.Hops most (limits.hops (map group_view groups.now))) }
{
    match count_hops(groups) {
        Some(total) => Ok(overrun_of(What::Hops, most, total)),
        None => Err(OutOfMemory),
    }
}

fn lists_overrun(most: DocumentLimits, raw: &RawDocument) -> Option<Overrun>
    ensures { result ≡ limits.lists_overrun most (raw_view raw.now) }
{
    match overrun_of(What::Reporters, most.reporters, raw.reporters.len() as u64) {
        Some(overrun) => Some(overrun),
        None => match overrun_of(What::Script, most.reports, raw.script.len() as u64) {
            Some(overrun) => Some(overrun),
            None => overrun_of(What::Closings, most.closings, raw.closings.len() as u64),
        },
    }
}

#[tactic(auto, unfolding(crate::specs::Limits::overrun_within))]
fn overrun_within(most: DocumentLimits, raw: &RawDocument) -> Result<Option<Overrun>, OutOfMemory>
    ensures { IfOk result (λ overrun. overrun ≡ limits.overrun_within most (raw_view raw.now)) }
{
    if let Some(overrun) = overrun_of(What::Groups, most.groups, raw.groups.len() as u64) {
        return Ok(Some(overrun));
    }
    if let Some(overrun) = groups_overrun(&raw.groups) {
        return Ok(Some(overrun));
    }
    if let Some(overrun) = hops_overrun(most.hops, &raw.groups)? {
        return Ok(Some(overrun));
    }
    Ok(lists_overrun(most, raw))
}

/// The first count that is above its limit, in the order of the list and not of the walk.
///
/// The version decides the limits, also one that is out of its range.
#[tactic(auto, unfolding(crate::specs::Limits::overrun))]
pub fn find_overrun(raw: &RawDocument) -> Result<Option<Overrun>, OutOfMemory>
    ensures { IfOk result (λ overrun. overrun ≡ limits.overrun (raw_view raw.now)) }
{
    overrun_within(DocumentLimits::of(raw.version), raw)
}
