//! The functions of a document, and the clusters that are built with them.

ghost use Rattle.std.specs.Prelude.{◌≡◌, ◌≤◌, map, option_map, IfOk};
ghost use Rattle.raw_document.specs.Reading.{each_view};
ghost use Rattle.raw_document.specs.Raw.{function_view, task_view, job_view, user_view, group_view};
ghost use Rattle.cluster_parts.specs.Building.{Builds, IsBuiltUnder};
ghost use Rattle.cluster_parts.specs.Functions as functions;
ghost use Rattle.cluster_parts.specs.TreeParts.{function_part, job_part, user_part, cluster_part};
ghost use Rattle.tree_spec.specs.Asked.{idle_job, idle_user, idle_cluster};

use crate::build_error::BuildError;
use bw_function::BwFunction;
use bwe_specs::MAX_SHARE;
use raw_document::{DocKey, DocPath, PathStep, RawGroup, RawJob, RawTask, RawUser};
use std::alloc::{AllocError, Global};
use tree_spec::{ClusterSpec, JobSpec, UserSpec};

/// What was built, told from one step above.
fn under<T: Drop>(step: PathStep, built: Result<T, BuildError>) -> Result<T, BuildError>
    ensures { IsBuiltUnder step built result }
{
    match built {
        Ok(part) => Ok(part),
        Err(error) => Err(error.under(step)),
    }
}

fn function_here(alloc: Global, points: &[(u64, u64)], top: u64) -> Result<BwFunction, BuildError>
    requires some_top { 1 ≤ top }
    requires top { top ≤ MAX_SHARE }
    ensures { Builds (λ function. function) result
        (functions.refused_here top points.now) (function_part top points.now) }
{
    match BwFunction::new(alloc, points, top) {
        Ok(function) => Ok(function),
        Err(bw_function::FunctionError::Refused { fault }) => Err(BuildError::Refused {
            path: DocPath {
                steps: Vec::new(alloc),
            },
            cause: fault,
        }),
        Err(bw_function::FunctionError::OutOfMemory) => Err(BuildError::OutOfMemory),
    }
}

fn configured_function(
    alloc: Global,
    function: &Option<Vec<(u64, u64)>>,
    top: u64,
) -> Result<Option<BwFunction>, BuildError>
    requires some_top { 1 ≤ top }
    requires top { top ≤ MAX_SHARE }
    ensures { Builds (λ function. function) result
        (functions.refused_configured top (function_view function.now))
        (option_map (function_part top) (function_view function.now)) }
{
    match function {
        Some(points) => match function_here(alloc, points, top) {
            Ok(function) => Ok(Some(function)),
            Err(error) => Err(error.under(PathStep::Key {
                name: DocKey::Function,
            })),
        },
        None => Ok(None),
    }
}

fn weights_of(alloc: Global, tasks: &[RawTask]) -> Result<Vec<u64>, AllocError>
    ensures { IfOk result
        (λ weights. weights.items ≡ map (λ task. task.weight) (map task_view tasks.now)) }
{
    let mut weights = Vec::with_capacity(alloc, tasks.len())?;
    for task in tasks {
        weights.push(task.weight)?;
    }
    Ok(weights)
}

#[tactic(auto, unfolding(crate::specs::Functions::refused_in_job))]
fn job_spec(alloc: Global, job: &RawJob, top: u64) -> Result<JobSpec, BuildError>
    requires some_top { 1 ≤ top }
    requires top { top ≤ MAX_SHARE }
    ensures { Builds idle_job result
        (functions.refused_in_job top (job_view job.now)) (job_part top (job_view job.now)) }
{
    let function = configured_function(alloc, &job.function, top)?;
    let task = under(
        PathStep::Key { name: DocKey::Task },
        function_here(alloc, &job.task, top),
    )?;
    let weights = weights_of(alloc, &job.tasks)?;
    Ok(JobSpec {
        function,
        task,
        weights,
    })
}

fn job_specs(alloc: Global, jobs: &[RawJob], top: u64) -> Result<Vec<JobSpec>, BuildError>
    requires some_top { 1 ≤ top }
    requires top { top ≤ MAX_SHARE }
    ensures { Builds (each_view idle_job) result
        (functions.first_refused (functions.refused_in_job top) 0 (map job_view jobs.now))
        (map (job_part top) (map job_view jobs.now)) }
{
    let mut specs = Vec::with_capacity(alloc, jobs.len())?;
    for (place, job) in jobs.iter().enumerate() {
        match job_spec(alloc, job, top) {
            Ok(spec) => specs.push(spec)?,
            Err(error) => {
                return Err(error.under(PathStep::Index {
                    place: place as u64,
                }));
            }
        }
    }
    Ok(specs)
}

#[tactic(auto, unfolding(crate::specs::Functions::refused_in_user))]
fn user_spec(alloc: Global, user: &RawUser, top: u64) -> Result<UserSpec, BuildError>
    requires some_top { 1 ≤ top }
    requires top { top ≤ MAX_SHARE }
    ensures { Builds idle_user result
        (functions.refused_in_user top (user_view user.now)) (user_part top (user_view user.now)) }
{
    let function = configured_function(alloc, &user.function, top)?;
    let jobs = under(
        PathStep::Key { name: DocKey::Jobs },
        job_specs(alloc, &user.jobs, top),
    )?;
    Ok(UserSpec { function, jobs })
}

fn user_specs(alloc: Global, users: &[RawUser], top: u64) -> Result<Vec<UserSpec>, BuildError>
    requires some_top { 1 ≤ top }
    requires top { top ≤ MAX_SHARE }
    ensures { Builds (each_view idle_user) result
        (functions.first_refused (functions.refused_in_user top) 0 (map user_view users.now))
        (map (user_part top) (map user_view users.now)) }
{
    let mut specs = Vec::with_capacity(alloc, users.len())?;
    for (place, user) in users.iter().enumerate() {
        match user_spec(alloc, user, top) {
            Ok(spec) => specs.push(spec)?,
            Err(error) => {
                return Err(error.under(PathStep::Index {
                    place: place as u64,
                }));
            }
        }
    }
    Ok(specs)
}

#[tactic(auto, unfolding(crate::specs::Functions::refused_in_group))]
fn cluster_spec(alloc: Global, group: &RawGroup, top: u64) -> Result<ClusterSpec, BuildError>
    requires some_top { 1 ≤ top }
    requires top { top ≤ MAX_SHARE }
    ensures { Builds idle_cluster result
        (functions.refused_in_group top (group_view group.now))
        (cluster_part top (group_view group.now)) }
{
    let function = configured_function(alloc, &group.function, top)?;
    let users = under(
        PathStep::Key {
            name: DocKey::Users,
        },
        user_specs(alloc, &group.users, top),
    )?;
    Ok(ClusterSpec { function, users })
}

fn each_cluster_spec(
    alloc: Global,
    groups: &[RawGroup],
    top: u64,
) -> Result<Vec<ClusterSpec>, BuildError>
    requires some_top { 1 ≤ top }
    requires top { top ≤ MAX_SHARE }
    ensures { Builds (each_view idle_cluster) result
        (functions.first_refused (functions.refused_in_group top) 0 (map group_view groups.now))
        (map (cluster_part top) (map group_view groups.now)) }
{
    let mut specs = Vec::with_capacity(alloc, groups.len())?;
    for (place, group) in groups.iter().enumerate() {
        match cluster_spec(alloc, group, top) {
            Ok(spec) => specs.push(spec)?,
            Err(error) => {
                return Err(error.under(PathStep::Index {
                    place: place as u64,
                }));
            }
        }
    }
    Ok(specs)
}

/// The clusters of the groups. Each function is built once, on the walk that looks for the first
/// one that is refused.
pub fn cluster_specs(
    alloc: Global,
    groups: &[RawGroup],
    top: u64,
) -> Result<Vec<ClusterSpec>, BuildError>
    requires some_top { 1 ≤ top }
    requires top { top ≤ MAX_SHARE }
    ensures { Builds (each_view idle_cluster) result
        (functions.refused_in_groups top (map group_view groups.now))
        (map (cluster_part top) (map group_view groups.now)) }
{
    under(
        PathStep::Key {
            name: DocKey::Groups,
        },
        each_cluster_spec(alloc, groups, top),
    )
}
