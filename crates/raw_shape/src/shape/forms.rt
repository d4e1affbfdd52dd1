//! The objects of a document.

ghost use Rattle.std.specs.Prelude.{◌≡◌};
ghost use Rattle.serde_json.specs.View.{view};
ghost use Rattle.raw_document.specs.Reading.{each_view, Gives};
ghost use Rattle.raw_document.specs.Shape.{function, field, optional};
ghost use Rattle.raw_document.specs.Raw.{Link, Path, Task, Job, User, Group, Report, Closing};
ghost use Rattle.raw_document.specs.Raw.{link_view, path_view, task_view, function_view, job_view, user_view, group_view, report_view, closing_view, raw_view};
ghost use Rattle.raw_document.specs.Forms.{weight_at, closings_at, link_at, path_at, task_at, job_at, user_at, group_at, is_of_link, demand_at, capacity_at, report_at, closing_at, document_at};
ghost use Rattle.raw_document.specs.Forms as forms;
ghost use Rattle.raw_document.specs.declared.key.DocKey.TheVariants as keys;

use crate::shape::fields::{check_object, optional_text_in, optional_whole_in, text_in, whole_in};
use crate::shape::part::{Part, list_in};
use raw_document::{
    DocKey, Fault, PathStep, RawClosing, RawDocument, RawGroup, RawJob, RawLink, RawPath,
    RawReport, RawTarget, RawTask, RawUser,
};
use serde_json::Value;
use std::alloc::Global;

fn function_in(alloc: Global, value: &Value, key: DocKey) -> Result<Vec<(u64, u64)>, Fault>
    ensures { Gives (λ points. points.items) result (field key function (view value.now)) }
{
    list_in(alloc, value, key, 0)
}

fn function_of(alloc: Global, value: &Value) -> Result<Vec<(u64, u64)>, Fault>
    ensures { Gives (λ points. points.items) result (function (view value.now)) }
{
    Vec::read(alloc, value, 0)
}

#[tactic(auto, unfolding(raw_document::specs::Shape::optional))]
fn optional_function_in(alloc: Global, value: &Value) -> Result<Option<Vec<(u64, u64)>>, Fault>
    ensures { Gives function_view result (optional keys.Function function (view value.now)) }
{
    match value.get(DocKey::Function.text()) {
        Some(found) => match function_of(alloc, found) {
            Ok(points) => Ok(Some(points)),
            Err(fault) => Err(fault.under(PathStep::Key {
                name: DocKey::Function,
            })),
        },
        None => Ok(None),
    }
}

const LINK_KEYS: [DocKey; 4] = [DocKey::Name, DocKey::From, DocKey::To, DocKey::Capacity];

const OWNER: [DocKey; 1] = [DocKey::Owner];

// The keys that a link may have besides.
fn link_others(version: u64) -> &'static [DocKey]
    ensures { result.now ≡ forms.link_others version }
{
    if version == 1 { &[] } else { &OWNER }
}

impl<'v> Part<'v> for RawLink<'v> {
    ghost Shown = { Link };

    ghost shown = { link_view };

    ghost shape = { link_at };

    #[tactic(auto, unfolding(raw_document::specs::Forms::link_at))]
    fn read(alloc: Global, value: &'v Value, version: u64) -> Result<RawLink<'v>, Fault> {
        check_object(alloc, value, &LINK_KEYS, link_others(version))?;
        let name = text_in(alloc, value, DocKey::Name)?;
        let from = text_in(alloc, value, DocKey::From)?;
        let to = text_in(alloc, value, DocKey::To)?;
        let capacity = whole_in(alloc, value, DocKey::Capacity)?;
        let owner = optional_text_in(alloc, value, DocKey::Owner)?;
        Ok(RawLink {
            name,
            from,
            to,
            capacity,
            owner,
        })
    }
}

const PATH_KEYS: [DocKey; 2] = [DocKey::Weight, DocKey::Links];

impl<'v> Part<'v> for RawPath<'v> {
    ghost Shown = { Path };

    ghost shown = { path_view };

    ghost shape = { λ version d. path_at d };

    #[tactic(auto, unfolding(raw_document::specs::Forms::path_at))]
    fn read(alloc: Global, value: &'v Value, version: u64) -> Result<RawPath<'v>, Fault> {
        check_object(alloc, value, &PATH_KEYS, &[])?;
        let weight = whole_in(alloc, value, DocKey::Weight)?;
        let links = list_in(alloc, value, DocKey::Links, version)?;
        Ok(RawPath { weight, links })
    }
}

fn weight_in(alloc: Global, value: &Value) -> Result<u64, Fault>
    ensures { Gives (λ weight. weight) result (weight_at (view value.now)) }
{
    Ok(optional_whole_in(alloc, value, DocKey::Weight)?.unwrap_or(1))
}

const TASK_KEYS: [DocKey; 2] = [DocKey::Name, DocKey::Reporter];

const WEIGHT: [DocKey; 1] = [DocKey::Weight];

// The keys that a task may have besides.
fn task_others(version: u64) -> &'static [DocKey]
    ensures { result.now ≡ forms.task_others version }
{
    if version == 1 || version == 2 {
        &[]
    } else {
        &WEIGHT
    }
}

impl<'v> Part<'v> for RawTask<'v> {
    ghost Shown = { Task };

    ghost shown = { task_view };

    ghost shape = { task_at };

    #[tactic(auto, unfolding(raw_document::specs::Forms::task_at))]
    fn read(alloc: Global, value: &'v Value, version: u64) -> Result<RawTask<'v>, Fault> {
        check_object(alloc, value, &TASK_KEYS, task_others(version))?;
        let name = text_in(alloc, value, DocKey::Name)?;
        let reporter = text_in(alloc, value, DocKey::Reporter)?;
        let weight = weight_in(alloc, value)?;
        Ok(RawTask {
            name,
            reporter,
            weight,
        })
    }
}

// The key that a job, a user or a group may have besides.
const FUNCTION: [DocKey; 1] = [DocKey::Function];

const JOB_KEYS: [DocKey; 3] = [DocKey::Name, DocKey::Task, DocKey::Tasks];

impl<'v> Part<'v> for RawJob<'v> {
    ghost Shown = { Job };

    ghost shown = { job_view };

    ghost shape = { job_at };

    #[tactic(auto, unfolding(raw_document::specs::Forms::job_at))]
    fn read(alloc: Global, value: &'v Value, version: u64) -> Result<RawJob<'v>, Fault> {
        check_object(alloc, value, &JOB_KEYS, &FUNCTION)?;
        let name = text_in(alloc, value, DocKey::Name)?;
        let function = optional_function_in(alloc, value)?;
        let task = function_in(alloc, value, DocKey::Task)?;
        let tasks = list_in(alloc, value, DocKey::Tasks, version)?;
        Ok(RawJob {
            name,
            function,
            task,
            tasks,
        })
    }
}

const USER_KEYS: [DocKey; 2] = [DocKey::Name, DocKey::Jobs];

impl<'v> Part<'v> for RawUser<'v> {
    ghost Shown = { User };

    ghost shown = { user_view };

    ghost shape = { user_at };

    #[tactic(auto, unfolding(raw_document::specs::Forms::user_at))]
    fn read(alloc: Global, value: &'v Value, version: u64) -> Result<RawUser<'v>, Fault> {
        check_object(alloc, value, &USER_KEYS, &FUNCTION)?;
        let name = text_in(alloc, value, DocKey::Name)?;
        let function = optional_function_in(alloc, value)?;
        let jobs = list_in(alloc, value, DocKey::Jobs, version)?;
        Ok(RawUser {
            name,
            function,
            jobs,
        })
    }
}

const GROUP_KEYS: [DocKey; 5] = [
    DocKey::Name,
    DocKey::From,
    DocKey::To,
    DocKey::Paths,
    DocKey::Users,
];

impl<'v> Part<'v> for RawGroup<'v> {
    ghost Shown = { Group };

    ghost shown = { group_view };

    ghost shape = { group_at };

    #[tactic(auto, unfolding(raw_document::specs::Forms::group_at))]
    fn read(alloc: Global, value: &'v Value, version: u64) -> Result<RawGroup<'v>, Fault> {
        check_object(alloc, value, &GROUP_KEYS, &FUNCTION)?;
        let name = text_in(alloc, value, DocKey::Name)?;
        let from = text_in(alloc, value, DocKey::From)?;
        let to = text_in(alloc, value, DocKey::To)?;
        let function = optional_function_in(alloc, value)?;
        let path_groups = list_in(alloc, value, DocKey::Paths, version)?;
        let users = list_in(alloc, value, DocKey::Users, version)?;
        Ok(RawGroup {
            name,
            from,
            to,
            function,
            path_groups,
            users,
        })
    }
}

/// Whether an entry of the script is a report of a capacity.
#[tactic(auto, unfolding(raw_document::specs::Forms::is_of_link))]
fn is_link_report(value: &Value, version: u64) -> bool
    ensures { result ≡ is_of_link version (view value.now) }
{
    version != 1
        && (value.get(DocKey::Link.text()).is_some()
            || value.get(DocKey::Capacity.text()).is_some())
}

const DEMAND_KEYS: [DocKey; 3] = [DocKey::Reporter, DocKey::Task, DocKey::Demand];

#[tactic(auto, unfolding(raw_document::specs::Forms::demand_at))]
fn demand_of(alloc: Global, value: &Value) -> Result<RawReport<'_>, Fault>
    ensures { Gives report_view result (demand_at (view value.now)) }
{
    check_object(alloc, value, &DEMAND_KEYS, &[])?;
    let reporter = text_in(alloc, value, DocKey::Reporter)?;
    let task = text_in(alloc, value, DocKey::Task)?;
    let amount = whole_in(alloc, value, DocKey::Demand)?;
    Ok(RawReport {
        reporter,
        target: RawTarget::Task(task),
        amount,
    })
}

const CAPACITY_KEYS: [DocKey; 3] = [DocKey::Reporter, DocKey::Link, DocKey::Capacity];

#[tactic(auto, unfolding(raw_document::specs::Forms::capacity_at))]
fn capacity_of(alloc: Global, value: &Value) -> Result<RawReport<'_>, Fault>
    ensures { Gives report_view result (capacity_at (view value.now)) }
{
    check_object(alloc, value, &CAPACITY_KEYS, &[])?;
    let reporter = text_in(alloc, value, DocKey::Reporter)?;
    let link = text_in(alloc, value, DocKey::Link)?;
    let amount = whole_in(alloc, value, DocKey::Capacity)?;
    Ok(RawReport {
        reporter,
        target: RawTarget::Link(link),
        amount,
    })
}

impl<'v> Part<'v> for RawReport<'v> {
    ghost Shown = { Report };

    ghost shown = { report_view };

    ghost shape = { report_at };

    #[tactic(auto, unfolding(raw_document::specs::Forms::report_at))]
    fn read(alloc: Global, value: &'v Value, version: u64) -> Result<RawReport<'v>, Fault> {
        if is_link_report(value, version) {
            capacity_of(alloc, value)
        } else {
            demand_of(alloc, value)
        }
    }
}

const CLOSING_KEYS: [DocKey; 2] = [DocKey::Link, DocKey::Share];

impl<'v> Part<'v> for RawClosing<'v> {
    ghost Shown = { Closing };

    ghost shown = { closing_view };

    ghost shape = { λ version d. closing_at d };

    #[tactic(auto, unfolding(raw_document::specs::Forms::closing_at))]
    fn read(alloc: Global, value: &'v Value, _version: u64) -> Result<RawClosing<'v>, Fault> {
        check_object(alloc, value, &CLOSING_KEYS, &[])?;
        let link = text_in(alloc, value, DocKey::Link)?;
        let share = whole_in(alloc, value, DocKey::Share)?;
        Ok(RawClosing { link, share })
    }
}

#[tactic(auto, unfolding(raw_document::specs::Shape::optional))]
fn closings_in(alloc: Global, value: &Value, version: u64) -> Result<Vec<RawClosing<'_>>, Fault>
    ensures { Gives (each_view closing_view) result (closings_at (view value.now)) }
{
    match value.get(DocKey::Closings.text()) {
        Some(found) => match Vec::read(alloc, found, version) {
            Ok(closings) => Ok(closings),
            Err(fault) => Err(fault.under(PathStep::Key {
                name: DocKey::Closings,
            })),
        },
        None => Ok(Vec::new(alloc)),
    }
}

const CLOSINGS: [DocKey; 1] = [DocKey::Closings];

const DOCUMENT_KEYS: [DocKey; 6] = [
    DocKey::Version,
    DocKey::Top,
    DocKey::Links,
    DocKey::Groups,
    DocKey::Reporters,
    DocKey::Script,
];

/// The shape of the whole document, or the place of the first fault in it.
#[tactic(auto, unfolding(raw_document::specs::Forms::document_at))]
pub fn read_shape(alloc: Global, value: &Value) -> Result<RawDocument<'_>, Fault>
    ensures { Gives raw_view result (document_at (view value.now)) }
{
    check_object(alloc, value, &DOCUMENT_KEYS, &CLOSINGS)?;
    let version = whole_in(alloc, value, DocKey::Version)?;
    let top = whole_in(alloc, value, DocKey::Top)?;
    let links = list_in(alloc, value, DocKey::Links, version)?;
    let groups = list_in(alloc, value, DocKey::Groups, version)?;
    let reporters = list_in(alloc, value, DocKey::Reporters, version)?;
    let script = list_in(alloc, value, DocKey::Script, version)?;
    let closings = closings_in(alloc, value, version)?;
    Ok(RawDocument {
        version,
        top,
        links,
        groups,
        reporters,
        script,
        closings,
    })
}
