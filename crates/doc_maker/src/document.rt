//! A made document: its objects, and its bytes.
#![tactic(auto, unfolding(raw_document::specs::Words::word))]

ghost use Rattle.std.specs.Prelude.{◌≡◌, ◌<◌, map, IfOk};
ghost use Rattle.serde_json.specs.Data.{string};
ghost use Rattle.bwe_specs.specs.Reports.{numbers};
ghost use Rattle.doc_maker.specs.Layout.{document_value, list_value, report_value};
ghost use Rattle.doc_maker.specs.Made.{IsSize, made, made_document, made_report, reporter_name};
ghost use Rattle.doc_maker.specs.Writing.{Adds, tokens_of};

use crate::network::write_links;
use crate::size::{DocumentSize, write_numbered};
use crate::tree::write_groups;
use bwe_specs::OutOfMemory;
use json::Writer;
use std::alloc::{AllocError, Global};

// Bytes of a group with its link, and of a task with its report: somewhat more than there are.
const GROUP_ROOM: usize = 512;

const TASK_ROOM: usize = 96;

/// The made document of a seed, a number of groups and a number of tasks.
///
/// It has under 4 MB for 20,000 tasks. Nothing is promised of time, nor that memory is there.
#[tactic(auto, unfolding(crate::specs::Made::made_document))]
pub fn make_document(
    alloc: Global,
    seed: u64,
    groups: u32,
    tasks: u32,
) -> Result<Vec<u8>, OutOfMemory>
    requires { IsSize (record { seed = seed; groups = groups; tasks = tasks }) }
    ensures { IfOk result (λ text.
        text.items ≡ made_document (record { seed = seed; groups = groups; tasks = tasks })) }
{
    let size = DocumentSize::new(seed, groups, tasks);
    let room = groups as usize * GROUP_ROOM + tasks as usize * TASK_ROOM;
    let mut out = Writer::new(Vec::with_capacity(alloc, room)?);
    write_document(alloc, &mut out, &size)?;
    Ok(out.into_inner())
}

fn write_document(alloc: Global, out: &mut Writer, size: &DocumentSize) -> Result<(), AllocError>
    ensures { Adds result out.old out.new (tokens_of (document_value (made size.now))) }
{
    out.begin_object()?;
    out.key("groups")?;
    write_groups(alloc, out, size)?;
    out.key("links")?;
    write_links(alloc, out, size)?;
    out.key("reporters")?;
    write_reporters(alloc, out)?;
    out.key("script")?;
    write_script(alloc, out, size)?;
    out.key("top")?;
    out.u64(1_000_000)?;
    out.key("version")?;
    out.u64(1)?;
    out.end_object()
}

fn write_reporters(alloc: Global, out: &mut Writer) -> Result<(), AllocError>
    ensures { Adds result out.old out.new
        (tokens_of (list_value string (map reporter_name (numbers 4)))) }
{
    out.begin_array()?;
    for reporter in 0..4 {
        write_numbered(alloc, out, "r", reporter)?;
    }
    out.end_array()
}

fn write_script(alloc: Global, out: &mut Writer, size: &DocumentSize) -> Result<(), AllocError>
    ensures { Adds result out.old out.new
        (tokens_of (list_value report_value (made size.now).script)) }
{
    out.begin_array()?;
    for task in 0..size.tasks() {
        write_report(alloc, out, size, task)?;
    }
    out.end_array()
}

// The report of a task by its owner.
fn write_report(
    alloc: Global,
    out: &mut Writer,
    size: &DocumentSize,
    task: u32,
) -> Result<(), AllocError>
    requires { task < size.now.tasks }
    ensures { Adds result out.old out.new (tokens_of (report_value (made_report size.now task))) }
{
    out.begin_object()?;
    out.key("demand")?;
    out.u64(size.drawn(size.groups() + task))?;
    out.key("reporter")?;
    write_numbered(alloc, out, "r", task % 4)?;
    out.key("task")?;
    write_numbered(alloc, out, "t", task)?;
    out.end_object()
}
