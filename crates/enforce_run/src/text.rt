//! The text of a world, row by row.

ghost use Rattle.std.specs.Prelude.{◌≡◌, ◌++◌, ◌<◌, ◌^◌, IfOk, OnOk, flat_map, length, string_bytes};
ghost use Rattle.bwe_specs.specs.Reports.{numbers};
ghost use Rattle.std.specs.List.{All};
ghost use Rattle.enforcer_core.specs.World.{tasks_at};
ghost use Rattle.enforce_run.specs.EnforceText.{answer_line, enforce_text_of, limit_line, limit_text, region_line, region_lines};

use bwe_specs::OutOfMemory;
use demand_book::Posted;
use doc_names::NameList;
use enforcer_core::{World, WorldAnswer};
use std::alloc::{AllocError, Global};
use table_text::{end_with_number, name_of, push_number};

/// The text of the answers to all events and of the world after them, with the names of tasks
/// ("Enforce text", docs/FORMAT.md).
///
/// A task that has no name is printed with an empty text; the names of a document have one for each
/// of its tasks.
#[tactic(auto, unfolding(crate::specs::EnforceText::enforce_text_of))]
pub(crate) fn enforce_text<T: Posted>(
    alloc: Global,
    names: &NameList,
    answers: &[WorldAnswer],
    world: &World<T>,
) -> Result<Vec<u8>, OutOfMemory>
    requires regions { length world.now.tasks < 2 ^ 32 }
    requires tasks { All (λ tasks. length tasks < 2 ^ 32) world.now.tasks }
    ensures { IfOk result (λ text. text.items
        ≡ enforce_text_of T.covers names.now answers.now world.now) }
{
    let mut text = String::new(alloc);
    push_answers(&mut text, answers)?;
    push_regions(&mut text, names, world)?;
    end_with_number(&mut text, "settled ", world.settled())?;
    Ok(text.into_bytes())
}

fn push_answers(text: &mut String, answers: &[WorldAnswer]) -> Result<(), AllocError>
    ensures { OnOk result
        (string_bytes text.new ≡ string_bytes text.old ++ flat_map answer_line answers.now) }
{
    for answer in answers {
        push_answer(text, *answer)?;
    }
    Ok(())
}

#[tactic(auto, unfolding(crate::specs::EnforceText::answer_line))]
fn push_answer(text: &mut String, answer: WorldAnswer) -> Result<(), AllocError>
    ensures { OnOk result (string_bytes text.new ≡ string_bytes text.old ++ answer_line answer) }
{
    match answer {
        WorldAnswer::Posted { prefix } => end_with_number(text, "posted ", prefix),
        WorldAnswer::Sent { message, prefix } => {
            push_number(text, "sent ", message)?;
            end_with_number(text, " prefix ", prefix)
        }
        WorldAnswer::Took { prefix, up } => {
            push_number(text, "took ", prefix)?;
            end_with_number(text, " up ", up)
        }
        WorldAnswer::Older { floor, up } => {
            push_number(text, "older ", floor)?;
            end_with_number(text, " up ", up)
        }
        WorldAnswer::Acked { prefix } => end_with_number(text, "acked ", prefix),
        WorldAnswer::Restarted { floor } => end_with_number(text, "restarted floor ", floor),
    }
}

#[tactic(auto, using(table_text::proofs::Lines::one_line_more))]
fn push_regions<T: Posted>(
    text: &mut String,
    names: &NameList,
    world: &World<T>,
) -> Result<(), AllocError>
    requires regions { length world.now.tasks < 2 ^ 32 }
    requires tasks { All (λ tasks. length tasks < 2 ^ 32) world.now.tasks }
    ensures { OnOk result (string_bytes text.new ≡ string_bytes text.old
        ++ flat_map (region_lines names.now world.now)
        (numbers (length world.now.tasks))) }
{
    for region in 0..world.regions() {
        push_region(text, names, world, region)?;
    }
    Ok(())
}

fn push_region<T: Posted>(
    text: &mut String,
    names: &NameList,
    world: &World<T>,
    region: u32,
) -> Result<(), AllocError>
    requires region { region < length world.now.tasks }
    requires tasks { All (λ tasks. length tasks < 2 ^ 32) world.now.tasks }
    ensures { OnOk result (string_bytes text.new
        ≡ string_bytes text.old ++ region_lines names.now world.now region) }
{
    let (floor, acked) = (world.floor(region), world.acked(region));
    push_region_line(text, region, floor, acked, world.in_force(region))?;
    push_limits(text, names, world, region)
}

#[tactic(auto, unfolding(crate::specs::EnforceText::region_line))]
fn push_region_line(
    text: &mut String,
    region: u32,
    floor: u64,
    acked: u64,
    in_force: Option<u64>,
) -> Result<(), AllocError>
    ensures { OnOk result
        (string_bytes text.new ≡ string_bytes text.old ++ region_line region floor acked in_force) }
{
    match in_force {
        None => write!(
            text,
            "region {region} floor {floor} acked {acked} in force none\n"
        ),
        Some(prefix) => write!(
            text,
            "region {region} floor {floor} acked {acked} in force {prefix}\n"
        ),
    }
}

#[tactic(auto, using(table_text::proofs::Lines::one_line_more))]
fn push_limits<T: Posted>(
    text: &mut String,
    names: &NameList,
    world: &World<T>,
    region: u32,
) -> Result<(), AllocError>
    requires region { region < length world.now.tasks }
    requires tasks { length (tasks_at world.now region) < 2 ^ 32 }
    ensures { OnOk result (string_bytes text.new ≡ string_bytes text.old
        ++ flat_map (limit_line names.now world.now region)
        (numbers (length (tasks_at world.now region)))) }
{
    for place in 0..world.tasks(region).len() {
        push_limit_at(text, names, world, region, place)?;
    }
    Ok(())
}

fn push_limit_at<T: Posted>(
    text: &mut String,
    names: &NameList,
    world: &World<T>,
    region: u32,
    place: usize,
) -> Result<(), AllocError>
    requires region { region < length world.now.tasks }
    requires place { place < length (tasks_at world.now region) }
    requires tasks { length (tasks_at world.now region) < 2 ^ 32 }
    ensures { OnOk result (string_bytes text.new
        ≡ string_bytes text.old ++ limit_line names.now world.now region place) }
{
    let name = name_of(names, world.tasks(region)[place]);
    push_limit(text, name, world.limit(region, place as u32))
}

#[tactic(auto, unfolding(crate::specs::EnforceText::limit_text))]
fn push_limit(text: &mut String, name: &str, limit: Option<u64>) -> Result<(), AllocError>
    ensures { OnOk result
        (string_bytes text.new ≡ string_bytes text.old ++ limit_text name.now limit) }
{
    match limit {
        None => Ok(()),
        Some(limit) => {
            text.push_str("task ")?;
            text.push_str(name)?;
            end_with_number(text, " limit ", limit)
        }
    }
}
