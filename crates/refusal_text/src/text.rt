//! The line that is printed for a refused document.

ghost use Rattle.std.specs.Prelude.{◌≡◌, ◌++◌, Some, IfOk, OnOk, codes, decimal, string_bytes};
ghost use Rattle.std.specs.List.{flat_map};
ghost use Rattle.doc_refusals.specs.Refusals.{refusal_of};
ghost use Rattle.refusal_text.specs.RefusalLines as lines;

use bw_function::FunctionFault;
use bwe_specs::OutOfMemory;
use doc_passes::What;
use doc_refusals::DocError;
use path_groups::PathFault;
use raw_document::{DocPath, PathStep};
use std::alloc::{AllocError, Global};
use tree_spec::TreeFault;
use wan_topology::TopologyFault;

fn push_step(text: &mut String, step: PathStep) -> Result<(), AllocError>
    ensures { OnOk result (string_bytes text.new ≡ string_bytes text.old ++ lines.step_text step) }
{
    match step {
        PathStep::Key { name } => {
            let word = name.text();
            write!(text, "/{word}")
        }
        PathStep::Index { place } => write!(text, "/{place}"),
    }
}

fn push_steps(text: &mut String, steps: &[PathStep]) -> Result<(), AllocError>
    ensures { OnOk result
        (string_bytes text.new ≡ string_bytes text.old ++ flat_map lines.step_text steps.now) }
{
    for step in steps {
        push_step(text, *step)?;
    }
    Ok(())
}

fn push_path(text: &mut String, path: &DocPath) -> Result<(), AllocError>
    ensures { OnOk result
        (string_bytes text.new ≡ string_bytes text.old ++ lines.path_text path.now.steps.items) }
{
    if path.steps.is_empty() {
        return text.push_str("/");
    }
    push_steps(text, &path.steps)
}

fn what_text(what: What) -> &'static str
    ensures { result.now ≡ lines.what_text what }
{
    match what {
        What::Groups => "groups",
        What::Points => "points",
        What::Hops => "hops",
        What::Reporters => "reporters",
        What::Script => "script",
        What::Closings => "closings",
    }
}

fn push_function_cause(text: &mut String, cause: FunctionFault) -> Result<(), AllocError>
    ensures { OnOk result
        (string_bytes text.new ≡ string_bytes text.old ++ lines.function_cause cause) }
{
    match cause {
        FunctionFault::Empty => text.push_str("1 point 0"),
        FunctionFault::NotFromZero => text.push_str("2 point 0"),
        FunctionFault::ShareNotRising { at } => write!(text, "3 point {at}"),
        FunctionFault::ShareOverTop { at } => write!(text, "4 point {at}"),
        FunctionFault::AmountFalling { at } => write!(text, "5 point {at}"),
        FunctionFault::AmountOverMax { at } => write!(text, "6 point {at}"),
    }
}

fn push_topology_cause(text: &mut String, cause: TopologyFault) -> Result<(), AllocError>
    ensures { OnOk result
        (string_bytes text.new ≡ string_bytes text.old ++ lines.topology_cause cause) }
{
    match cause {
        TopologyFault::TooManyLinks { .. } => text.push_str("1 link 0"),
        TopologyFault::RepeatedLink { link } => write!(text, "2 link {link}"),
        TopologyFault::SelfLink { link } => write!(text, "3 link {link}"),
        TopologyFault::CapacityOverMax { link } => write!(text, "4 link {link}"),
    }
}

fn push_path_place(
    text: &mut String,
    number: &str,
    group: u32,
    place: u32,
    path: u32,
) -> Result<(), AllocError>
    ensures { OnOk result (string_bytes text.new ≡
        string_bytes text.old ++ number.now ++ lines.path_place group place path) }
{
    write!(text, "{number} group {group} place {place} path {path}")
}

fn push_path_cause(text: &mut String, cause: PathFault) -> Result<(), AllocError>
    ensures { OnOk result
        (string_bytes text.new ≡ string_bytes text.old ++ lines.path_cause cause) }
{
    match cause {
        PathFault::TooManyPathGroups { group } => push_path_place(text, "1", group, 0, 0),
        PathFault::NoPath { group, place } => push_path_place(text, "2", group, place, 0),
        PathFault::TooManyPaths { group, place } => push_path_place(text, "3", group, place, 0),
        PathFault::TooManyHops { group, place, path } => {
            push_path_place(text, "4", group, place, path)
        }
        PathFault::WeightRange { group, place, path } => {
            push_path_place(text, "5", group, place, path)
        }
        PathFault::BrokenPath { group, place, path } => {
            push_path_place(text, "6", group, place, path)
        }
        PathFault::RepeatedHop { group, place, path } => {
            push_path_place(text, "7", group, place, path)
        }
    }
}

fn push_tree_cause(text: &mut String, cause: TreeFault) -> Result<(), AllocError>
    ensures { OnOk result
        (string_bytes text.new ≡ string_bytes text.old ++ lines.tree_cause cause) }
{
    match cause {
        TreeFault::EmptyNode { node } => write!(text, "1 node {node}"),
        TreeFault::TooManyTasks { .. } => text.push_str("2 node 0"),
    }
}

fn push_at(text: &mut String, words: &str, path: &DocPath) -> Result<(), AllocError>
    ensures { OnOk result (string_bytes text.new ≡
        string_bytes text.old ++ words.now ++ lines.path_text path.now.steps.items) }
{
    text.push_str(words)?;
    push_path(text, path)
}

fn push_limit(text: &mut String, what: What, count: u64) -> Result<(), AllocError>
    ensures { OnOk result (string_bytes text.new ≡
        string_bytes text.old ++ codes "3 limit " ++ lines.what_text what ++ codes " "
        ++ decimal count) }
{
    let what = what_text(what);
    write!(text, "3 limit {what} {count}")
}

fn push_function(text: &mut String, path: &DocPath, cause: FunctionFault) -> Result<(), AllocError>
    ensures { OnOk result (string_bytes text.new ≡
        string_bytes text.old ++ codes "7 function at " ++ lines.path_text path.now.steps.items
        ++ codes " cause " ++ lines.function_cause cause) }
{
    push_at(text, "7 function at ", path)?;
    text.push_str(" cause ")?;
    push_function_cause(text, cause)
}

fn push_topology(text: &mut String, cause: TopologyFault) -> Result<(), AllocError>
    ensures { OnOk result (string_bytes text.new ≡
        string_bytes text.old ++ codes "8 topology cause " ++ lines.topology_cause cause) }
{
    text.push_str("8 topology cause ")?;
    push_topology_cause(text, cause)
}

fn push_plan(text: &mut String, cause: PathFault) -> Result<(), AllocError>
    ensures { OnOk result (string_bytes text.new ≡
        string_bytes text.old ++ codes "9 path cause " ++ lines.path_cause cause) }
{
    text.push_str("9 path cause ")?;
    push_path_cause(text, cause)
}

fn push_tree(text: &mut String, cause: TreeFault) -> Result<(), AllocError>
    ensures { OnOk result (string_bytes text.new ≡
        string_bytes text.old ++ codes "10 tree cause " ++ lines.tree_cause cause) }
{
    text.push_str("10 tree cause ")?;
    push_tree_cause(text, cause)
}

fn push_refusal(text: &mut String, error: &DocError) -> Result<(), AllocError>
    ensures { OnOk result
        (lines.AddsText (refusal_of error.now) (string_bytes text.old) (string_bytes text.new)) }
{
    match error {
        DocError::NotJson => text.push_str("1 not json"),
        DocError::Shape { path } => push_at(text, "2 shape at ", path),
        DocError::Limit { what, count } => push_limit(text, *what, *count),
        DocError::Range { path } => push_at(text, "4 range at ", path),
        DocError::RepeatedName { path } => push_at(text, "5 repeated name at ", path),
        DocError::UnknownName { path } => push_at(text, "6 unknown name at ", path),
        DocError::Function { path, cause } => push_function(text, path, *cause),
        DocError::Topology { cause } => push_topology(text, *cause),
        DocError::Path { cause } => push_plan(text, *cause),
        DocError::Tree { cause } => push_tree(text, *cause),
        DocError::NotOwner { entry } => {
            let entry = *entry;
            write!(text, "11 not owner at entry {entry}")
        }
        DocError::OutOfMemory => Err(AllocError),
    }
}

/// The row of a refusal ("Refusals", docs/FORMAT.md). `OutOfMemory` has none, and is answered as
/// itself.
#[tactic(auto, unfolding(crate::specs::RefusalLines::refusal_line))]
pub fn refusal_line(alloc: Global, error: &DocError) -> Result<Vec<u8>, OutOfMemory>
    ensures { IfOk result (λ line. lines.error_line error.now ≡ Some line.items) }
{
    let mut text = String::from_str(alloc, "refused ")?;
    push_refusal(&mut text, error)?;
    text.push_str("\n")?;
    Ok(text.into_bytes())
}
