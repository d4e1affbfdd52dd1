//! The reading of a document: straight from its tokens, and by its tree where that reads nothing.

ghost use Rattle.std.specs.Prelude.{◌≡◌, ◌≤◌, ◌<◌, ◌^◌, ◌&&◌, not, nat_lt, length, IfOk, IfSome};
ghost use Rattle.bwe_specs.specs.DocumentLimits.{limits_of};
ghost use Rattle.bwe_specs.specs.Given.{AreInRange, groups_of, path_groups_of};
ghost use Rattle.path_groups.specs.Plan.{IsBuiltOn};
ghost use Rattle.path_groups.specs.Faults.{plan_fault};
ghost use Rattle.policy_tree.specs.Walk.{tree_fault};
ghost use Rattle.policy_tree.specs.Childless.{clusters_of, idle_tree};
ghost use Rattle.raw_document.specs.Raw.{Raw};
ghost use Rattle.doc_passes.specs.InRange.{IsInRange};
ghost use Rattle.doc_passes.specs.Counts.{task_count};
ghost use Rattle.doc_parts.specs.Document.{document, document_of_raw};
ghost use Rattle.doc_parts.specs.TooMany.{clusters_fault};
ghost use Rattle.doc_refusals.specs.Refusals.{refused_paths, refused_tree, not_owner};
ghost use Rattle.doc_parts.specs.Passing.{Makes};
ghost use Rattle.plan_doc.specs.Accepted.{Answers};
ghost use Rattle.doc_parts.specs.Gathering.{AreTreeParts, IsGathered, Gathers};
ghost use Rattle.plan_doc.specs.Conditions.{IsUsable};

use crate::gathered::{gathered_by_tokens, gathered_on_threads};
use crate::refusal::shape_refusal;
use apart::join_apart;
use bwe_specs::{GroupSpec, MAX_GROUPS};
use doc_names::find_not_owned;
use path_groups::PathPlan;
use plan_doc::{
    Built, DocError, Document, Gathered, Named, TreeParts, build_plan, build_tree, check_owners,
    finish, read_document_by_tree,
};
use policy_tree::PolicyTree;
use std::alloc::Global;
use std::thread::Threads;
use wan_topology::Topology;

// Paths and tree of so long a text are built on two threads. Those of a shorter one take less time
// than a thread takes to start.
const LONG_TEXT: usize = 100_000;

// Plan and tree, each built in a thread of its own. Both end before it answers.
fn plan_beside_tree<R: Threads + Sync>(
    rt: &R,
    alloc: Global,
    version: u64,
    tasks: u64,
    topology: &Topology,
    groups: Vec<GroupSpec>,
    parts: TreeParts,
) -> (Result<PathPlan, DocError>, Result<PolicyTree, DocError>)
    requires few { length groups.items ≤ MAX_GROUPS }
    requires in_range { AreInRange (length topology.now.capacities) (groups_of groups.items) }
    requires parts { (raw : Raw) × AreTreeParts raw parts × IsInRange raw
        × (tasks ≡ task_count raw.groups) }
    ensures plan { Makes result.0 refused_paths (plan_fault topology.now (groups_of groups.items))
        (λ plan. (plan ≡ path_groups_of (groups_of groups.items)) × IsBuiltOn topology.now plan) }
    ensures tree { Makes result.1 refused_tree
        (clusters_fault (limits_of version).tasks (clusters_of parts.spec.clusters.items))
        (λ tree. tree ≡ idle_tree parts.spec) }
{
    // a copy for each closure
    let theirs = alloc;
    let plan = move || -> Result<PathPlan, DocError>
        requires { (length groups.items ≤ MAX_GROUPS)
            × AreInRange (length topology.now.capacities) (groups_of groups.items) }
        ensures { Makes result refused_paths
            (plan_fault topology.entry.now (groups_of groups.items))
            (λ plan. (plan ≡ path_groups_of (groups_of groups.items))
            × IsBuiltOn topology.entry.now plan) }
    { build_plan(alloc, topology, groups) };
    let tree = move || -> Result<PolicyTree, DocError>
        requires { (raw : Raw) × AreTreeParts raw parts × IsInRange raw
            × (tasks ≡ task_count raw.groups) }
        ensures { Makes result refused_tree
            (clusters_fault (limits_of version).tasks
            (clusters_of parts.spec.clusters.items))
            (λ tree. tree ≡ idle_tree parts.spec) }
    { build_tree(theirs, version, tasks, parts) };
    // a thread is started for the first one
    let (tree, plan) = join_apart(rt, tree, plan);
    (plan, tree)
}

// The same, with plan and tree on two threads. Both were built before either refusal is answered.
fn finish_on_threads<R: Threads + Sync>(
    rt: &R,
    alloc: Global,
    gathered: Gathered,
) -> Result<Document, DocError>
    requires gathered { (raw : Raw) × IsGathered raw gathered }
    ensures exact { (raw : Raw) → IsGathered raw gathered
        → Answers result (document_of_raw raw) }
    ensures usable { IfOk result IsUsable }
{
    let Gathered {
        version,
        named,
        built,
    } = gathered;
    let Named { names, numbers } = named;
    let Built { tree, topology } = built;
    let tasks = numbers.task_owners.len() as u64;
    let (plan, tree) = plan_beside_tree(rt, alloc, version, tasks, &topology, numbers.groups, tree);
    let plan = plan?;
    let tree = tree?;
    check_owners(find_not_owned(&numbers.task_owners, &numbers.link_owners, &numbers.script))?;
    Ok(Document {
        version,
        tree,
        topology,
        plan,
        script: numbers.script,
        closings: numbers.closings,
        names,
        task_owners: numbers.task_owners,
        link_owners: numbers.link_owners,
    })
}

// The document of the bytes, of which this was found straight from the tokens.
fn document_from(
    alloc: Global,
    bytes: &[u8],
    found: Option<Result<Gathered, DocError>>,
) -> Result<Document, DocError>
    requires found { IfSome found (λ found. Gathers found (document bytes.now)) }
    ensures exact { Answers result (document bytes.now) }
    ensures usable { IfOk result IsUsable }
{
    match found {
        Some(Ok(gathered)) => finish(alloc, gathered),
        Some(Err(error)) => Err(error),
        None => document_without_tokens(alloc, bytes),
    }
}

// The same, with plan and tree on two threads.
fn document_from_on_threads<R: Threads + Sync>(
    rt: &R,
    alloc: Global,
    bytes: &[u8],
    found: Option<Result<Gathered, DocError>>,
) -> Result<Document, DocError>
    requires found { IfSome found (λ found. Gathers found (document bytes.now)) }
    ensures exact { Answers result (document bytes.now) }
    ensures usable { IfOk result IsUsable }
{
    match found {
        Some(Ok(gathered)) => finish_on_threads(rt, alloc, gathered),
        found => document_from(alloc, bytes, found),
    }
}

// The document of bytes that do not have the shape of one straight from the tokens.
fn document_without_tokens(alloc: Global, bytes: &[u8]) -> Result<Document, DocError>
    ensures exact { Answers result (document bytes.now) }
    ensures usable { IfOk result IsUsable }
{
    match shape_refusal(alloc, bytes) {
        Some(error) => Err(error),
        None => read_document_by_tree(alloc, bytes),
    }
}

/// The document of the bytes ("The document" and "Refusals", docs/FORMAT.md), or its refusal of the
/// lowest number.
///
/// Names are lent by the text until names and numbers are copied from it. Each name is hashed once
/// where it stands and at most once where it is referred to; nothing else is looked up. What was
/// read of the text, and the tables in which names are looked up, are freed before paths and tree
/// are built, so they take no memory beside these.
///
/// Only a text that is not of the shape of a document is read again: by a walk that finds the first
/// fault, and by its tree where that walk finds none, as in a text that is no JSON.
pub fn read_document(alloc: Global, bytes: &[u8]) -> Result<Document, DocError>
    // The answer is the definition's, unless memory ran out.
    ensures exact { Answers result (document bytes.now) }
    // An accepted document meets the conditions of the calls that take its parts.
    ensures usable { IfOk result IsUsable }
{
    document_from(alloc, bytes, gathered_by_tokens(alloc, bytes))
}

/// The same by several threads. Functions and links are built (refusals 7 and 8) beside all that is
/// done with names: ranges are looked at (refusal 4) beside the tables of names (refusal 5), and
/// then the names are copied beside the numbers that stand for them (refusal 6). What was read is
/// let go, and paths (refusal 9) are built beside the tree (refusal 10). A text that has to be read
/// again is one thread's.
///
/// What runs at once ends before any of its refusals is answered, and the one of the lowest number
/// is, as by `read_document`. What it makes stands in memory at the same time. Where no thread can
/// be started, one does it all. Nothing is promised of time, nor that any two ran at once.
///
/// Of a text above 67,108,864 bytes that was not read in stretches the first fault is looked for
/// before it is read as a whole, which would take as many bytes as it has beside all that was read.
pub fn read_document_on_threads<R: Threads + Sync>(
    rt: &R,
    alloc: Global,
    bytes: &[u8],
) -> Result<Document, DocError>
    // The answer is the definition's, unless memory ran out.
    ensures exact { Answers result (document bytes.now) }
    // An accepted document meets the conditions of the calls that take its parts.
    ensures usable { IfOk result IsUsable }
{
    let found = gathered_on_threads(rt, alloc, bytes);
    if bytes.len() < LONG_TEXT {
        return document_from(alloc, bytes, found);
    }
    document_from_on_threads(rt, alloc, bytes, found)
}
