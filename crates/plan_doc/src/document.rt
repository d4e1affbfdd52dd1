//! The reading of a document by its tree: what is gathered of it first, and then what is made of
//! that.

ghost use Rattle.std.specs.Prelude.{◌≡◌, ◌≤◌, ◌<◌, ◌^◌, ◌&&◌, not, nat_lt, length, IfOk, IfErr, IfSome};
ghost use Rattle.bwe_specs.specs.DocumentLimits.{limits_of};
ghost use Rattle.bwe_specs.specs.Given.{AreInRange, groups_of, path_groups_of};
ghost use Rattle.path_groups.specs.Plan.{IsBuiltOn};
ghost use Rattle.path_groups.specs.Faults.{plan_fault};
ghost use Rattle.tree_spec.specs.Walk.{tree_fault};
ghost use Rattle.tree_spec.specs.Childless.{clusters_of, idle_tree};
ghost use Rattle.raw_document.specs.Raw.{Raw};
ghost use Rattle.doc_passes.specs.InRange.{IsInRange};
ghost use Rattle.doc_passes.specs.Counts.{task_count};
ghost use Rattle.doc_parts.specs.Document.{document, document_of_raw};
ghost use Rattle.doc_parts.specs.TooMany.{clusters_fault};
ghost use Rattle.doc_refusals.specs.Refusals.{refused_paths, refused_tree, not_owner};
ghost use Rattle.doc_parts.specs.Passing.{Makes, NamesRefusal};
ghost use Rattle.plan_doc.specs.Accepted.{Answers};
ghost use Rattle.doc_parts.specs.Gathering.{AreTreeParts, IsGathered, Gathers};
ghost use Rattle.plan_doc.specs.Conditions.{IsUsable};
ghost use Rattle.plan_doc.specs.Last.{last_refusals, AreFaultless};

use bwe_specs::{Closing, DocumentLimits, GroupSpec, MAX_GROUPS, Report};
use doc_names::{Names, find_not_owned};
use doc_parts::{Built, Gathered, Named, TreeParts, gathered_by_tree};
use doc_passes::DocumentNumbers;
use doc_refusals::DocError;
use path_groups::{PathError, PathPlan};
use policy_tree::PolicyTree;
use std::alloc::Global;
use tree_spec::{TreeError, TreeFault};
use wan_topology::Topology;

/// An accepted document, of version 1 to 4. Links, groups, tasks and reporters are numbers, whose
/// names are in `names`.
///
/// `task_owners` and `link_owners` have the number of the reporter who owns each task and link; a
/// link may have none.
#[derive(Drop)]
pub struct Document {
    pub version: u64,
    pub tree: PolicyTree,
    pub topology: Topology,
    pub plan: PathPlan,
    pub script: Vec<Report>,
    pub closings: Vec<Closing>,
    pub names: Names,
    pub task_owners: Vec<u32>,
    pub link_owners: Vec<Option<u32>>,
}

/// The path groups of a document's groups over its links, or refusal 9.
pub fn build_plan(
    alloc: Global,
    topology: &Topology,
    groups: Vec<GroupSpec>,
) -> Result<PathPlan, DocError>
    requires few { length groups.items ≤ MAX_GROUPS }
    requires in_range { AreInRange (length topology.now.capacities) (groups_of groups.items) }
    ensures { Makes result refused_paths (plan_fault topology.now (groups_of groups.items))
        (λ plan. (plan ≡ path_groups_of (groups_of groups.items)) × IsBuiltOn topology.now plan) }
{
    match PathPlan::build(alloc, topology, groups) {
        Ok(plan) => Ok(plan),
        Err(PathError::Refused { fault }) => Err(DocError::Path { cause: fault }),
        Err(PathError::OutOfMemory) => Err(DocError::OutOfMemory),
    }
}

// The parts are those of a document in its ranges, whose tasks have numbers.
fn tree_of(alloc: Global, parts: TreeParts) -> Result<PolicyTree, DocError>
    requires parts { (raw : Raw) × AreTreeParts raw parts × IsInRange raw
        × (task_count raw.groups < 2 ^ 64) }
    ensures { Makes result refused_tree (tree_fault (clusters_of parts.spec.clusters.items))
        (λ tree. tree ≡ idle_tree parts.spec) }
{
    if !parts.numbered {
        return Err(DocError::OutOfMemory);
    }
    match PolicyTree::build(alloc, parts.spec) {
        Ok(tree) => Ok(tree),
        Err(TreeError::Refused { fault }) => Err(DocError::Tree { cause: fault }),
        Err(TreeError::OutOfMemory) => Err(DocError::OutOfMemory),
    }
}

// Whether the tree is refused for its number of tasks: a node without children comes before that.
fn has_too_many(version: u64, tasks: u64, childless: bool) -> bool
    ensures { result ≡ (nat_lt (limits_of version).tasks tasks && not childless) }
{
    DocumentLimits::of(version).tasks < tasks && !childless
}

/// The tree of a document's clusters, or refusal 10.
///
/// `tasks` is the number of tasks of the document that the parts are of. Too many are refused before
/// the tree takes memory.
pub fn build_tree(
    alloc: Global,
    version: u64,
    tasks: u64,
    parts: TreeParts,
) -> Result<PolicyTree, DocError>
    requires parts { (raw : Raw) × AreTreeParts raw parts × IsInRange raw
        × (tasks ≡ task_count raw.groups) }
    ensures { Makes result refused_tree
        (clusters_fault (limits_of version).tasks (clusters_of parts.spec.clusters.items))
        (λ tree. tree ≡ idle_tree parts.spec) }
{
    if has_too_many(version, tasks, parts.childless) {
        return Err(DocError::Tree {
            cause: TreeFault::TooManyTasks { count: tasks },
        });
    }
    tree_of(alloc, parts)
}

/// Nothing, or refusal 11: the entry of the script whose reporter does not own what it is about.
pub fn check_owners(stranger: Option<u64>) -> Result<(), DocError>
    ensures { Makes result not_owner stranger (λ _. Unit) }
{
    match stranger {
        Some(entry) => Err(DocError::NotOwner { entry }),
        None => Ok(()),
    }
}

// What is built of groups and clusters, or the first of the refusals 9 to 11.
fn plan_and_tree(
    alloc: Global,
    version: u64,
    topology: &Topology,
    groups: Vec<GroupSpec>,
    tasks: u64,
    parts: TreeParts,
    stranger: Option<u64>,
) -> Result<(PathPlan, PolicyTree), DocError>
    requires few { length groups.items ≤ MAX_GROUPS }
    requires in_range { AreInRange (length topology.now.capacities) (groups_of groups.items) }
    requires parts { (raw : Raw) × AreTreeParts raw parts × IsInRange raw
        × (tasks ≡ task_count raw.groups) }
    ensures made { IfOk result (λ made.
        AreFaultless (plan_fault topology.now (groups_of groups.items))
        (clusters_fault (limits_of version).tasks (clusters_of parts.spec.clusters.items))
        stranger
        × (made.0 ≡ path_groups_of (groups_of groups.items)) × IsBuiltOn topology.now made.0
        × (made.1 ≡ idle_tree parts.spec)) }
    ensures refused { IfErr result (NamesRefusal (last_refusals
        (plan_fault topology.now (groups_of groups.items))
        (clusters_fault (limits_of version).tasks (clusters_of parts.spec.clusters.items))
        stranger)) }
{
    let plan = build_plan(alloc, topology, groups)?;
    let tree = build_tree(alloc, version, tasks, parts)?;
    check_owners(stranger)?;
    Ok((plan, tree))
}

/// The document of what was gathered, or the first of the refusals 9 to 11.
pub fn finish(alloc: Global, gathered: Gathered) -> Result<Document, DocError>
    requires gathered { (raw : Raw) × IsGathered raw gathered }
    ensures exact { (raw : Raw) → IsGathered raw gathered
        → Answers result (document_of_raw raw) }
    ensures usable { IfOk result IsUsable }
{
    let Gathered {
        version,
        named,
        built,
    } = gathered;
    let Named { names, numbers } = named;
    let Built { tree, topology } = built;
    let DocumentNumbers {
        groups,
        script,
        closings,
        task_owners,
        link_owners,
    } = numbers;
    let stranger = find_not_owned(&task_owners, &link_owners, &script);
    let tasks = task_owners.len() as u64;
    match plan_and_tree(alloc, version, &topology, groups, tasks, tree, stranger) {
        Ok((plan, tree)) => Ok(Document {
            version,
            tree,
            topology,
            plan,
            script,
            closings,
            names,
            task_owners,
            link_owners,
        }),
        Err(error) => Err(error),
    }
}

/// The document of the bytes ("The document" and "Refusals", docs/FORMAT.md), or its refusal of the
/// lowest number, by the tree of their JSON value. It takes some ten times the memory of the text
/// and more, where `read_document` of `document_reader`, which has the same answer, takes less.
pub fn read_document_by_tree(alloc: Global, bytes: &[u8]) -> Result<Document, DocError>
    // The answer is the definition's, unless memory ran out.
    ensures exact { Answers result (document bytes.now) }
    // An accepted document meets the conditions of the calls that take its parts.
    ensures usable { IfOk result IsUsable }
{
    let gathered = gathered_by_tree(alloc, bytes)?;
    finish(alloc, gathered)
}
