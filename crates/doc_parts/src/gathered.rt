//! What is gathered of a document while its raw form stands: names and numbers, clusters and
//! topology. The refusals up to 8 are found here.
//!
//! A raw document is lent by its text, and owns a vector for each list. It is let go once all is
//! gathered, and the tables of names before that.

ghost use Rattle.std.specs.Prelude.{◌≡◌, ◌≤◌, None, Ok, map, IfOk, IfSome};
ghost use Rattle.std.specs.Thread.{IsSync};
ghost use Rattle.serde_json.specs.View.{view};
ghost use Rattle.wan_topology.specs.Network.{network_of};
ghost use Rattle.wan_topology.specs.Faults.{topology_fault};
ghost use Rattle.tree_spec.specs.Asked.{idle_cluster};
ghost use Rattle.raw_document.specs.Reading.{Gives, each_view};
ghost use Rattle.raw_document.specs.Raw.{link_view, group_view, raw_view};
ghost use Rattle.doc_parts.specs.Document.{document, document_of_value, document_of_raw, document_named, document_numbered, links_of, network_fault, over_limit};
ghost use Rattle.cluster_parts.specs.Functions.{refused_in_groups};
ghost use Rattle.cluster_parts.specs.TreeParts.{cluster_part};
ghost use Rattle.doc_parts.specs.Links.{link_part};
ghost use Rattle.doc_parts.specs.TooMany.{links_fault};
ghost use Rattle.doc_refusals.specs.Refusals.{out_of_range, refused_function, refused_links};
ghost use Rattle.doc_parts.specs.Passing.{Makes, PassesBy};
ghost use Rattle.doc_parts.specs.Tables.{AreEmpty, tables_view};
ghost use Rattle.doc_parts.specs.Gathering.{LeavesNames, BuildsParts, AreTreeParts, Gathers};
ghost use Rattle.doc_names.specs.NameTexts.{texts_of};
ghost use Rattle.doc_passes.specs.Names.{name_lists};
ghost use Rattle.doc_passes.specs.Numbers.{numbers};
ghost use Rattle.doc_passes.specs.NumbersView.{numbers_view};
ghost use Rattle.doc_passes.specs.Limits.{overrun};
ghost use Rattle.doc_passes.specs.Ranges.{ranges};

use crate::names::{Tables, link_specs, names_of};
use crate::nodes::has_node_numbers;
use bwe_specs::{DocumentLimits, MAX_SHARE};
use cluster_parts::{cluster_specs, has_childless};
use doc_names::Names;
use doc_passes::{DocumentNumbers, check_ranges, document_numbers, find_overrun};
use doc_refusals::DocError;
use raw_document::{RawDocument, RawGroup, RawLink};
use raw_shape::{JsonError, read_json, read_shape};
use serde_json::Value;
use std::alloc::Global;
use tree_spec::{ClusterSpec, TreeSpec};
use wan_topology::{Topology, TopologyError, TopologyFault};

/// What the refusals 4 to 6 leave of a document: its names, and the numbers that stand for them.
#[derive(Drop)]
pub struct Named {
    pub names: Names,
    pub numbers: DocumentNumbers,
}

/// What a tree is made of, and what is asked of its groups before it is made: whether a node has no
/// child, and whether the nodes have numbers of 32 bits.
#[derive(Drop)]
pub struct TreeParts {
    pub spec: TreeSpec,
    pub childless: bool,
    pub numbered: bool,
}

/// What the refusals 7 and 8 leave of a document: its functions, in the clusters of its tree, and
/// its links.
#[derive(Drop)]
pub struct Built {
    pub tree: TreeParts,
    pub topology: Topology,
}

/// All that is needed of a document once its raw form is let go.
#[derive(Drop)]
pub struct Gathered {
    pub version: u64,
    pub named: Named,
    pub built: Built,
}

/// Nothing, or refusal 3.
pub fn check_counts(raw: &RawDocument) -> Result<(), DocError>
    ensures { Makes result over_limit (overrun (raw_view raw.now)) (λ _. Unit) }
{
    match find_overrun(raw) {
        Ok(None) => Ok(()),
        Ok(Some(overrun)) => Err(DocError::Limit {
            what: overrun.what,
            count: overrun.count,
        }),
        Err(_) => Err(DocError::OutOfMemory),
    }
}

/// Nothing, or refusal 4.
pub fn check_each_range(alloc: Global, raw: &RawDocument) -> Result<(), DocError>
    ensures { PassesBy out_of_range (ranges (raw_view raw.now)) result }
{
    match check_ranges(alloc, raw) {
        Ok(()) => Ok(()),
        Err(fault) => Err(DocError::range(fault)),
    }
}

// The names in the tables and the numbers, or refusal 6.
fn names_in_tables(alloc: Global, raw: &RawDocument, tables: &Tables) -> Result<Named, DocError>
    requires few { overrun (raw_view raw.now) ≡ None }
    requires range { ranges (raw_view raw.now) ≡ Ok tt }
    requires names { name_lists (raw_view raw.now) ≡ Ok (tables_view tables.now) }
    ensures { LeavesNames (raw_view raw.now) result
        (document_numbered (raw_view raw.now) (tables_view tables.now)) }
{
    let numbers = match document_numbers(
        alloc,
        raw,
        &tables.links,
        &tables.tasks,
        &tables.reporters,
    ) {
        Ok(numbers) => numbers,
        Err(fault) => return Err(DocError::unknown_name(fault)),
    };
    match names_of(alloc, tables) {
        Ok(names) => Ok(Named { names, numbers }),
        Err(_) => Err(DocError::OutOfMemory),
    }
}

// Names and numbers, or the first of the refusals 5 and 6. The names are put into these tables.
fn names_by_tables<'a>(
    alloc: Global,
    raw: &RawDocument<'a>,
    tables: &mut Tables<'a>,
) -> Result<Named, DocError>
    requires few { overrun (raw_view raw.now) ≡ None }
    requires range { ranges (raw_view raw.now) ≡ Ok tt }
    requires empty { AreEmpty tables.old }
    ensures { LeavesNames (raw_view raw.now) result (document_named (raw_view raw.now)) }
{
    match tables.fill(alloc, raw) {
        Ok(()) => names_in_tables(alloc, raw, tables),
        Err(fault) => Err(DocError::repeated_name(fault)),
    }
}

// The same. The tables are let go before it answers.
fn names_in_range(alloc: Global, raw: &RawDocument) -> Result<Named, DocError>
    requires few { overrun (raw_view raw.now) ≡ None }
    requires range { ranges (raw_view raw.now) ≡ Ok tt }
    ensures { LeavesNames (raw_view raw.now) result (document_named (raw_view raw.now)) }
{
    let mut tables = Tables::new(alloc);
    names_by_tables(alloc, raw, &mut tables)
}

/// Names and numbers, or the first of the refusals 4 to 6.
#[tactic(auto, unfolding(crate::specs::Document::document_of_raw))]
pub fn read_names(alloc: Global, raw: &RawDocument) -> Result<Named, DocError>
    requires few { overrun (raw_view raw.now) ≡ None }
    ensures { LeavesNames (raw_view raw.now) result (document_of_raw (raw_view raw.now)) }
{
    check_each_range(alloc, raw)?;
    names_in_range(alloc, raw)
}

fn build_clusters(
    alloc: Global,
    groups: &[RawGroup],
    top: u64,
) -> Result<Vec<ClusterSpec>, DocError>
    requires some_top { 1 ≤ top }
    requires top { top ≤ MAX_SHARE }
    ensures { Makes result refused_function (refused_in_groups top (map group_view groups.now))
        (λ clusters. each_view idle_cluster clusters
        ≡ map (cluster_part top) (map group_view groups.now)) }
{
    match cluster_specs(alloc, groups, top) {
        Ok(clusters) => Ok(clusters),
        Err(error) => Err(DocError::function(error)),
    }
}

fn topology_of(alloc: Global, links: &[RawLink]) -> Result<Topology, DocError>
    ensures { Makes result refused_links (topology_fault (map link_part (map link_view links.now)))
        (λ topology. topology ≡ network_of (map link_part (map link_view links.now))) }
{
    let specs = match link_specs(alloc, links) {
        Ok(specs) => specs,
        Err(_) => return Err(DocError::OutOfMemory),
    };
    match Topology::build(alloc, specs) {
        Ok(topology) => Ok(topology),
        Err(TopologyError::Refused { fault }) => Err(DocError::Topology { cause: fault }),
        Err(TopologyError::OutOfMemory) => Err(DocError::OutOfMemory),
    }
}

// The topology of at most so many links. More are refused before anything is made of them.
fn topology_within(alloc: Global, most: u64, links: &[RawLink]) -> Result<Topology, DocError>
    ensures { Makes result refused_links
        (links_fault most (map link_part (map link_view links.now)))
        (λ topology. topology ≡ network_of (map link_part (map link_view links.now))) }
{
    let count = links.len() as u64;
    if count > most {
        return Err(DocError::Topology {
            cause: TopologyFault::TooManyLinks { count },
        });
    }
    topology_of(alloc, links)
}

fn build_topology(alloc: Global, raw: &RawDocument) -> Result<Topology, DocError>
    ensures { Makes result refused_links (network_fault (raw_view raw.now))
        (λ topology. topology ≡ network_of (links_of (raw_view raw.now))) }
{
    topology_within(alloc, DocumentLimits::of(raw.version).links, &raw.links)
}

// What a tree of these clusters is made of.
fn tree_parts(raw: &RawDocument, clusters: Vec<ClusterSpec>) -> TreeParts
    requires clusters { each_view idle_cluster clusters
        ≡ map (cluster_part raw.now.top) (raw_view raw.now).groups }
    ensures { AreTreeParts (raw_view raw.now) result }
{
    TreeParts {
        spec: TreeSpec {
            top: raw.top,
            clusters,
        },
        childless: has_childless(&raw.groups),
        numbered: has_node_numbers(&raw.groups),
    }
}

/// Clusters and topology, or the first of the refusals 7 and 8.
pub fn build_parts(alloc: Global, raw: &RawDocument) -> Result<Built, DocError>
    requires some_top { 1 ≤ raw.now.top }
    requires top { raw.now.top ≤ MAX_SHARE }
    ensures { BuildsParts (raw_view raw.now) result }
{
    let clusters = build_clusters(alloc, &raw.groups, raw.top)?;
    let topology = build_topology(alloc, raw)?;
    Ok(Built {
        tree: tree_parts(raw, clusters),
        topology,
    })
}

/// What is gathered of the raw document, or the first of the refusals 3 to 8.
#[tactic(auto, unfolding(crate::specs::Document::document_of_raw))]
pub fn gather(alloc: Global, raw: &RawDocument) -> Result<Gathered, DocError>
    ensures { Gathers result (document_of_raw (raw_view raw.now)) }
{
    check_counts(raw)?;
    let named = read_names(alloc, raw)?;
    let built = build_parts(alloc, raw)?;
    Ok(Gathered {
        version: raw.version,
        named,
        built,
    })
}

// What is gathered of the JSON value, or the first of the refusals 2 to 8.
#[tactic(auto, unfolding(crate::specs::Document::document_of_value))]
fn gathered_from_value(alloc: Global, value: &Value) -> Result<Gathered, DocError>
    ensures { Gathers result (document_of_value (view value.now)) }
{
    match read_shape(alloc, value) {
        Ok(raw) => gather(alloc, &raw),
        Err(fault) => Err(DocError::shape(fault)),
    }
}

/// What is gathered of the bytes by the tree of their JSON value, or the first of the refusals 1 to
/// 8. The tree is let go before it answers.
#[tactic(auto, unfolding(crate::specs::Document::document))]
pub fn gathered_by_tree(alloc: Global, bytes: &[u8]) -> Result<Gathered, DocError>
    ensures { Gathers result (document bytes.now) }
{
    match read_json(alloc, bytes) {
        Ok(value) => gathered_from_value(alloc, &value),
        Err(JsonError::NotJson) => Err(DocError::NotJson),
        Err(JsonError::OutOfMemory) => Err(DocError::OutOfMemory),
    }
}
