//! What is gathered of a document straight from its tokens, by one thread or by several.
//!
//! The reader's scratch is let go as soon as a text was read in stretches.

ghost use Rattle.std.specs.Prelude.{◌≡◌, ◌≤◌, None, Ok, map, IfOk, IfSome};
ghost use Rattle.std.specs.Thread.{IsSync};
ghost use Rattle.serde_json.specs.View.{view};
ghost use Rattle.wan_topology.specs.Network.{network_of};
ghost use Rattle.wan_topology.specs.Faults.{topology_fault};
ghost use Rattle.policy_tree.specs.Asked.{idle_cluster};
ghost use Rattle.raw_document.specs.Reading.{Gives, each_view};
ghost use Rattle.raw_document.specs.Raw.{link_view, group_view, raw_view};
ghost use Rattle.doc_parts.specs.Document.{document, document_of_value, document_of_raw, document_named, document_numbered, links_of, network_fault, over_limit};
ghost use Rattle.cluster_parts.specs.Functions.{refused_in_groups};
ghost use Rattle.cluster_parts.specs.TreeParts.{cluster_part};
ghost use Rattle.doc_parts.specs.Links.{link_part};
ghost use Rattle.doc_parts.specs.TooMany.{links_fault};
ghost use Rattle.doc_refusals.specs.Refusals.{out_of_range, refused_function, refused_links};
ghost use Rattle.doc_parts.specs.Passing.{Makes, PassesBy};
ghost use Rattle.doc_parts.specs.Tables.{AreEmpty, tables_view};
ghost use Rattle.doc_parts.specs.Gathering.{LeavesNames, BuildsParts, AreTreeParts, Gathers};
ghost use Rattle.doc_names.specs.NameTexts.{texts_of};
ghost use Rattle.doc_passes.specs.Names.{name_lists};
ghost use Rattle.doc_passes.specs.Numbers.{numbers};
ghost use Rattle.doc_passes.specs.NumbersView.{numbers_view};
ghost use Rattle.doc_passes.specs.Limits.{overrun};
ghost use Rattle.doc_passes.specs.Ranges.{ranges};

use crate::refusal::long_shape_refusal;
use apart::join_apart;
use bwe_specs::MAX_SHARE;
use doc_names::Names;
use doc_passes::DocumentNumbers;
use json::Scratch;
use plan_doc::{
    Built, DocError, Gathered, Named, Tables, build_parts, check_counts, check_each_range, gather,
    names_of, read_names,
};
use raw_document::{Fault, RawDocument};
use raw_reader::{read_straight, read_straight_on_threads, scratches_of};
use std::alloc::{AllocError, Global};
use std::thread::Threads;
use threaded_passes::document_numbers_on_threads;

// A document with so many groups or reports has its names read on threads.
const MANY_GROUPS: usize = 256;

const MANY_REPORTS: usize = 2_048;

// The numbers beside the copies of the names in the tables, each in a thread of its own. Both end
// before it answers.
fn numbers_beside_names<R: Threads + Sync>(
    rt: &R,
    alloc: Global,
    raw: &RawDocument,
    tables: &Tables,
) -> (Result<DocumentNumbers, Fault>, Result<Names, AllocError>)
    ensures numbers { Gives numbers_view result.0
        (numbers tables.now.links tables.now.tasks tables.now.reporters (raw_view raw.now)) }
    ensures names { IfOk result.1 (λ names. texts_of names ≡ tables_view tables.now) }
{
    // a copy for each closure
    let theirs = alloc;
    let copied = move || -> Result<Names, AllocError>
        ensures { IfOk result (λ names. texts_of names ≡ tables_view tables.entry.now) }
    { names_of(theirs, tables) };
    let numbered = move || -> Result<DocumentNumbers, Fault>
        requires { IsSync R.row }
        ensures { Gives numbers_view result (numbers tables.entry.now.links tables.entry.now.tasks
            tables.entry.now.reporters (raw_view raw.entry.now)) }
    {
        document_numbers_on_threads(
            rt,
            alloc,
            raw,
            &tables.links,
            &tables.tasks,
            &tables.reporters,
        )
    };
    join_apart(rt, numbered, copied)
}

// The names in the tables and the numbers, or refusal 6, of a document whose ranges are looked at
// beside.
fn names_in_tables_on_threads<R: Threads + Sync>(
    rt: &R,
    alloc: Global,
    raw: &RawDocument,
    tables: &Tables,
) -> Result<Named, DocError>
    requires few { overrun (raw_view raw.now) ≡ None }
    requires names { name_lists (raw_view raw.now) ≡ Ok (tables_view tables.now) }
    ensures { ranges (raw_view raw.now) ≡ Ok tt → LeavesNames (raw_view raw.now) result
        (document_numbered (raw_view raw.now) (tables_view tables.now)) }
{
    let (numbers, names) = numbers_beside_names(rt, alloc, raw, tables);
    let numbers = match numbers {
        Ok(numbers) => numbers,
        Err(fault) => return Err(DocError::unknown_name(fault)),
    };
    match names {
        Ok(names) => Ok(Named { names, numbers }),
        Err(_) => Err(DocError::OutOfMemory),
    }
}

// Names and numbers, or the first of the refusals 5 and 6, of a document whose ranges are looked
// at beside. The names are put into these tables.
fn names_by_tables_on_threads<'a, R: Threads + Sync>(
    rt: &R,
    alloc: Global,
    raw: &RawDocument<'a>,
    tables: &mut Tables<'a>,
) -> Result<Named, DocError>
    requires few { overrun (raw_view raw.now) ≡ None }
    requires empty { AreEmpty tables.old }
    ensures { ranges (raw_view raw.now) ≡ Ok tt
        → LeavesNames (raw_view raw.now) result (document_named (raw_view raw.now)) }
{
    match tables.fill(alloc, raw) {
        Ok(()) => names_in_tables_on_threads(rt, alloc, raw, tables),
        Err(fault) => Err(DocError::repeated_name(fault)),
    }
}

// The same. The tables are let go before it answers.
fn names_on_threads<R: Threads + Sync>(
    rt: &R,
    alloc: Global,
    raw: &RawDocument,
) -> Result<Named, DocError>
    requires few { overrun (raw_view raw.now) ≡ None }
    ensures { ranges (raw_view raw.now) ≡ Ok tt
        → LeavesNames (raw_view raw.now) result (document_named (raw_view raw.now)) }
{
    let mut tables = Tables::new(alloc);
    names_by_tables_on_threads(rt, alloc, raw, &mut tables)
}

// The ranges beside the names, each in a thread of its own. Both end before it answers.
fn ranges_beside_names<R: Threads + Sync>(
    rt: &R,
    alloc: Global,
    raw: &RawDocument,
) -> (Result<(), DocError>, Result<Named, DocError>)
    requires few { overrun (raw_view raw.now) ≡ None }
    ensures range { PassesBy out_of_range (ranges (raw_view raw.now)) result.0 }
    ensures names { ranges (raw_view raw.now) ≡ Ok tt
        → LeavesNames (raw_view raw.now) result.1 (document_named (raw_view raw.now)) }
{
    // a copy for each closure
    let theirs = alloc;
    let range = move || -> Result<(), DocError>
        ensures { PassesBy out_of_range (ranges (raw_view raw.entry.now)) result }
    { check_each_range(theirs, raw) };
    let names = move || -> Result<Named, DocError>
        requires { IsSync R.row × (overrun (raw_view raw.now) ≡ None) }
        ensures { ranges (raw_view raw.entry.now) ≡ Ok tt
            → LeavesNames (raw_view raw.entry.now) result (document_named (raw_view raw.entry.now)) }
    { names_on_threads(rt, alloc, raw) };
    join_apart(rt, range, names)
}

// Names and numbers, or the first of the refusals 4 to 6. Threads take longer to start than a short
// document takes to be read.
#[tactic(auto, unfolding(doc_parts::specs::Document::document_of_raw))]
fn read_names_on_threads<R: Threads + Sync>(
    rt: &R,
    alloc: Global,
    raw: &RawDocument,
) -> Result<Named, DocError>
    requires few { overrun (raw_view raw.now) ≡ None }
    ensures { LeavesNames (raw_view raw.now) result (document_of_raw (raw_view raw.now)) }
{
    if raw.groups.len() < MANY_GROUPS && raw.script.len() < MANY_REPORTS {
        return read_names(alloc, raw);
    }
    let (range, named) = ranges_beside_names(rt, alloc, raw);
    range?;
    named
}

// The two halves of the gathering, each in a thread of its own. Both end before it answers, also
// where one is refused.
fn halves<R: Threads + Sync>(
    rt: &R,
    alloc: Global,
    raw: &RawDocument,
) -> (Result<Named, DocError>, Result<Built, DocError>)
    requires few { overrun (raw_view raw.now) ≡ None }
    requires some_top { 1 ≤ raw.now.top }
    requires top { raw.now.top ≤ MAX_SHARE }
    ensures names { LeavesNames (raw_view raw.now) result.0 (document_of_raw (raw_view raw.now)) }
    ensures parts { BuildsParts (raw_view raw.now) result.1 }
{
    // a copy for each closure
    let theirs = alloc;
    let names = move || -> Result<Named, DocError>
        requires { IsSync R.row × (overrun (raw_view raw.now) ≡ None) }
        ensures { LeavesNames (raw_view raw.entry.now) result
            (document_of_raw (raw_view raw.entry.now)) }
    { read_names_on_threads(rt, alloc, raw) };
    let parts = move || -> Result<Built, DocError>
        requires { (1 ≤ raw.now.top) × (raw.now.top ≤ MAX_SHARE) }
        ensures { BuildsParts (raw_view raw.entry.now) result }
    { build_parts(theirs, raw) };
    join_apart(rt, names, parts)
}

// What both halves gathered, or the first refusal. Those of the names have the lower numbers.
fn together(
    raw: &RawDocument,
    named: Result<Named, DocError>,
    built: Result<Built, DocError>,
) -> Result<Gathered, DocError>
    requires names { LeavesNames (raw_view raw.now) named (document_of_raw (raw_view raw.now)) }
    requires parts { BuildsParts (raw_view raw.now) built }
    ensures { Gathers result (document_of_raw (raw_view raw.now)) }
{
    let named = named?;
    let built = built?;
    Ok(Gathered {
        version: raw.version,
        named,
        built,
    })
}

// The same on two threads. Where the top is out of its range one thread does it: clusters are built
// only of a top in its range, and the ranges are looked at beside.
#[tactic(auto, unfolding(doc_parts::specs::Document::document_of_raw))]
fn gather_on_threads<R: Threads + Sync>(
    rt: &R,
    alloc: Global,
    raw: &RawDocument,
) -> Result<Gathered, DocError>
    ensures { Gathers result (document_of_raw (raw_view raw.now)) }
{
    if raw.top < 1 || MAX_SHARE < raw.top {
        return gather(alloc, raw);
    }
    check_counts(raw)?;
    let (named, built) = halves(rt, alloc, raw);
    together(raw, named, built)
}

/// The same straight from the tokens, where they have the shape of a document. What was read is let
/// go before it answers.
pub fn gathered_by_tokens(alloc: Global, bytes: &[u8]) -> Option<Result<Gathered, DocError>>
    ensures { IfSome result (λ found. Gathers found (document bytes.now)) }
{
    let mut scratch = Scratch::new(alloc);
    let raw = read_straight(alloc, bytes, &mut scratch)?;
    Some(gather(alloc, &raw))
}

// The same of a long text, which is read in stretches on threads.
fn gathered_in_stretches<R: Threads + Sync>(
    rt: &R,
    alloc: Global,
    bytes: &[u8],
) -> Option<Result<Gathered, DocError>>
    ensures { IfSome result (λ found. Gathers found (document bytes.now)) }
{
    let mut scratches = scratches_of(alloc).ok()?;
    let raw = read_straight_on_threads(rt, alloc, bytes, scratches.as_mut_slice())?;
    drop(scratches);
    Some(gather_on_threads(rt, alloc, &raw))
}

// The same of a text that is read as a whole, by one thread.
fn gathered_as_a_whole<R: Threads + Sync>(
    rt: &R,
    alloc: Global,
    bytes: &[u8],
) -> Option<Result<Gathered, DocError>>
    ensures { IfSome result (λ found. Gathers found (document bytes.now)) }
{
    let mut scratch = Scratch::new(alloc);
    let raw = read_straight(alloc, bytes, &mut scratch)?;
    Some(gather_on_threads(rt, alloc, &raw))
}

/// The same on threads: a long text is read in stretches, and then one thread looks at ranges and
/// names, and another builds clusters and topology.
///
/// Reading a text as a whole takes as much memory as it has bytes beside what is read of it, so the
/// first fault of a very long one, whose stretches were not read, is looked for before.
pub fn gathered_on_threads<R: Threads + Sync>(
    rt: &R,
    alloc: Global,
    bytes: &[u8],
) -> Option<Result<Gathered, DocError>>
    ensures { IfSome result (λ found. Gathers found (document bytes.now)) }
{
    if let Some(found) = gathered_in_stretches(rt, alloc, bytes) {
        return Some(found);
    }
    if let Some(error) = long_shape_refusal(alloc, bytes) {
        return Some(Err(error));
    }
    gathered_as_a_whole(rt, alloc, bytes)
}
