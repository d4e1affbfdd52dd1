//! The command `levels`.

ghost use Rattle.std.specs.Prelude.{◌≡◌, ◌≤◌, ℕ, IfOk};
ghost use Rattle.bwe_specs.specs.Reports.{demand_after};
ghost use Rattle.parallel_values.specs.Levels.{levels_in};
ghost use Rattle.plan_doc.specs.Conditions.{IsUsable};
ghost use Rattle.policy_tree.specs.Trees.{demand_in};
ghost use Rattle.doc_names.specs.NameTexts.{texts_of};
ghost use Rattle.solve_reply.specs.Refused.{document_reply};
ghost use Rattle.line_answers.specs.Replies.{levels_accepted, levels_reply, values_reply};

use bwe_specs::OutOfMemory;
use doc_names::Names;
use document_reader::{read_document, read_document_on_threads};
use one_run::Answer;
use opened_document::{OpenedDocument, open_after_script};
use parallel_values::{values_at, values_in_turn};
use plan_doc::Document;
use policy_tree::PolicyTree;
use reply_text::levels_text;
use solve_reply::refused;
use std::alloc::Global;
use std::mem::forget;
use std::thread::Threads;

/// The answer to its input, of values that are asked of one group after the other.
pub fn levels(alloc: Global, share: u64, input: &[u8]) -> Result<Answer, OutOfMemory>
    ensures { IfOk result (λ answer. answer ≡ document_reply (levels_accepted share) input.now) }
{
    match read_document(alloc, input) {
        Ok(document) => document_levels(alloc, share, document),
        Err(error) => refused(alloc, &error),
    }
}

// What each group may have at the share after the document's script.
fn document_levels(alloc: Global, share: u64, document: Document) -> Result<Answer, OutOfMemory>
    requires { IsUsable document }
    ensures { IfOk result (λ answer. answer
        ≡ levels_reply share (texts_of document.names) document.tree.top
        (demand_after document.script.items) document.tree.clusters) }
{
    let opened = open_after_script(alloc, document)?;
    opened_levels(alloc, share, opened)
}

// What each group may have at the share under the demands of the allocator's tree.
fn opened_levels(alloc: Global, share: u64, opened: OpenedDocument) -> Result<Answer, OutOfMemory>
    ensures { IfOk result (λ answer. answer
        ≡ levels_reply share (texts_of opened.names) opened.allocator.reported.tree.top
        (demand_in opened.allocator.reported.tree)
        opened.allocator.reported.tree.clusters) }
{
    let (tree, names) = matched_tree(opened);
    let share = share.min(tree.top());
    let values = values_in_turn(alloc, &tree, share)?;
    levels_answer(alloc, &tree, share, &values, &names)
}

/// The same answer, read and worked out on threads.
pub fn levels_on_threads<R: Threads + Sync>(
    rt: &R,
    alloc: Global,
    share: u64,
    input: &[u8],
) -> Result<Answer, OutOfMemory>
    ensures { IfOk result (λ answer. answer ≡ document_reply (levels_accepted share) input.now) }
{
    match read_document_on_threads(rt, alloc, input) {
        Ok(document) => document_levels_on_threads(rt, alloc, share, document),
        Err(error) => refused(alloc, &error),
    }
}

// The answer of `levels`, of values that are worked out on threads.
fn document_levels_on_threads<R: Threads + Sync>(
    rt: &R,
    alloc: Global,
    share: u64,
    document: Document,
) -> Result<Answer, OutOfMemory>
    requires { IsUsable document }
    ensures { IfOk result (λ answer. answer
        ≡ levels_reply share (texts_of document.names) document.tree.top
        (demand_after document.script.items) document.tree.clusters) }
{
    let opened = open_after_script(alloc, document)?;
    opened_levels_on_threads(rt, alloc, share, opened)
}

// The same, by `values_at`. The tree is left to the end of the program.
fn opened_levels_on_threads<R: Threads + Sync>(
    rt: &R,
    alloc: Global,
    share: u64,
    opened: OpenedDocument,
) -> Result<Answer, OutOfMemory>
    ensures { IfOk result (λ answer. answer
        ≡ levels_reply share (texts_of opened.names) opened.allocator.reported.tree.top
        (demand_in opened.allocator.reported.tree)
        opened.allocator.reported.tree.clusters) }
{
    let (tree, names) = matched_tree(opened);
    let share = share.min(tree.top());
    let values = values_at(rt, alloc, &tree, share)?;
    let answer = levels_answer(alloc, &tree, share, &values, &names);
    forget((tree, names));
    answer
}

// The tree under the demands of the script, with cheap values, and the names.
fn matched_tree(opened: OpenedDocument) -> (PolicyTree, Names)
    ensures tree { result.0 ≡ opened.allocator.reported.tree }
    ensures names { result.1 ≡ opened.names }
{
    let OpenedDocument {
        allocator,
        names,
        ..
    } = opened;
    let (mut tree, _topology, _plan) = allocator.into_parts();
    tree.refresh();
    (tree, names)
}

// The text of the values of a tree's groups at a share.
fn levels_answer(
    alloc: Global,
    tree: &PolicyTree,
    share: u64,
    values: &[u64],
    names: &Names,
) -> Result<Answer, OutOfMemory>
    requires share { share ≤ tree.now.top }
    requires values { values.now ≡ levels_in tree.now share }
    ensures { IfOk result (λ answer. answer
        ≡ values_reply (texts_of names.now) share (levels_in tree.now share)) }
{
    tree.what_holds();
    Ok(Answer {
        status: 0,
        text: levels_text(alloc, share, values, names)?,
    })
}
