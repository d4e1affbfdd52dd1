//! A document taken apart.

ghost use Rattle.std.specs.Prelude.{◌≡◌, ◌≤◌, [], All, IfOk, length};
ghost use Rattle.bwe_specs.specs.declared.limits.TheConstants.{MAX_REPORTS};
ghost use Rattle.bwe_specs.specs.Fit.{IsFit};
ghost use Rattle.plan_doc.specs.Conditions.{IsUsable};
ghost use Rattle.plan_doc.specs.Plans.{plan_in};

use allocator::{Allocator, after_script};
use bwe_specs::{Closing, OutOfMemory, Report};
use demand_book::Maker;
use doc_names::Names;
use plan_doc::Document;
use std::alloc::Global;

/// An allocator of a document's plan, beside the rest of the document.
#[derive(Drop)]
pub struct OpenedDocument {
    pub allocator: Allocator,
    pub script: Vec<Report>,
    pub closings: Vec<Closing>,
    pub names: Names,
    pub task_owners: Vec<u32>,
    pub link_owners: Vec<Option<u32>>,
}

/// Takes an accepted document apart. The allocator has taken in nothing yet.
pub fn open(document: Document) -> OpenedDocument
    requires { IsUsable document }
    ensures plan { ⟦<Allocator as Maker>⟧.plan result.allocator ≡ plan_in document }
    ensures first { ⟦<Allocator as Maker>⟧.absorbed result.allocator [] }
    // The reports fit a log of the plan, and each task has an owner.
    ensures few { length result.script.items ≤ MAX_REPORTS }
    ensures fit { All
        (IsFit (⟦<Allocator as Maker>⟧.plan_tasks (⟦<Allocator as Maker>⟧.plan result.allocator))
        (⟦<Allocator as Maker>⟧.plan_links (⟦<Allocator as Maker>⟧.plan result.allocator)))
        result.script.items }
    ensures owners { length result.task_owners.items
        ≡ ⟦<Allocator as Maker>⟧.plan_tasks (⟦<Allocator as Maker>⟧.plan result.allocator) }

    // The rest is the document's.
    ensures script { result.script ≡ document.script }
    ensures closings { result.closings ≡ document.closings }
    ensures names { result.names ≡ document.names }
    ensures task_owners { result.task_owners ≡ document.task_owners }
    ensures link_owners { result.link_owners ≡ document.link_owners }
{
    let Document {
        tree,
        topology,
        plan,
        script,
        closings,
        names,
        task_owners,
        link_owners,
        ..
    } = document;
    OpenedDocument {
        allocator: Allocator::new(tree, topology, plan),
        script,
        closings,
        names,
        task_owners,
        link_owners,
    }
}

/// Takes an accepted document apart. The allocator has taken in the document's script.
pub fn open_after_script(alloc: Global, document: Document) -> Result<OpenedDocument, OutOfMemory>
    requires { IsUsable document }
    ensures plan { IfOk result (λ opened.
        ⟦<Allocator as Maker>⟧.plan opened.allocator ≡ plan_in document) }
    ensures absorbed { IfOk result (λ opened.
        ⟦<Allocator as Maker>⟧.absorbed opened.allocator document.script.items) }

    // The rest is the document's.
    ensures script { IfOk result (λ opened. opened.script ≡ document.script) }
    ensures closings { IfOk result (λ opened. opened.closings ≡ document.closings) }
    ensures names { IfOk result (λ opened. opened.names ≡ document.names) }
    ensures task_owners { IfOk result (λ opened. opened.task_owners ≡ document.task_owners) }
    ensures link_owners { IfOk result (λ opened. opened.link_owners ≡ document.link_owners) }
{
    let OpenedDocument {
        allocator,
        script,
        closings,
        names,
        task_owners,
        link_owners,
    } = open(document);
    let allocator = after_script(alloc, allocator, &script)?;
    Ok(OpenedDocument {
        allocator,
        script,
        closings,
        names,
        task_owners,
        link_owners,
    })
}
