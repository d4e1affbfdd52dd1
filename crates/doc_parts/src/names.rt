//! The names of a document, and its links as they are given to the topology.

ghost use Rattle.std.specs.Prelude.{◌≡◌, map, IfOk};
ghost use Rattle.raw_document.specs.Raw.{link_view, raw_view};
ghost use Rattle.raw_document.specs.Reading.{Gives};
ghost use Rattle.wan_topology.specs.Held.{link_of, links_of};
ghost use Rattle.doc_names.specs.NameTexts.{texts_of};
ghost use Rattle.doc_parts.specs.Links.{link_part};
ghost use Rattle.doc_passes.specs.Names.{name_lists};
ghost use Rattle.doc_parts.specs.Tables.{tables_view};

use doc_names::Names;
use doc_passes::{NameTable, fill_tables};
use raw_document::{Fault, RawDocument, RawLink};
use std::alloc::{AllocError, Global};
use wan_topology::LinkSpec;

/// The names of a document, in their tables.
#[derive(Drop)]
pub struct Tables<'a> {
    pub links: NameTable<'a>,
    pub groups: NameTable<'a>,
    pub tasks: NameTable<'a>,
    pub reporters: NameTable<'a>,
}

impl<'a> Tables<'a> {
    ghost use Rattle.doc_parts.specs.Tables.{AreEmpty};

    /// Tables without a name.
    pub fn new(alloc: Global) -> Tables<'a>
        ensures { AreEmpty result }
    {
        Tables {
            links: NameTable::new(alloc),
            groups: NameTable::new(alloc),
            tasks: NameTable::new(alloc),
            reporters: NameTable::new(alloc),
        }
    }

    /// Takes in the names of the document, up to the first name that stood before.
    pub fn fill(&mut self, alloc: Global, raw: &RawDocument<'a>) -> Result<(), Fault>
        requires empty { AreEmpty self.old }
        ensures { Gives (λ _. tables_view self.new) result (name_lists (raw_view raw.now)) }
    {
        fill_tables(
            alloc,
            raw,
            &mut self.links,
            &mut self.groups,
            &mut self.tasks,
            &mut self.reporters,
        )
    }
}

/// The names that the tables hold.
pub fn names_of(alloc: Global, tables: &Tables) -> Result<Names, AllocError>
    ensures { IfOk result (λ names. texts_of names ≡ tables_view tables.now) }
{
    Ok(Names {
        links: tables.links.copies(alloc)?,
        groups: tables.groups.copies(alloc)?,
        tasks: tables.tasks.copies(alloc)?,
        reporters: tables.reporters.copies(alloc)?,
    })
}

fn link_spec(alloc: Global, link: &RawLink) -> Result<LinkSpec, AllocError>
    ensures { IfOk result (λ spec. link_of spec ≡ link_part (link_view link.now)) }
{
    let name = String::from_str(alloc, link.name)?;
    let from = String::from_str(alloc, link.from)?;
    let to = String::from_str(alloc, link.to)?;
    Ok(LinkSpec {
        name,
        from,
        to,
        capacity: link.capacity,
    })
}

/// The links as they are given to the topology.
pub fn link_specs(alloc: Global, links: &[RawLink]) -> Result<Vec<LinkSpec>, AllocError>
    ensures { IfOk result
        (λ specs. links_of specs.items ≡ map link_part (map link_view links.now)) }
{
    let mut specs = Vec::with_capacity(alloc, links.len())?;
    for link in links {
        specs.push(link_spec(alloc, link)?)?;
    }
    Ok(specs)
}
