//! The document with numbers in place of the names that refer to others.

ghost use Rattle.std.specs.Prelude.{map};
ghost use Rattle.raw_document.specs.Reading.{Gives, under, each};
ghost use Rattle.raw_document.specs.Raw as raw;
ghost use Rattle.bwe_specs.specs.declared.network.Closing.{Closing};
ghost use Rattle.raw_document.specs.Raw.{link_view, closing_view, raw_view};
ghost use Rattle.raw_document.specs.declared.key.DocKey.TheVariants as keys;
ghost use Rattle.raw_document.specs.declared.doc_path.PathStep.TheVariants.{Key};
ghost use Rattle.doc_passes.specs.Numbers as spec;
ghost use Rattle.doc_passes.specs.NumbersView.{numbers_view};

use crate::groups::{GroupNumbers, group_numbers};
use crate::name_table::NameTable;
use crate::numbered::{Numbered, each_numbers, number_in_member};
use crate::script::script_numbers;
use bwe_specs::{Closing, GroupSpec, Report};
use raw_document::{DocKey, Fault, PathStep, RawClosing, RawDocument, RawLink, under};
use std::alloc::Global;

/// What the document says of numbers: the groups over the links, the script, the closings, and who
/// owns what.
#[derive(Drop)]
pub struct DocumentNumbers {
    pub link_owners: Vec<Option<u32>>,
    pub groups: Vec<GroupSpec>,
    pub task_owners: Vec<u32>,
    pub script: Vec<Report>,
    pub closings: Vec<Closing>,
}

impl<'a> Numbered for RawLink<'a> {
    type Numbers = Option<u32>;

    ghost use Rattle.std.specs.Prelude.{ℕ, Option};

    ghost Shown = { raw.Link };

    ghost shown = { link_view };

    ghost Told = { Option ℕ };

    ghost told = { λ owner. owner };

    ghost in_numbers = { spec.link_owner };

    // The number of its owner.
    fn numbers(&self, alloc: Global, table: &NameTable) -> Result<Option<u32>, Fault> {
        match self.owner {
            Some(name) => {
                let owner = number_in_member(alloc, DocKey::Owner, table, name)?;
                Ok(Some(owner))
            }
            None => Ok(None),
        }
    }
}

impl<'a> Numbered for RawClosing<'a> {
    type Numbers = Closing;

    ghost Shown = { raw.Closing };

    ghost shown = { closing_view };

    ghost Told = { Closing };

    ghost told = { λ closing. closing };

    ghost in_numbers = { spec.closing_numbers };

    #[tactic(auto, unfolding(crate::specs::Numbers::closing_numbers))]
    fn numbers(&self, alloc: Global, table: &NameTable) -> Result<Closing, Fault> {
        let link = number_in_member(alloc, DocKey::Link, table, self.link)?;
        Ok(Closing {
            link,
            share: self.share,
        })
    }
}

/// The owner of each link, where it has one, or the first unknown name.
pub fn link_owners(
    alloc: Global,
    links: &[RawLink],
    reporters: &NameTable,
) -> Result<Vec<Option<u32>>, Fault>
    ensures { Gives (λ owners. owners.items) result
        (under (Key keys.Links)
        (each (spec.link_owner reporters.now) 0 (map link_view links.now))) }
{
    under(
        PathStep::Key {
            name: DocKey::Links,
        },
        each_numbers(alloc, links, reporters),
    )
}

/// The closings by the numbers of their links, or the first unknown name.
pub fn closings_numbers(
    alloc: Global,
    closings: &[RawClosing],
    links: &NameTable,
) -> Result<Vec<Closing>, Fault>
    ensures { Gives (λ closings. closings.items) result
        (under (Key keys.Closings)
        (each (spec.closing_numbers links.now) 0 (map closing_view closings.now))) }
{
    under(
        PathStep::Key {
            name: DocKey::Closings,
        },
        each_numbers(alloc, closings, links),
    )
}

/// The document with each name that refers to another replaced by its number, or the path of the
/// first unknown name.
#[tactic(auto, unfolding(crate::specs::Numbers::numbers))]
pub fn document_numbers(
    alloc: Global,
    raw: &RawDocument,
    links: &NameTable,
    tasks: &NameTable,
    reporters: &NameTable,
) -> Result<DocumentNumbers, Fault>
    ensures { Gives numbers_view result
        (spec.numbers links.now tasks.now reporters.now (raw_view raw.now)) }
{
    let link_owners = link_owners(alloc, &raw.links, reporters)?;
    let GroupNumbers { specs, owners } = group_numbers(
        alloc,
        &raw.groups,
        tasks.len(),
        links,
        reporters,
    )?;
    let script = script_numbers(alloc, &raw.script, links, tasks, reporters, &owners)?;
    let closings = closings_numbers(alloc, &raw.closings, links)?;
    Ok(DocumentNumbers {
        link_owners,
        groups: specs,
        task_owners: owners,
        script,
        closings,
    })
}
