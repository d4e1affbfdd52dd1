//! One line of samples.

ghost use Rattle.std.specs.Prelude.{◌≡◌, IfOk};
ghost use Rattle.sample_lines.specs.SampleLine as spec;
ghost use Rattle.sample_lines.specs.Known.{known_by};

use bwe_specs::{OutOfMemory, Target};
use doc_names::{Names, is_owner, owner_of};
use std::alloc::Global;
use std::marker::Model;
use text_scan::{NameIndex, amount_in_range, cut_at, printed_number_of};

/// What a task sent, in kilobits per second, by its owner.
#[derive(Clone, Copy, Debug, PartialEq, Eq, Drop)]
pub struct Sample {
    pub reporter: u32,
    pub task: u32,
    pub amount: u64,
}

/// The names of a document, and the number of each task's owner.
#[derive(Drop)]
pub(crate) struct Known<'a> {
    names: &'a Names,
    task_owners: &'a [u32],
    reporters: NameIndex,
    tasks: NameIndex,
}

impl<'a> Model for Known<'a> {
    ghost use Rattle.doc_names.specs.NameTexts.{texts_of};
    ghost use Rattle.text_scan.specs.Names.{IsIndexOf};
    ghost use Rattle.sample_lines.specs.Known.{Known, known_by};

    ghost Value = { Known };

    ghost view = { λ known. known_by known.names.now known.task_owners.now };

    ghost invariant = { λ known.
        IsIndexOf (texts_of known.names.now).reporters known.reporters
        × IsIndexOf (texts_of known.names.now).tasks known.tasks };
}

impl<'a> Known<'a> {
    /// Takes about the time of one hash for each name of a reporter or task, and one copy of each.
    pub(crate) fn new(
        alloc: Global,
        names: &'a Names,
        task_owners: &'a [u32],
    ) -> Result<Known<'a>, OutOfMemory>
        ensures { IfOk result (λ known. known ≡ known_by names.now task_owners.now) }
    {
        let reporters = NameIndex::new(alloc, &names.reporters)?;
        let tasks = NameIndex::new(alloc, &names.tasks)?;
        Ok(Known {
            names,
            task_owners,
            reporters,
            tasks,
        })
    }

    /// The sample of a line without its line feed, `None` where it is no sample.
    #[tactic(auto, unfolding(crate::specs::SampleLine::sample_of))]
    pub(crate) fn sample(&self, text: &[u8]) -> Option<Sample>
        ensures { result ≡ spec.sample_of self.now text.now }
    {
        let fields = fields_of(text)?;
        let reporter = self.reporters.number_of_bytes(fields.reporter)?;
        let task = self.tasks.number_of_bytes(fields.task)?;
        let amount = amount_of(fields.amount)?;
        let owner = owner_of(self.task_owners, &[], Target::Task { number: task });
        if !is_owner(owner, reporter) {
            return None;
        }
        Some(Sample {
            reporter,
            task,
            amount,
        })
    }
}

// The parts of a line: what stands before its first blank, before its second, and behind.
#[derive(Drop)]
struct Fields<'a> {
    reporter: &'a [u8],
    task: &'a [u8],
    amount: &'a [u8],
}

impl<'a> Model for Fields<'a> {
    ghost use Rattle.sample_lines.specs.SampleLine.{Fields};

    ghost Value = { Fields };

    ghost view = { λ fields.
        record {
          reporter = fields.reporter.now;
          task = fields.task.now;
          amount = fields.amount.now;
        } };
}

#[tactic(auto, unfolding(crate::specs::SampleLine::fields_of))]
fn fields_of(text: &[u8]) -> Option<Fields<'_>>
    ensures { result ≡ spec.fields_of text.now }
{
    let first = cut_at(b' ', text)?;
    let second = cut_at(b' ', first.behind)?;
    Some(Fields {
        reporter: first.before,
        task: second.before,
        amount: second.behind,
    })
}

#[tactic(auto, unfolding(crate::specs::SampleLine::amount_of))]
fn amount_of(digits: &[u8]) -> Option<u64>
    ensures { result ≡ spec.amount_of digits.now }
{
    amount_in_range(printed_number_of(digits)?)
}
