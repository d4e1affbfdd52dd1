//! What is known of a document, and what a line means under it.

ghost use Rattle.std.specs.Prelude.{◌≡◌, ◌≤◌, codes, length, option_map, IfOk, IfSome};
ghost use Rattle.std.specs.Str.{bytes_eq};
ghost use Rattle.bwe_specs.specs.declared.limits.TheConstants.{MAX_AMOUNT};
ghost use Rattle.bwe_specs.specs.Fit.{IsFit};
ghost use Rattle.doc_names.specs.NameTexts.{texts_of};
ghost use Rattle.text_scan.specs.Words.{words_of};
ghost use Rattle.doc_names.specs.Owners as owners;
ghost use Rattle.live_lines.specs.Known.{IsByOwner, known_by};
ghost use Rattle.live_lines.specs.Meaning as spec;

use crate::line::{LineCause, LineMeaning};
use bwe_specs::{OutOfMemory, Report, Target};
use doc_names::{Names, is_owner, owner_of};
use std::alloc::Global;
use std::marker::Model;
use text_scan::{NameIndex, Words, amount_in_range, is_number, number_of};

/// The names of a document, and the number of each owner of a task or link; a link may have no
/// owner.
#[derive(Drop)]
pub struct Known {
    names: Names,
    task_owners: Vec<u32>,
    link_owners: Vec<Option<u32>>,
    reporters: NameIndex,
    tasks: NameIndex,
    links: NameIndex,
}

impl Model for Known {
    ghost use Rattle.doc_names.specs.NameTexts.{texts_of};
    ghost use Rattle.text_scan.specs.Names.{IsIndexOf};
    ghost use Rattle.live_lines.specs.Known.{Known, known_by};

    ghost Value = { Known };

    ghost view = { λ known. known_by known.names known.task_owners.items known.link_owners.items };

    ghost invariant = { λ known.
        IsIndexOf (texts_of known.names).reporters known.reporters
        × IsIndexOf (texts_of known.names).tasks known.tasks
        × IsIndexOf (texts_of known.names).links known.links };
}

impl Known {
    /// Takes about the time of one hash for each name, and one copy of each name of a reporter,
    /// task or link.
    pub fn new(
        alloc: Global,
        names: Names,
        task_owners: Vec<u32>,
        link_owners: Vec<Option<u32>>,
    ) -> Result<Known, OutOfMemory>
        ensures { IfOk result
            (λ known. known ≡ known_by names task_owners.items link_owners.items) }
    {
        let reporters = NameIndex::new(alloc, &names.reporters)?;
        let tasks = NameIndex::new(alloc, &names.tasks)?;
        let links = NameIndex::new(alloc, &names.links)?;
        Ok(Known {
            names,
            task_owners,
            link_owners,
            reporters,
            tasks,
            links,
        })
    }

    /// The names of the document.
    pub fn names(&self) -> &Names
        ensures { texts_of result.now ≡ self.now.names }
    {
        &self.names
    }

    /// What a line means that stands before its line feed, or the first cause for which it is
    /// refused ("What it reads", docs/FORMAT.md). `None` stands for a line that is too long, or
    /// ends with the input.
    #[tactic(auto, unfolding(crate::specs::Meaning::meaning_of))]
    pub fn meaning(&self, line: Option<&[u8]>) -> LineMeaning
        ensures exact { result
            ≡ spec.meaning_of self.now (option_map (λ text. text.now) line.entry) }
        // A report's target is a task or link that there is, its amount in range, and its reporter
        // the owner.
        ensures fit { spec.IfNewReport result
            (IsFit (length self.now.task_owners) (length self.now.link_owners)) }
        ensures owned { spec.IfNewReport result (IsByOwner self.now) }
    {
        let Some(bytes) = line else {
            return LineMeaning::Refused {
                cause: LineCause::NoLine,
            };
        };
        match std::str::from_utf8(bytes) {
            Ok(text) => self.meaning_of_words(text),
            Err(_) => LineMeaning::Refused {
                cause: LineCause::NoLine,
            },
        }
    }

    // What the words of a line say.
    fn meaning_of_words(&self, text: &str) -> LineMeaning
        ensures exact { result ≡ spec.meaning_of_words self.now (words_of text.now) }
        ensures fit { spec.IfNewReport result
            (IsFit (length self.now.task_owners) (length self.now.link_owners)) }
        ensures owned { spec.IfNewReport result (IsByOwner self.now) }
    {
        let refused = LineMeaning::Refused {
            cause: LineCause::NoLine,
        };
        let mut words = Words::new(text);
        let Some(kind) = words.next_word() else {
            return refused;
        };
        let Some(reporter) = words.next_word() else {
            return command_of(kind);
        };
        let Some(name) = words.next_word() else {
            return refused;
        };
        let Some(amount) = words.next_word() else {
            return refused;
        };
        match words.next_word() {
            Some(_) => refused,
            None => self.reported(kind, reporter, name, amount),
        }
    }

    // A line of four words is a report, or refused for the first cause.
    fn reported(&self, kind: &str, reporter: &str, name: &str, amount: &str) -> LineMeaning
        ensures exact { result
            ≡ spec.reported (spec.report_of self.now kind.now reporter.now name.now amount.now) }
        ensures fit { spec.IfNewReport result
            (IsFit (length self.now.task_owners) (length self.now.link_owners)) }
        ensures owned { spec.IfNewReport result (IsByOwner self.now) }
    {
        match self.report_of(kind, reporter, name, amount) {
            Ok(report) => LineMeaning::NewReport { report },
            Err(cause) => LineMeaning::Refused { cause },
        }
    }

    // The report of four words, or the first cause against it.
    #[tactic(auto, unfolding(crate::specs::Meaning::report_of))]
    fn report_of(
        &self,
        kind: &str,
        reporter: &str,
        name: &str,
        amount: &str,
    ) -> Result<Report, LineCause>
        ensures exact { result ≡ spec.report_of self.now kind.now reporter.now name.now amount.now }
        ensures fit { IfOk result
            (IsFit (length self.now.task_owners) (length self.now.link_owners)) }
        ensures owned { IfOk result (IsByOwner self.now) }
    {
        if !is_report(kind, reporter, name, amount) {
            return Err(LineCause::NoLine);
        }
        let Some(reporter) = self.reporters.number(reporter) else {
            return Err(LineCause::UnknownName);
        };
        let Some(target) = self.target_named(kind, name) else {
            return Err(LineCause::UnknownName);
        };
        let Some(amount) = amount_of(amount) else {
            return Err(LineCause::AmountOutOfRange);
        };
        if !self.is_by_owner(target, reporter) {
            return Err(LineCause::NotOwner);
        }
        Ok(Report {
            reporter,
            target,
            amount,
        })
    }

    #[tactic(auto, unfolding(crate::specs::Meaning::target_named))]
    fn target_named(&self, kind: &str, name: &str) -> Option<Target>
        ensures { result ≡ spec.target_named self.now kind.now name.now }
    {
        if kind == "demand" {
            let number = self.tasks.number(name)?;
            return Some(Target::Task { number });
        }
        let number = self.links.number(name)?;
        Some(Target::Link { number })
    }

    fn is_by_owner(&self, target: Target, reporter: u32) -> bool
        ensures { result ≡ owners.is_owner
            (owners.owner_of self.now.task_owners self.now.link_owners target) reporter }
    {
        let owner = owner_of(&self.task_owners, &self.link_owners, target);
        is_owner(owner, reporter)
    }
}

// A command is one word.
#[tactic(auto, unfolding(crate::specs::Meaning::command_of))]
fn command_of(word: &str) -> LineMeaning
    ensures { result ≡ spec.command_of word.now }
{
    if word == "post" {
        return LineMeaning::Post;
    }
    if word == "state" {
        return LineMeaning::State;
    }
    LineMeaning::Refused {
        cause: LineCause::NoLine,
    }
}

fn is_report(kind: &str, reporter: &str, name: &str, amount: &str) -> bool
    ensures { result ≡ spec.is_report kind.now reporter.now name.now amount.now }
{
    (kind == "demand" || kind == "capacity")
        && !reporter.is_empty()
        && !name.is_empty()
        && is_number(amount.as_bytes())
}

#[tactic(auto, unfolding(crate::specs::Meaning::amount_of))]
fn amount_of(digits: &str) -> Option<u64>
    ensures exact { result ≡ spec.amount_of digits.now }
    ensures range { IfSome result (λ amount. amount ≤ MAX_AMOUNT) }
{
    amount_in_range(number_of(digits.as_bytes())?)
}
