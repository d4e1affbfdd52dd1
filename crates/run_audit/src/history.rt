//! The lines of the history.
ghost use Rattle.std.specs.Prelude.{◌≡◌, ◌+◌, ◌<◌, ◌≤◌, ◌^◌, [], length, slice_index, IfErr, IfOk, IfSome, OnOk};
ghost use Rattle.doc_names.specs.NameTexts.{texts_of};
ghost use Rattle.run_audit.specs.Forms.{report_of as report_words};
ghost use Rattle.run_audit.specs.History as history;
ghost use Rattle.bwe_specs.specs.Lists.{lists_of};
ghost use Rattle.run_audit.specs.History.{IsStop, total_of};
ghost use Rattle.run_audit.specs.declared.verdict.Stop.TheVariants.{At};

use crate::forms::{ReportWords, history_in, report_of, reporter_of};
use crate::verdict::{AuditCause, Fault, Stop};
use crate::words::{LineWords, name_of, split};
use bwe_specs::{Report, Target};
use doc_names::Names;
use std::alloc::Global;
use std::marker::Model;
use text_scan::Lines;

/// The reports so far, and how many of each script they have.
#[derive(Drop)]
pub(crate) struct PrintedHistory {
    reports: Vec<Report>,
    taken: Vec<u64>,
}

impl Model for PrintedHistory {
    ghost use Rattle.run_audit.specs.History.{Printed};

    ghost Value = { Printed };

    ghost view = { λ printed.
        record { reports = printed.reports.items; taken = printed.taken.items } };
}

impl PrintedHistory {
    // The report of the reporter's script that comes next.
    fn next_of(&self, scripts: &[Vec<Report>], reporter: usize) -> Option<Report>
        requires taken { length self.now.taken ≡ length scripts.now }
        ensures next { result ≡ history.next_of (lists_of scripts.now) self.now.taken reporter }
        ensures within { IfSome result (λ _. reporter < length self.now.taken) }
        ensures fits { IfSome result (λ _. slice_index self.now.taken reporter + 1 < 2 ^ 64) }
    {
        if reporter >= scripts.len() {
            return None;
        }
        let place = self.taken[reporter];
        scripts[reporter].get(place as usize).copied()
    }

    // The task or link that a line of the reporter is likely to name.
    fn likely_target(&self, scripts: &[Vec<Report>], reporter: Option<usize>) -> Option<Target>
        requires taken { length self.now.taken ≡ length scripts.now }
    {
        Some(self.next_of(scripts, reporter?)?.target)
    }

    // The next report's line is at fault.
    fn stop(&self, cause: AuditCause) -> Stop
        ensures { result ≡ At (record { line = history.line_after self.now; cause = cause }) }
    {
        Stop::At {
            fault: Fault {
                line: self.reports.len() as u64 + 1,
                cause,
            },
        }
    }

    // Takes in a line, which has to be that of the next report of its reporter's script.
    #[tactic(auto, using(crate::proofs::WordFacts::long_stops), unfolding(crate::specs::History::take_line))]
    fn take_line(&mut self, names: &Names, scripts: &[Vec<Report>], line: &[u8]) -> Result<(), Stop>
        requires taken { length self.old.taken ≡ length scripts.now }
        ensures ok { OnOk result
            (history.take_line (texts_of names.now) (lists_of scripts.now) self.old line.now
            ≡ Ok self.new) }
        ensures stop { IfErr result
            (IsStop (history.take_line (texts_of names.now) (lists_of scripts.now) self.old
            line.now)) }
        ensures taken { OnOk result (length self.new.taken ≡ length scripts.now) }
        ensures grows { OnOk result (length self.new.reports ≡ length self.old.reports + 1) }
    {
        let Some(words) = split(line) else {
            return Err(self.stop(AuditCause::Form));
        };
        self.take_words(names, scripts, &words)
    }

    // The same, of a line by its words.
    #[tactic(auto, unfolding(crate::specs::History::take_words, crate::specs::History::take_next))]
    fn take_words(
        &mut self,
        names: &Names,
        scripts: &[Vec<Report>],
        line: &LineWords<'_>,
    ) -> Result<(), Stop>
        requires taken { length self.old.taken ≡ length scripts.now }
        ensures ok { OnOk result (history.take_words (texts_of names.now) (lists_of scripts.now)
            self.old line.now (report_words (texts_of names.now) line.now) ≡ Ok self.new) }
        ensures stop { IfErr result
            (IsStop (history.take_words (texts_of names.now) (lists_of scripts.now)
            self.old line.now (report_words (texts_of names.now) line.now))) }
        ensures taken { OnOk result (length self.new.taken ≡ length scripts.now) }
        ensures grows { OnOk result (length self.new.reports ≡ length self.old.reports + 1) }
    {
        let reporter = reporter_of(names, line);
        let likely = self.likely_target(scripts, reporter);
        let Some(told) = report_of(names, reporter, likely, line) else {
            return Err(self.stop(AuditCause::Form));
        };
        let Some(report) = self.next_of(scripts, told.reporter) else {
            return Err(self.stop(AuditCause::Script));
        };
        if !is_line_of(names, line, told, self.reports.len() as u64, report) {
            return Err(self.stop(AuditCause::Script));
        }
        self.reports.push(report)?;
        self.taken[told.reporter] += 1;
        Ok(())
    }

    // Takes in lines, until there are as many reports as the scripts have.
    fn take_lines(
        &mut self,
        names: &Names,
        scripts: &[Vec<Report>],
        total: u64,
        text: &mut Lines<'_>,
    ) -> Result<(), Stop>
        requires total { total ≡ total_of (lists_of scripts.now) }
        requires taken { length self.old.taken ≡ length scripts.now }
        requires within { length self.old.reports ≤ total }
        requires number { text.old.number ≡ history.line_after self.old }
        ensures ok { OnOk result
            (history.take_lines (texts_of names.now) (lists_of scripts.now) self.old
            text.old.lines
            ≡ Ok (record { reports = self.new.reports; lines = text.new.lines })) }
        ensures stop { IfErr result
            (IsStop (history.take_lines (texts_of names.now) (lists_of scripts.now) self.old
            text.old.lines)) }
        ensures all { OnOk result (length self.new.reports ≡ total) }
        ensures left { OnOk result (text.new.left ≡ text.old.left) }
        ensures number { OnOk result (text.new.number ≡ history.line_after self.new) }
    {
        while (self.reports.len() as u64) < total {
            let Some(line) = text.next_line() else {
                return Err(self.stop(AuditCause::Form));
            };
            self.take_line(names, scripts, line)?;
        }
        Ok(())
    }
}

// Whether the line is that of the report, in its place.
#[tactic(auto, unfolding(crate::specs::History::is_line_of))]
fn is_line_of(
    names: &Names,
    line: &LineWords<'_>,
    told: ReportWords,
    place: u64,
    report: Report,
) -> bool
    ensures { result ≡ history.is_line_of (texts_of names.now) line.now told place report }
{
    told.place == place && told.amount == report.amount && is_of(names, line, report.target)
}

// Whether the line is of this task or link.
#[tactic(auto, unfolding(crate::specs::History::is_of))]
fn is_of(names: &Names, line: &LineWords<'_>, target: Target) -> bool
    ensures { result ≡ history.is_of (texts_of names.now) line.now target }
{
    match target {
        Target::Task { number } => {
            line.is_word(0, b"report") && line.word(3) == name_of(&names.tasks, number as usize)
        }
        Target::Link { number } => {
            line.is_word(0, b"capacity") && line.word(3) == name_of(&names.links, number as usize)
        }
    }
}

// The fault of the first line.
fn first_fault(cause: AuditCause) -> Stop
    ensures { result ≡ At (record { line = 0; cause = cause }) }
{
    Stop::At {
        fault: Fault { line: 0, cause },
    }
}

/// The history that the text begins with. The text is then at the line behind it.
#[tactic(auto, unfolding(crate::specs::History::history_in))]
pub(crate) fn read_history(
    alloc: Global,
    names: &Names,
    scripts: &[Vec<Report>],
    total: u64,
    text: &mut Lines<'_>,
) -> Result<Vec<Report>, Stop>
    requires total { total ≡ total_of (lists_of scripts.now) }
    requires number { text.old.number ≡ 0 }
    ensures ok { IfOk result (λ reports.
        history.history_in (texts_of names.now) (lists_of scripts.now) text.old.lines
        ≡ Ok (record { reports = reports.items; lines = text.new.lines })) }
    ensures stop { IfErr result
        (IsStop (history.history_in (texts_of names.now) (lists_of scripts.now) text.old.lines)) }
    ensures all { IfOk result (λ reports. length reports.items ≡ total) }
    ensures left { OnOk result (text.new.left ≡ text.old.left) }
    ensures number { IfOk result (λ reports. text.new.number ≡ length reports.items + 1) }
{
    let Some(line) = text.next_line() else {
        return Err(first_fault(AuditCause::Form));
    };
    let Some(reports) = history_in(line) else {
        return Err(first_fault(AuditCause::Form));
    };
    if reports != total {
        return Err(first_fault(AuditCause::Script));
    }
    let mut printed = PrintedHistory {
        reports: Vec::new(alloc),
        taken: vec![in alloc; 0; scripts.len()]?,
    };
    printed.take_lines(names, scripts, total, text)?;
    let PrintedHistory { reports, taken: _ } = printed;
    Ok(reports)
}
