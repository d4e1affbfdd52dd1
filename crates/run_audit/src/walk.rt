//! The lines behind the history, one by one.
ghost use Rattle.std.specs.Prelude.{◌≡◌, ◌≤◌, ◌++◌, [], length, IfErr, IfOk, IfSome, OnOk};
ghost use Rattle.std.specs.List.{All};
ghost use Rattle.doc_names.specs.NameTexts.{texts_of};
ghost use Rattle.bwe_specs.specs.Lists.{lists_of};
ghost use Rattle.run_audit.specs.History.{total_of};
ghost use Rattle.run_audit.specs.Walk as steps;
ghost use Rattle.run_audit.specs.Verdict.{at_end};
ghost use Rattle.run_audit.specs.Checks.{checks_of, found_of, pursue as pursue_lines};
ghost use Rattle.run_audit.specs.declared.due.Due.TheVariants.{Table};

use crate::due::{Due, Step, step_from};
use crate::forms::Shown;
use crate::verdict::{AuditCause, AuditVerdict};
use crate::words::split;
use bwe_specs::{OutOfMemory, Report};
use doc_names::Names;
use std::alloc::Global;
use std::marker::Model;
use text_scan::Lines;

/// What is due, and what is left of the table.
#[derive(Drop)]
pub(crate) struct Walk<'a> {
    pub due: Due,
    pub table: Lines<'a>,
}

impl<'a> Model for Walk<'a> {
    ghost use Rattle.run_audit.specs.Walk.{Walk};

    ghost Value = { Walk };

    ghost view = { λ walk. record { due = walk.due; table = walk.table.lines } };
}

/// A total that a line shows, which is still to be looked at.
#[derive(Clone, Copy, Drop)]
pub(crate) struct Check {
    pub line: u64,
    pub prefix: u64,
    pub total: u64,
}

/// The totals that the lines show, up to the first fault of another kind, and that fault.
#[derive(Drop)]
pub(crate) struct Pursued {
    pub checks: Vec<Check>,
    pub verdict: AuditVerdict,
}

impl<'a> Walk<'a> {
    // Whether the line has to be one of the table.
    fn is_table_line(&self, line: &[u8]) -> bool
        ensures { result ≡ steps.is_table_line self.now.due line.now }
    {
        match self.due {
            Due::Reporter { .. } | Due::Reader | Due::Line { .. } => false,
            Due::Next { .. } => !line.starts_with(b"reader "),
            Due::Table => true,
        }
    }

    // Goes on by a line of the table.
    fn take_table_line(&mut self, line: &[u8]) -> Result<Option<Shown>, AuditCause>
        ensures ok { IfOk result (λ shown.
            steps.after_table self.old.table line.now
            ≡ Ok (record { walk = self.new; shown = shown })) }
        ensures fault { IfErr result
            (λ cause. steps.after_table self.old.table line.now ≡ Err cause) }
        ensures due { OnOk result (self.new.due ≡ Table) }
        ensures shown { IfOk result (λ shown. shown ≡ None) }
    {
        let Some(wanted) = self.table.next_line() else {
            return Err(AuditCause::Table);
        };
        if line != wanted {
            return Err(AuditCause::Table);
        }
        self.due = Due::Table;
        Ok(None)
    }

    // Goes on by a line, and answers what it shows.
    #[tactic(auto, using(crate::proofs::WordFacts::long_leads_nowhere), unfolding(crate::specs::Walk::after_line))]
    fn take_line(
        &mut self,
        names: &Names,
        scripts: &[Vec<Report>],
        total: u64,
        line: &[u8],
    ) -> Result<Option<Shown>, AuditCause>
        requires total { total ≡ total_of (lists_of scripts.now) }
        requires due { steps.IsDue (length scripts.now) self.old.due }
        ensures ok { IfOk result (λ shown.
            steps.after_line (texts_of names.now) (lists_of scripts.now) self.old line.now
            ≡ Ok (record { walk = self.new; shown = shown })) }
        ensures fault { IfErr result (λ cause.
            steps.after_line (texts_of names.now) (lists_of scripts.now) self.old line.now
            ≡ Err cause) }
        ensures due { OnOk result (steps.IsDue (length scripts.now) self.new.due) }
        ensures shown { IfOk result (λ shown. IfSome shown (λ shown. shown.prefix ≤ total)) }
    {
        if self.is_table_line(line) {
            return self.take_table_line(line);
        }
        let Some(words) = split(line) else {
            return Err(AuditCause::Form);
        };
        let Step { due, shown } = step_from(names, scripts, total, self.due, &words)?;
        self.due = due;
        Ok(shown)
    }

    // Whether no line is due any more.
    fn is_over(&mut self) -> bool
        ensures { result ≡ steps.is_over self.old }
    {
        let may_end = match self.due {
            Due::Reporter { .. } | Due::Reader | Due::Line { .. } => false,
            Due::Next { .. } | Due::Table => true,
        };
        may_end && self.table.next_line().is_none()
    }

    // The verdict behind the last line.
    fn at_end(&mut self, text: &Lines<'_>) -> AuditVerdict
        requires { text.now.lines ≡ [] }
        ensures { result ≡ at_end (steps.is_over self.old) text.now.number text.now.left }
    {
        let line = text.number();
        if !self.is_over() {
            return AuditVerdict::Wrong {
                line,
                cause: AuditCause::Form,
            };
        }
        if !text.is_empty() {
            return AuditVerdict::Wrong {
                line,
                cause: AuditCause::Table,
            };
        }
        AuditVerdict::Legal
    }
}

// Notes what a line shows.
fn note(checks: &mut Vec<Check>, line: u64, shown: Option<Shown>) -> Result<(), OutOfMemory>
    ensures { OnOk result (checks.new.items ≡ checks.old.items ++ checks_of line shown) }
{
    if let Some(shown) = shown {
        checks.push(Check {
            line,
            prefix: shown.prefix,
            total: shown.total,
        })?;
    }
    Ok(())
}

/// Goes over the lines, up to the first that is at fault for another cause than its total.
pub(crate) fn pursue(
    alloc: Global,
    names: &Names,
    scripts: &[Vec<Report>],
    total: u64,
    text: &mut Lines<'_>,
    walk: &mut Walk<'_>,
) -> Result<Pursued, OutOfMemory>
    requires total { total ≡ total_of (lists_of scripts.now) }
    requires due { steps.IsDue (length scripts.now) walk.old.due }
    ensures pursued { IfOk result (λ pursued.
        found_of pursued ≡ pursue_lines (texts_of names.now) (lists_of scripts.now)
        text.old.left walk.old text.old.number text.old.lines) }
    ensures prefixes { IfOk result
        (λ pursued. All (λ check. check.prefix ≤ total) pursued.checks.items) }
{
    let mut checks = Vec::new(alloc);
    loop {
        let line = text.number();
        let Some(bytes) = text.next_line() else {
            return Ok(Pursued {
                checks,
                verdict: walk.at_end(text),
            });
        };
        match walk.take_line(names, scripts, total, bytes) {
            Ok(shown) => note(&mut checks, line, shown)?,
            Err(cause) => {
                return Ok(Pursued {
                    checks,
                    verdict: AuditVerdict::Wrong { line, cause },
                });
            }
        }
    }
}
