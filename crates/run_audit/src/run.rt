//! The audit of a text.
ghost use Rattle.std.specs.Prelude.{◌≡◌, ◌<◌, ◌≤◌, List, [], length, take, IfOk};
ghost use Rattle.std.specs.List.{All};
ghost use Rattle.bwe_specs.specs.declared.report.Report.{Report};
ghost use Rattle.bwe_specs.specs.Fit.{IsFit};
ghost use Rattle.doc_names.specs.NameTexts.{texts_of};
ghost use Rattle.bwe_specs.specs.Lists.{lists_of};
ghost use Rattle.run_audit.specs.History.{total_of};
ghost use Rattle.run_audit.specs.Walk.{due_from as first_due};
ghost use Rattle.run_audit.specs.Verdict.{AreFit, IsVerdictAt, judge, verdict_of};

use crate::due::due_from;
use crate::history::read_history;
use crate::totals::{first_wrong, totals_at};
use crate::verdict::{AuditVerdict, Stop};
use crate::walk::{Pursued, Walk, pursue};
use bwe_specs::{MAX_REPORTS, OutOfMemory, Report};
use demand_book::Maker;
use doc_names::Names;
use std::alloc::Global;
use text_scan::Lines;

/// The first fault of a printed run, or that it is legal ("Audit", docs/DEFINITIONS.md).
///
/// `scripts` has the reports of each reporter, in the order of their numbers, and `table` is the
/// table's text, of whole lines. The maker absorbs the printed history once, in its order, and
/// makes a table for each prefix that a line names. It absorbs nothing where the history is at
/// fault. A line costs the time to go over its bytes a few times.
pub fn audit<M: Maker>(
    alloc: Global,
    maker: M,
    scripts: &[Vec<Report>],
    names: &Names,
    table: &[u8],
    text: &[u8],
) -> Result<AuditVerdict, OutOfMemory>
    requires first { M.absorbed maker [] }
    requires fit { AreFit (M.plan_tasks (M.plan maker)) (M.plan_links (M.plan maker)) scripts.now }
    requires few { total_of (lists_of scripts.now) ≤ MAX_REPORTS }
    ensures { IfOk result (λ verdict. verdict
        ≡ verdict_of (texts_of names.now) (lists_of scripts.now)
        (λ reports. M.Table.total_of (M.table_of (M.plan maker) reports)) table.now text.now) }
{
    let total = total_reports(scripts);
    let mut lines = Lines::new(text);
    match read_history(alloc, names, scripts, total, &mut lines) {
        Ok(history) => audit_rest(
            alloc,
            maker,
            scripts,
            names,
            &history,
            Lines::new(table),
            &mut lines,
        ),
        Err(stop) => verdict_at(stop),
    }
}

// The verdict where the history is at fault.
fn verdict_at(stop: Stop) -> Result<AuditVerdict, OutOfMemory>
    ensures { IfOk result (IsVerdictAt stop) }
{
    match stop {
        Stop::At { fault } => Ok(AuditVerdict::Wrong {
            line: fault.line,
            cause: fault.cause,
        }),
        Stop::OutOfMemory => Err(OutOfMemory),
    }
}

// How many reports the scripts have.
fn total_reports(scripts: &[Vec<Report>]) -> u64
    requires { total_of (lists_of scripts.now) ≤ MAX_REPORTS }
    ensures { result ≡ total_of (lists_of scripts.now) }
{
    let mut total = 0;
    for script in scripts {
        total += script.len() as u64;
    }
    total
}

// The verdict on the lines behind a history.
fn audit_rest<M: Maker>(
    alloc: Global,
    maker: M,
    scripts: &[Vec<Report>],
    names: &Names,
    history: &[Report],
    table: Lines<'_>,
    text: &mut Lines<'_>,
) -> Result<AuditVerdict, OutOfMemory>
    requires first { M.absorbed maker [] }
    requires few { length history.now ≤ MAX_REPORTS }
    requires fit { All (IsFit (M.plan_tasks (M.plan maker)) (M.plan_links (M.plan maker)))
        history.now }
    requires all { length history.now ≡ total_of (lists_of scripts.now) }
    ensures { IfOk result (λ verdict. verdict ≡ judge (texts_of names.now) (lists_of scripts.now)
        (λ prefix. M.Table.total_of (M.table_of (M.plan maker) (take prefix history.now)))
        text.old.left
        (record { due = first_due (lists_of scripts.now) 0; table = table.entry.lines })
        text.old.number text.old.lines) }
{
    let mut walk = Walk {
        due: due_from(scripts, 0),
        table,
    };
    let total = history.len() as u64;
    let Pursued { checks, verdict } = pursue(alloc, names, scripts, total, text, &mut walk)?;
    let totals = totals_at(alloc, maker, history, &checks)?;
    Ok(first_wrong(&totals, verdict, &checks))
}
