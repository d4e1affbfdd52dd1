//! The totals of the tables of a history's first reports.
ghost use Rattle.std.specs.Prelude.{◌≡◌, ◌+◌, ◌<◌, ◌≤◌, ℕ, List, [], true, false, length, slice_index, slice_index_or, take, IfOk, OnOk};
ghost use Rattle.std.specs.List.{All};
ghost use Rattle.bwe_specs.specs.declared.report.Report.{Report};
ghost use Rattle.bwe_specs.specs.Fit.{IsFit};
ghost use Rattle.run_audit.specs.Checks.{AreTotals, first_wrong as first_wrong_of};

use crate::verdict::{AuditCause, AuditVerdict};
use crate::walk::Check;
use bwe_specs::{MAX_REPORTS, OutOfMemory, Report};
use demand_book::{Maker, Posted};
use std::alloc::Global;

// Whether a total is asked for, at each of so many prefixes.
fn asked_at(alloc: Global, checks: &[Check], prefixes: usize) -> Result<Vec<bool>, OutOfMemory>
    requires { All (λ check. check.prefix < prefixes) checks.now }
    ensures len { IfOk result (λ asked. length asked.items ≡ prefixes) }
    ensures asked { IfOk result
        (λ asked. All (λ check. slice_index_or asked.items check.prefix false ≡ true) checks.now) }
{
    let mut asked = vec![in alloc; false; prefixes]?;
    for check in checks {
        asked[check.prefix as usize] = true;
    }
    Ok(asked)
}

// The total of the maker's table, where it is asked for.
fn total_if<M: Maker>(alloc: Global, maker: &mut M, is_asked: bool) -> Result<u64, OutOfMemory>
    ensures plan { M.plan maker.new ≡ M.plan maker.old }
    ensures absorbed { (reports : List Report) → M.absorbed maker.old reports
        → M.absorbed maker.new reports }
    ensures total { IfOk result
        (λ total. (reports : List Report) → M.absorbed maker.old reports → is_asked ≡ true
        → total ≡ M.Table.total_of (M.table_of (M.plan maker.old) reports)) }
{
    if !is_asked {
        return Ok(0);
    }
    Ok(maker.table(alloc)?.total())
}

/// The total of the table of so many of the first reports, for each prefix that a check has; 0 for
/// any other.
///
/// The maker absorbs each report once, and makes a table for each prefix that is asked for.
#[tactic(auto, using(crate::proofs::AskedTotals::each_total))]
pub(crate) fn totals_at<M: Maker>(
    alloc: Global,
    maker: M,
    history: &[Report],
    checks: &[Check],
) -> Result<Vec<u64>, OutOfMemory>
    requires first { M.absorbed maker [] }
    requires few { length history.now ≤ MAX_REPORTS }
    requires fit { All (IsFit (M.plan_tasks (M.plan maker)) (M.plan_links (M.plan maker)))
        history.now }
    requires prefixes { All (λ check. check.prefix ≤ length history.now) checks.now }
    ensures len { IfOk result (λ totals. length totals.items ≡ length history.now + 1) }
    ensures totals { IfOk result (λ totals. All (λ check. slice_index totals.items check.prefix
        ≡ M.Table.total_of (M.table_of (M.plan maker) (take check.prefix history.now)))
        checks.now) }
{
    let mut maker = maker;
    let asked = asked_at(alloc, checks, history.len() + 1)?;
    let mut totals = Vec::with_capacity(alloc, asked.len())?;
    push_totals(alloc, &mut maker, history, &asked, &mut totals)?;
    Ok(totals)
}

// Puts there the total of the table of the first reports, for each number of them that is asked
// for.
fn push_totals<M: Maker>(
    alloc: Global,
    maker: &mut M,
    history: &[Report],
    asked: &[bool],
    totals: &mut Vec<u64>,
) -> Result<(), OutOfMemory>
    requires first { M.absorbed maker.old [] }
    requires few { length history.now ≤ MAX_REPORTS }
    requires fit { All (IsFit (M.plan_tasks (M.plan maker.old)) (M.plan_links (M.plan maker.old)))
        history.now }
    requires asked { length asked.now ≡ length history.now + 1 }
    requires empty { totals.old.items ≡ [] }
    ensures len { OnOk result (length totals.new.items ≡ length history.now + 1) }
    ensures totals { OnOk result (AreTotals asked.now (length history.now + 1)
        (λ prefix. M.Table.total_of (M.table_of (M.plan maker.old) (take prefix history.now)))
        totals.new.items) }
{
    for place in 0..history.len() {
        totals.push(total_if(alloc, maker, asked[place])?)?;
        maker.absorb(alloc, history[place])?;
    }
    totals.push(total_if(alloc, maker, asked[history.len()])?)?;
    Ok(())
}

/// The first check whose total is not the one of its prefix, or else the verdict.
pub(crate) fn first_wrong(totals: &[u64], verdict: AuditVerdict, checks: &[Check]) -> AuditVerdict
    requires { All (λ check. check.prefix < length totals.now) checks.now }
    ensures { result ≡ first_wrong_of (λ prefix. slice_index totals.now prefix) verdict checks.now }
{
    for check in checks {
        if totals[check.prefix as usize] != check.total {
            return AuditVerdict::Wrong {
                line: check.line,
                cause: AuditCause::Total,
            };
        }
    }
    verdict
}
