//! A book of reports at its limit, and a small maker.

ghost use Rattle.std.specs.Prelude.{◌≡◌, ◌<◌, ◌≤◌, ◌+◌, ◌^◌, [], ℕ, length, List, IfOk};
ghost use Rattle.bwe_specs.specs.declared.report.Report.{Report};
ghost use Rattle.bwe_specs.specs.Fit.{IsFit};

use bwe_specs::{MAX_AMOUNT, MAX_REPORTS, OutOfMemory};
use demand_book::{Maker, Posted, Report, Target};
use report_book::{BookError, DemandBook, SmallMaker};
use std::alloc::Global;
use std::test::Fail;

fn demand(task: u32, amount: u64) -> Report
    requires { amount ≤ MAX_AMOUNT }
    ensures { (tasks links : ℕ) → task < tasks → IsFit tasks links result }
{
    Report {
        reporter: 0,
        target: Target::Task { number: task },
        amount,
    }
}

fn capacity(link: u32, amount: u64) -> Report
    requires { amount ≤ MAX_AMOUNT }
    ensures { (tasks links : ℕ) → link < links → IsFit tasks links result }
{
    Report {
        reporter: 0,
        target: Target::Link { number: link },
        amount,
    }
}

// The book's part of the case "Full log".
#[test]
fn a_book_is_full_at_the_limit(rt: HostRuntime) -> Result<(), Fail> {
    let mut book = DemandBook::new(rt.alloc(), &[100], 1)?;
    let report = demand(0, 80);
    for place in 0..MAX_REPORTS {
        assert_eq!(rt; book.push(report), Ok(place));
    }
    let full = BookError::Full { reports: 4_194_304 };
    assert_eq!(rt; book.push(report), Err(full));
    assert_eq!(rt; book.len(), 4_194_304);
    Ok(())
}

#[test]
fn the_last_report_of_a_prefix_counts(rt: HostRuntime) -> Result<(), Fail> {
    let mut book = DemandBook::new(rt.alloc(), &[100], 2)?;
    book.push(demand(0, 80))?;
    book.push(capacity(0, 60))?;
    book.push(demand(1, 50))?;
    book.push(demand(0, 10))?;
    assert_eq!(rt; book.len(), 4);
    assert_eq!(rt;
        (
            book.demand_after(0, 0),
            book.demand_after(0, 3),
            book.demand_after(0, 4)
        ),
        (0, 80, 10)
    );
    assert_eq!(rt; (book.demand_after(1, 2), book.demand_after(1, 4)), (0, 50));
    assert_eq!(rt;
        (book.capacity_after(0, 1), book.capacity_after(0, 2)),
        (100, 60)
    );
    assert_eq!(rt;
        (book.entry(1), book.entry(4)),
        (Some(capacity(0, 60)), None)
    );
    Ok(())
}

// Shared link's reports, by a maker of which only the traits are known.
#[test]
fn a_small_maker_adds_up_the_demands(rt: HostRuntime) -> Result<(), Fail> {
    let (first, last) = first_and_last(
        rt.alloc(),
        SmallMaker::new(2, 1),
        demand(0, 80),
        demand(1, 80),
    )?;
    assert_eq!(rt; (first.prefix(), first.total()), (0, 0));
    assert_eq!(rt; (last.prefix(), last.limit(1), last.total()), (2, 0, 160));
    let change = first.change_to(rt.alloc(), &last)?;
    let mut copy = first.copy(rt.alloc())?;
    copy.apply(rt.alloc(), &change)?;
    assert_eq!(rt; copy, last);
    Ok(())
}

fn first_and_last<M: Maker>(
    alloc: Global,
    mut maker: M,
    one: Report,
    two: Report,
) -> Result<(M::Table, M::Table), OutOfMemory>
    requires empty { M.absorbed maker [] }
    requires one { IsFit (M.plan_tasks (M.plan maker)) (M.plan_links (M.plan maker)) one }
    requires two { IsFit (M.plan_tasks (M.plan maker)) (M.plan_links (M.plan maker)) two }
    ensures one_plan { IfOk result (λ tables. M.Table.frame tables.0 ≡ M.Table.frame tables.1) }
    ensures tasks { IfOk result (λ tables.
        M.Table.tasks_of (M.Table.frame tables.1) ≡ M.plan_tasks (M.plan maker)) }
{
    let first = maker.table(alloc)?;
    maker.absorb(alloc, one)?;
    maker.absorb(alloc, two)?;
    Ok((first, maker.table(alloc)?))
}
