//! The cases "Full log" and "Full board".
ghost use Rattle.std.specs.Prelude.{◌≡◌, IfOk};
ghost use Rattle.std.specs.List.{All};

use crate::tests::demand_by;
use crate::tests::maker::TestMaker;
use crate::tests::played::{Case, End, played};
use board::{Bases, Board, Profile, ReportError, ReporterPass};
use bwe_specs::Report;
use report_book::SmallTable;
use std::alloc::{AllocError, Global};
use std::process::Abort;
use std::sync::Wait;
use std::test::*;

#[test]
fn a_full_log_takes_no_piece_of_two_but_one_of_one(rt: HostRuntime) -> Result<(), Fail> {
    let end = played(&rt, rt.alloc(), TestMaker::new(None, None), Case::FullLog);
    let wanted = End {
        acked: 4_194_304,
        length: 4_194_304,
        covered: 4_194_304,
        total: 4_194_304,
    };
    assert_eq!(rt; end, Some(wanted));
    Ok(())
}

pub fn fill_log<N: Profile<SmallTable>, B: Bases, R: Wait + Abort>(
    rt: &R,
    alloc: Global,
    board: &Board<TestMaker<'_>, N, B>,
    pass: &mut ReporterPass<B>,
)
    requires names { (1 ≡ N.reporters) × (2 ≡ N.tasks) × (1 ≡ N.links) }
    requires first { pass.old.number ≡ 0 }
    ensures number { pass.new.number ≡ pass.old.number }
{
    let report = demand_by(0, 1);
    assert_eq!(rt; place_many(rt, alloc, board, pass), Ok(0));
    assert_eq!(rt;
        board.report(rt, alloc, pass, &[report, report]),
        Err(ReportError::Full { held: 4_194_303 })
    );
    assert_eq!(rt; pass.sent(), 4_194_303);
    assert_eq!(rt; board.report(rt, alloc, pass, &[report]), Ok(4_194_303));
    assert_eq!(rt; board.report(rt, alloc, pass, &[]), Ok(4_194_304));
}

// Reports a piece of one report less than a log may have.
fn place_many<N: Profile<SmallTable>, B: Bases, R: Wait>(
    rt: &R,
    alloc: Global,
    board: &Board<TestMaker<'_>, N, B>,
    pass: &mut ReporterPass<B>,
) -> Result<u64, ReportError>
    requires names { (1 ≡ N.reporters) × (2 ≡ N.tasks) × (1 ≡ N.links) }
    requires first { pass.old.number ≡ 0 }
    ensures number { pass.new.number ≡ pass.old.number }
{
    let many = copies_of(alloc, demand_by(0, 1))?;
    board.report(rt, alloc, pass, many.as_slice())
}

fn copies_of(alloc: Global, report: Report) -> Result<Vec<Report>, AllocError>
    ensures copies { IfOk result (λ copies. All (λ copy. copy ≡ report) copies.items) }
{
    let mut copies = Vec::new(alloc);
    for _ in 0..4_194_303 {
        copies.push(report)?;
    }
    Ok(copies)
}
