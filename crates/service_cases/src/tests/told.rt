//! The case "Told and untold readers".
ghost use Rattle.std.specs.Prelude.{◌≡◌};

use crate::tests::demand_by;
use crate::tests::maker::TestMaker;
use crate::tests::played::{Case, End, played};
use board::{AllocatorPass, Bases, Board, Profile, ReaderPass, ReporterPass, View};
use bwe_specs::Report;
use report_book::SmallTable;
use std::alloc::Global;
use std::process::Abort;
use std::sync::Wait;
use std::test::*;

#[test]
fn a_told_reader_and_an_untold_one_see_the_report(rt: HostRuntime) -> Result<(), Fail> {
    let end = played(&rt, rt.alloc(), TestMaker::new(None, None), Case::Told);
    let wanted = End {
        acked: 1,
        length: 1,
        covered: 1,
        total: 80,
    };
    assert_eq!(rt; end, Some(wanted));
    Ok(())
}

// A report, its settle, of which one reader is told, and a read of each.
pub fn tell<N: Profile<SmallTable>, B: Bases, R: Wait + Abort>(
    rt: &R,
    alloc: Global,
    board: &Board<TestMaker<'_>, N, B>,
    pass: &mut ReporterPass<B>,
    one: &mut ReaderPass<SmallTable, N, B>,
    other: &mut ReaderPass<SmallTable, N, B>,
    allocator: &mut AllocatorPass<B>,
)
    requires names { (1 ≡ N.reporters) × (2 ≡ N.tasks) × (1 ≡ N.links) }
    requires first { pass.old.number ≡ 0 }
    ensures number { pass.new.number ≡ pass.old.number }
{
    assert_eq!(rt;
        (one.read(alloc).prefix(), other.read(alloc).total()),
        (0, 0)
    );
    let report = demand_by(0, 80);
    assert_eq!(rt; board.report(rt, alloc, pass, &[report]), Ok(0));
    assert_eq!(rt; told(rt, alloc, board, pass, one), (1, true));
    see(rt, &one.read(alloc), report);
    see(rt, &other.read(alloc), report);
    assert_eq!(rt;
        (one.reads(), one.floor(), board.round(rt, alloc, allocator)),
        (2, 1, Ok(1))
    );
    assert_eq!(rt;
        (one.fresh(), one.learnt(), other.fresh(), other.learnt()),
        (2, 1, 2, 0)
    );
}

// How many reports the acknowledgement of a settle holds, and whether the pass and the reader learn
// it.
fn told<N: Profile<SmallTable>, B: Bases, R: Wait>(
    rt: &R,
    alloc: Global,
    board: &Board<TestMaker<'_>, N, B>,
    pass: &mut ReporterPass<B>,
    reader: &mut ReaderPass<SmallTable, N, B>,
) -> (u64, bool)
    ensures number { pass.new.number ≡ pass.old.number }
{
    match board.settle(rt, alloc, pass) {
        Ok(ack) => {
            let learnt = (pass.learn(&ack), reader.learn(alloc, &ack));
            (ack.prefix(), learnt == (Ok(()), Ok(())))
        }
        Err(_) => (0, false),
    }
}

// What a reader is shown after the report of 80.
fn see<N: Profile<SmallTable>, B: Bases, R: Abort>(
    rt: &R,
    view: &View<'_, SmallTable, N, B>,
    report: Report,
)
    requires tasks { 2 ≡ N.tasks }
{
    assert_eq!(rt;
        (view.prefix(), view.log_length(), view.total()),
        (1, 1, 80)
    );
    assert_eq!(rt; (view.limit(1), view.table().total), (0, 80));
    assert_eq!(rt; (view.entry(0), view.entry(1)), (Some(report), None));
}
