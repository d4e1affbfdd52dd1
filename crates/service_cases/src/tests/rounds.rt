//! Rounds that no settle goes before, and a reader that nobody tells of them.
ghost use Rattle.std.specs.Prelude.{◌≡◌};

use crate::tests::demand_by;
use crate::tests::maker::TestMaker;
use crate::tests::played::{Case, End, played};
use board::{AllocatorPass, Bases, Board, Profile, ReaderPass, ReporterPass};
use report_book::SmallTable;
use std::alloc::Global;
use std::process::Abort;
use std::sync::Wait;
use std::test::*;

#[test]
fn an_untold_reader_sees_the_table_of_each_round(rt: HostRuntime) -> Result<(), Fail> {
    let end = played(&rt, rt.alloc(), TestMaker::new(None, None), Case::Rounds);
    let wanted = End {
        acked: 10,
        length: 10,
        covered: 10,
        total: 50,
    };
    assert_eq!(rt; end, Some(wanted));
    Ok(())
}

// Ten reports with a round after each.
pub fn round_often<N: Profile<SmallTable>, B: Bases, R: Wait + Abort>(
    rt: &R,
    alloc: Global,
    board: &Board<TestMaker<'_>, N, B>,
    pass: &mut ReporterPass<B>,
    reader: &mut ReaderPass<SmallTable, N, B>,
    allocator: &mut AllocatorPass<B>,
)
    requires names { (1 ≡ N.reporters) × (2 ≡ N.tasks) × (1 ≡ N.links) }
    requires first { pass.old.number ≡ 0 }
    ensures number { pass.new.number ≡ pass.old.number }
{
    for reports in 1..11 {
        assert!(rt; board.report(rt, alloc, pass, &[demand_by(0, 5)]).is_ok());
        assert_eq!(rt; board.round(rt, alloc, allocator), Ok(reports));
        assert_eq!(rt;
            (reader.floor(), reader.read(alloc).prefix()),
            (reports - 1, reports)
        );
    }
    assert_eq!(rt; (allocator.rounds(), allocator.ack().prefix()), (10, 10));
}
