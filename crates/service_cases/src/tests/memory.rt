//! The case "Memory table".
ghost use Rattle.std.specs.Prelude.{◌≡◌, ◌≤◌};

use crate::tests::demand_by;
use crate::tests::maker::TestMaker;
use crate::tests::played::{Case, End, played};
use board::{Bases, Board, Profile, ReaderPass, ReporterPass};
use report_book::SmallTable;
use std::alloc::Global;
use std::process::Abort;
use std::sync::Wait;
use std::test::*;

#[test]
fn each_refusal_of_the_maker_leaves_the_board_usable(rt: HostRuntime) -> Result<(), Fail> {
    let wanted = End {
        acked: 3,
        length: 3,
        covered: 3,
        total: 15,
    };
    for refused in 0..10 {
        let end = played(
            &rt,
            rt.alloc(),
            TestMaker::new(Some(refused), None),
            Case::Memory { refused },
        );
        // The maker's first call is the table that the board opens with.
        assert_eq!(rt; end, if refused == 0 { None } else { Some(wanted) });
    }
    Ok(())
}

// Three reports with a settle after each, of which one may be refused and is then made again.
pub fn settle_three<N: Profile<SmallTable>, B: Bases, R: Wait + Abort>(
    rt: &R,
    alloc: Global,
    board: &Board<TestMaker<'_>, N, B>,
    pass: &mut ReporterPass<B>,
    reader: &mut ReaderPass<SmallTable, N, B>,
    refused: u64,
)
    requires names { (1 ≡ N.reporters) × (2 ≡ N.tasks) × (1 ≡ N.links) }
    requires first { pass.old.number ≡ 0 }
    ensures number { pass.new.number ≡ pass.old.number }
{
    let mut refusals: u64 = 0;
    for reports in 1..4 {
        if settle_again(rt, alloc, board, pass, reader, reports) {
            refusals = refusals.saturating_add(1);
        }
    }
    assert_eq!(rt; refusals, if refused > 0 && refused < 7 { 1 } else { 0 });
}

// Whether the settle after so many reports was refused once.
fn settle_again<N: Profile<SmallTable>, B: Bases, R: Wait + Abort>(
    rt: &R,
    alloc: Global,
    board: &Board<TestMaker<'_>, N, B>,
    pass: &mut ReporterPass<B>,
    reader: &mut ReaderPass<SmallTable, N, B>,
    reports: u64,
) -> bool
    requires names { (1 ≡ N.reporters) × (2 ≡ N.tasks) × (1 ≡ N.links) }
    requires first { pass.old.number ≡ 0 }
    requires some { 1 ≤ reports }
    ensures number { pass.new.number ≡ pass.old.number }
{
    assert_eq!(rt;
        board.report(rt, alloc, pass, &[demand_by(0, 5)]),
        Ok(reports - 1)
    );
    let settled = settled_prefix(rt, alloc, board, pass);
    if settled.is_none() {
        assert_eq!(rt; reader.read(alloc).prefix(), reports - 1);
    }
    assert_eq!(rt;
        (
            settled_prefix(rt, alloc, board, pass),
            reader.read(alloc).prefix()
        ),
        (Some(reports), reports)
    );
    settled.is_none()
}

/// How many reports the acknowledgement of a settle holds, if it is answered.
pub fn settled_prefix<N: Profile<SmallTable>, B: Bases, R: Wait>(
    rt: &R,
    alloc: Global,
    board: &Board<TestMaker<'_>, N, B>,
    pass: &mut ReporterPass<B>,
) -> Option<u64>
    ensures pass { pass.new ≡ pass.old }
{
    match board.settle(rt, alloc, pass) {
        Ok(ack) => Some(ack.prefix()),
        Err(_) => None,
    }
}
