//! A board of one reporter and two readers over a small maker, and what is played on it.
ghost use Rattle.std.specs.Prelude.{◌≡◌, [], length};
ghost use Rattle.board.specs.Plan.{NamesTables};
ghost use Rattle.board.specs.Reporting.{AreFresh, AreInOrder};
ghost use Rattle.report_book.specs.Small.{HasSummed, small_table};

use crate::tests::full_log::fill_log;
use crate::tests::maker::TestMaker;
use crate::tests::memory::settle_three;
use crate::tests::rounds::round_often;
use crate::tests::told::tell;
use board::{AllocatorPass, Bases, Board, Ended, Opened, Profile, ReaderPass, ReporterPass};
use bwe_specs::OutOfMemory;
use demand_book::Maker;
use report_book::{SmallMaker, SmallTable};
use std::alloc::Global;
use std::marker::Brand;
use std::process::Abort;
use std::sync::Wait;
use std::test::*;

/// What is played.
#[derive(Clone, Copy)]
pub enum Case {
    Told,
    Rounds,
    FullLog,
    /// The maker refuses the call of this number.
    Memory { refused: u64 },
}

/// How many reports the acknowledgement, the log and the table of the end have, and the table's
/// total.
#[derive(Clone, Copy, Debug, PartialEq, Eq)]
pub struct End {
    pub acked: u64,
    pub length: u64,
    pub covered: u64,
    pub total: u64,
}

/// Plays a case on a board that is opened for it, and answers how that ended, `None` where it could
/// not be opened.
pub fn played<R: Wait + Abort>(
    rt: &R,
    alloc: Global,
    maker: TestMaker<'_>,
    case: Case,
) -> Option<End>
    requires plan { ⟦<SmallMaker as Maker>⟧.plan maker.inner ≡ (2, 1) }
    requires empty { HasSummed maker.inner [] }
{
    on_profile::<Brand, R>(rt, alloc, maker, case)
}

fn on_profile<N: Profile<SmallTable>, R: Wait + Abort>(
    rt: &R,
    alloc: Global,
    maker: TestMaker<'_>,
    case: Case,
) -> Option<End>
    requires plan { ⟦<SmallMaker as Maker>⟧.plan maker.inner ≡ (2, 1) }
    requires empty { HasSummed maker.inner [] }
    requires belongs { NamesTables N.belongs (small_table 2) }
    requires names { (1 ≡ N.reporters) × (2 ≡ N.tasks) × (1 ≡ N.links) }
{
    let opened: Result<Opened<TestMaker<'_>, N>, OutOfMemory> = Opened::new(rt, alloc, maker, 1, 2);
    match opened {
        Ok(opened) => on_bases::<N, Brand, R>(rt, alloc, opened, case),
        Err(_) => None,
    }
}

fn on_bases<N: Profile<SmallTable>, B: Bases, R: Wait + Abort>(
    rt: &R,
    alloc: Global,
    opened: Opened<TestMaker<'_>, N>,
    case: Case,
) -> Option<End>
    requires bases { (opened.book ≡ B.book) × (opened.table ≡ B.table) }
    requires readers { opened.readers ≡ 2 }
    requires names { (1 ≡ N.reporters) × (2 ≡ N.tasks) × (1 ≡ N.links) }
{
    let Ok((board, mut reporters, mut readers, mut allocator)) = opened.named::<B, R>(rt, alloc)
    else {
        return None;
    };
    play(
        rt,
        alloc,
        &board,
        &mut reporters,
        readers.as_mut_slice(),
        &mut allocator,
        case,
    );
    let end = finished(rt, alloc, &board, reporters, case);
    board.close(rt);
    end
}

fn play<N: Profile<SmallTable>, B: Bases, R: Wait + Abort>(
    rt: &R,
    alloc: Global,
    board: &Board<TestMaker<'_>, N, B>,
    reporters: &mut Vec<ReporterPass<B>>,
    readers: &mut [ReaderPass<SmallTable, N, B>],
    allocator: &mut AllocatorPass<B>,
    case: Case,
)
    requires names { (1 ≡ N.reporters) × (2 ≡ N.tasks) × (1 ≡ N.links) }
    requires reporters { (length reporters.old.items ≡ 1) × AreFresh reporters.old.items }
    requires readers { length readers.old ≡ 2 }
    ensures { (length reporters.new.items ≡ 1) × AreInOrder reporters.new.items }
{
    let pass = &mut reporters[0];
    let (one, other) = readers.split_at_mut(1);
    play_with(
        rt,
        alloc,
        board,
        pass,
        &mut one[0],
        &mut other[0],
        allocator,
        case,
    );
}

fn play_with<N: Profile<SmallTable>, B: Bases, R: Wait + Abort>(
    rt: &R,
    alloc: Global,
    board: &Board<TestMaker<'_>, N, B>,
    pass: &mut ReporterPass<B>,
    one: &mut ReaderPass<SmallTable, N, B>,
    other: &mut ReaderPass<SmallTable, N, B>,
    allocator: &mut AllocatorPass<B>,
    case: Case,
)
    requires names { (1 ≡ N.reporters) × (2 ≡ N.tasks) × (1 ≡ N.links) }
    requires first { pass.old.number ≡ 0 }
    ensures number { pass.new.number ≡ pass.old.number }
{
    match case {
        Case::Told => tell(rt, alloc, board, pass, one, other, allocator),
        Case::Rounds => round_often(rt, alloc, board, pass, one, allocator),
        Case::FullLog => fill_log(rt, alloc, board, pass),
        Case::Memory { refused } => settle_three(rt, alloc, board, pass, one, refused),
    }
}

// The end, which is refused once where the maker refuses its call 7, the first that no settle
// makes.
fn finished<N: Profile<SmallTable>, B: Bases, R: Wait + Abort>(
    rt: &R,
    alloc: Global,
    board: &Board<TestMaker<'_>, N, B>,
    passes: Vec<ReporterPass<B>>,
    case: Case,
) -> Option<End>
    requires count { length passes.items ≡ N.reporters }
    requires order { AreInOrder passes.items }
{
    match board.finish(rt, alloc, passes) {
        Ok(ended) => Some(end_of(&ended)),
        Err(refused) => {
            assert!(rt; matches!(case, Case::Memory { refused: 7 }));
            finished_again(rt, alloc, board, refused.passes)
        }
    }
}

fn finished_again<N: Profile<SmallTable>, B: Bases, R: Wait>(
    rt: &R,
    alloc: Global,
    board: &Board<TestMaker<'_>, N, B>,
    passes: Vec<ReporterPass<B>>,
) -> Option<End>
    requires count { length passes.items ≡ N.reporters }
    requires order { AreInOrder passes.items }
{
    match board.finish(rt, alloc, passes) {
        Ok(ended) => Some(end_of(&ended)),
        Err(_) => None,
    }
}

fn end_of<B: Bases>(ended: &Ended<SmallTable, B>) -> End {
    End {
        acked: ended.ack.prefix(),
        length: ended.length,
        covered: ended.table.prefix,
        total: ended.table.total,
    }
}
