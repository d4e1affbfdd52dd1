//! The case "Solve beside a report".
ghost use Rattle.std.specs.Prelude.{◌≡◌, [], length, IfSome};
ghost use Rattle.board.specs.Plan.{NamesTables};
ghost use Rattle.board.specs.Reporting.{AreFresh};
ghost use Rattle.report_book.specs.Small.{HasSummed, small_table};

use crate::tests::demand_by;
use crate::tests::maker::{Meeting, TestMaker};
use crate::tests::memory::settled_prefix;
use board::{Bases, Board, Opened, Profile, ReaderPass, ReporterPass};
use bwe_specs::OutOfMemory;
use demand_book::Maker;
use report_book::{SmallMaker, SmallTable};
use std::alloc::Global;
use std::marker::Brand;
use std::sync::Wait;
use std::sync::atomic::Ordering;
use std::test::*;
use std::thread::{Threads, join};

// How often the case is played.
const RUNS: u64 = 100;

#[test]
fn a_report_is_answered_while_a_table_is_made(rt: HostRuntime) -> Result<(), Fail> {
    for _ in 0..RUNS {
        assert_eq!(rt; meet(&rt, rt.alloc()), (Some((Some(1), Some(2))), 0));
    }
    Ok(())
}

// What the settles of two reporters hold, where the first one's table waits for the second one's
// report; and how many waits ran out of turns.
fn meet<R: Wait + Threads + Sync>(
    rt: &R,
    alloc: Global,
) -> (Option<(Option<u64>, Option<u64>)>, u64) {
    let meeting = Meeting::new();
    let maker = TestMaker::new(None, Some(&meeting));
    let settled = on_profile::<Brand, R>(rt, alloc, maker, &meeting);
    (settled, meeting.missed.load(Ordering::SeqCst))
}

fn on_profile<N: Profile<SmallTable> + Send + Sync, R: Wait + Threads + Sync>(
    rt: &R,
    alloc: Global,
    maker: TestMaker<'_>,
    meeting: &Meeting,
) -> Option<(Option<u64>, Option<u64>)>
    requires plan { ⟦<SmallMaker as Maker>⟧.plan maker.inner ≡ (2, 1) }
    requires empty { HasSummed maker.inner [] }
    requires belongs { NamesTables N.belongs (small_table 2) }
    requires names { (2 ≡ N.reporters) × (2 ≡ N.tasks) × (1 ≡ N.links) }
{
    let opened: Result<Opened<TestMaker<'_>, N>, OutOfMemory> = Opened::new(rt, alloc, maker, 2, 1);
    match opened {
        Ok(opened) => on_bases::<N, Brand, R>(rt, alloc, opened, meeting),
        Err(_) => None,
    }
}

fn on_bases<N: Profile<SmallTable> + Send + Sync, B: Bases + Send + Sync, R: Wait + Threads + Sync>(
    rt: &R,
    alloc: Global,
    opened: Opened<TestMaker<'_>, N>,
    meeting: &Meeting,
) -> Option<(Option<u64>, Option<u64>)>
    requires bases { (opened.book ≡ B.book) × (opened.table ≡ B.table) }
    requires names { (2 ≡ N.reporters) × (2 ≡ N.tasks) × (1 ≡ N.links) }
{
    let Ok((board, reporters, readers, _)) = opened.named::<B, R>(rt, alloc) else {
        return None;
    };
    let settled = settle_beside(rt, alloc, &board, meeting, reporters, readers);
    board.close(rt);
    settled
}

// The first thread reports and settles. The other, which has a reader too, reports meanwhile and
// then settles.
fn settle_beside<
    N: Profile<SmallTable> + Send + Sync,
    B: Bases + Send + Sync,
    R: Wait + Threads + Sync,
>(
    rt: &R,
    alloc: Global,
    board: &Board<TestMaker<'_>, N, B>,
    meeting: &Meeting,
    reporters: Vec<ReporterPass<B>>,
    readers: Vec<ReaderPass<SmallTable, N, B>>,
) -> Option<(Option<u64>, Option<u64>)>
    requires names { (2 ≡ N.reporters) × (2 ≡ N.tasks) × (1 ≡ N.links) }
    requires reporters { (length reporters.items ≡ 2) × AreFresh reporters.items }
{
    let Some((first, second)) = both_of(reporters) else {
        return None;
    };
    let settled = join(
        rt,
        move || -> Option<u64>
            requires { (2 ≡ N.reporters) × (2 ≡ N.tasks) × (1 ≡ N.links) × (first.number ≡ 0) }
        { report_and_settle(rt, alloc, board, first) },
        move || -> Option<u64>
            requires { (2 ≡ N.reporters) × (2 ≡ N.tasks) × (1 ≡ N.links) × (second.number ≡ 1) }
        { report_meanwhile(rt, alloc, board, meeting, second, readers) },
    );
    Some(settled)
}

// The passes of both reporters.
fn both_of<B: Bases>(passes: Vec<ReporterPass<B>>) -> Option<(ReporterPass<B>, ReporterPass<B>)>
    requires passes { (length passes.items ≡ 2) × AreFresh passes.items }
    ensures first { IfSome result (λ both. both.0.number ≡ 0) }
    ensures second { IfSome result (λ both. both.1.number ≡ 1) }
{
    let mut passes = passes;
    let (Some(second), Some(first)) = (passes.pop(), passes.pop()) else {
        return None;
    };
    Some((first, second))
}

fn report_and_settle<N: Profile<SmallTable>, B: Bases, R: Wait>(
    rt: &R,
    alloc: Global,
    board: &Board<TestMaker<'_>, N, B>,
    mut pass: ReporterPass<B>,
) -> Option<u64>
    requires names { (2 ≡ N.reporters) × (2 ≡ N.tasks) × (1 ≡ N.links) × (pass.number ≡ 0) }
{
    let _ = board.report(rt, alloc, &mut pass, &[demand_by(0, 5)]);
    settled_prefix(rt, alloc, board, &mut pass)
}

fn report_meanwhile<N: Profile<SmallTable>, B: Bases, R: Wait>(
    rt: &R,
    alloc: Global,
    board: &Board<TestMaker<'_>, N, B>,
    meeting: &Meeting,
    mut pass: ReporterPass<B>,
    mut readers: Vec<ReaderPass<SmallTable, N, B>>,
) -> Option<u64>
    requires names { (2 ≡ N.reporters) × (2 ≡ N.tasks) × (1 ≡ N.links) × (pass.number ≡ 1) }
{
    meeting.wait_for(&meeting.begun);
    let _ = board.report(rt, alloc, &mut pass, &[demand_by(1, 7)]);
    meeting.answered.store(1, Ordering::SeqCst);
    for reader in &mut readers {
        read_often(alloc, reader);
    }
    settled_prefix(rt, alloc, board, &mut pass)
}

// A read takes no handle, so it takes no lock.
fn read_often<N: Profile<SmallTable>, B: Bases>(
    alloc: Global,
    reader: &mut ReaderPass<SmallTable, N, B>,
) {
    for _ in 0..100 {
        let _ = reader.read(alloc);
    }
}
