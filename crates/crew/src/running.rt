//! A run from the opening of its board to the end.
ghost use Rattle.std.specs.Prelude.{◌≡◌, ◌≤◌, [], length, IfOk};
ghost use Rattle.board.specs.Plan.{NamesTables};
ghost use Rattle.crew_log.specs.LegalCrewLog.{IsClosed, IsLegalCrewLog};
ghost use Rattle.crew_log.specs.Scripts.{AreOfReporters, reports_in};
ghost use Rattle.crew.specs.Shown.{LogIsShown};

use crate::driving::drive;
use board::{Bases, Opened, Profile};
use bwe_specs::{MAX_READERS, MAX_READS, MAX_REPORTERS, MAX_REPORTS, OutOfMemory, Report};
use crew_actors::Gate;
use crew_log::CrewLog;
use demand_book::{Maker, Posted};
use std::alloc::Global;
use std::marker::Brand;
use std::sync::Wait;
use std::thread::Threads;

/// Opens a board for a maker that has absorbed nothing, runs a reporter for each script, an
/// allocator and so many readers on it, and closes it.
///
/// Each reader makes `reads` reads, and one more at the end, of the history and no more. A report
/// of the script at a place is by the reporter of that number. The board is closed whatever the run
/// came to.
pub fn run_crew<M: Maker + Send, G: Gate + Sync, R: Threads + Wait + Sync>(
    rt: &R,
    alloc: Global,
    maker: M,
    scripts: &[Vec<Report>],
    readers: u32,
    reads: u64,
    gate: &G,
) -> Result<CrewLog<M::Table>, OutOfMemory>
where
    M::Plan: Send + Sync,
    M::Table: Send + Sync,
    <M::Table as Posted>::Frame: Send + Sync,
    <M::Table as Posted>::Change: Send + Sync,
    requires absorbed { M.absorbed maker [] }
    requires few_scripts { length scripts.now ≤ MAX_REPORTERS }
    requires scripts { AreOfReporters (M.plan_tasks (M.plan maker)) (M.plan_links (M.plan maker))
        scripts.now }
    requires room { reports_in scripts.now ≤ MAX_REPORTS }
    requires some_readers { 1 ≤ readers }
    requires few_readers { readers ≤ MAX_READERS }
    requires few_reads { reads ≤ MAX_READS }
    ensures legal { IfOk result (IsLegalCrewLog
        (λ reports table. table ≡ M.table_of (M.plan maker) reports) M.Table.total_of
        (M.plan_tasks (M.plan maker)) (M.plan_links (M.plan maker)) scripts.now readers reads) }
    ensures closed { IfOk result IsClosed }
    // The gate was shown each line of each reader, as its read of that number.
    ensures shown { IfOk result (λ log. LogIsShown G.begins G.shows log.readers.items) }
{
    run_profiled::<M, Brand, G, R>(rt, alloc, maker, scripts, readers, reads, gate)
}

// The run under the name of the maker's plan.
fn run_profiled<
    M: Maker + Send,
    N: Profile<M::Table> + Send + Sync,
    G: Gate + Sync,
    R: Threads + Wait + Sync,
>(
    rt: &R,
    alloc: Global,
    maker: M,
    scripts: &[Vec<Report>],
    readers: u32,
    reads: u64,
    gate: &G,
) -> Result<CrewLog<M::Table>, OutOfMemory>
where
    M::Plan: Send + Sync,
    M::Table: Send + Sync,
    <M::Table as Posted>::Frame: Send + Sync,
    <M::Table as Posted>::Change: Send + Sync,
    requires absorbed { M.absorbed maker [] }
    requires belongs { NamesTables N.belongs (M.table_of (M.plan maker)) }
    requires tasks { M.plan_tasks (M.plan maker) ≡ N.tasks }
    requires links { M.plan_links (M.plan maker) ≡ N.links }
    requires reporters { length scripts.now ≡ N.reporters }
    requires few_scripts { length scripts.now ≤ MAX_REPORTERS }
    requires scripts { AreOfReporters N.tasks N.links scripts.now }
    requires room { reports_in scripts.now ≤ MAX_REPORTS }
    requires some_readers { 1 ≤ readers }
    requires few_readers { readers ≤ MAX_READERS }
    requires few_reads { reads ≤ MAX_READS }
    ensures legal { IfOk result (IsLegalCrewLog N.belongs M.Table.total_of N.tasks N.links
        scripts.now readers reads) }
    ensures closed { IfOk result IsClosed }
    ensures shown { IfOk result (λ log. LogIsShown G.begins G.shows log.readers.items) }
{
    let reporters = scripts.len() as u32;
    let opened: Opened<M, N> = Opened::new(rt, alloc, maker, reporters, readers)?;
    run_opened::<M, N, Brand, G, R>(rt, alloc, opened, scripts, reads, gate)
}

// The run under the names of the bases too.
fn run_opened<
    M: Maker + Send,
    N: Profile<M::Table> + Send + Sync,
    B: Bases + Send + Sync,
    G: Gate + Sync,
    R: Threads + Wait + Sync,
>(
    rt: &R,
    alloc: Global,
    opened: Opened<M, N>,
    scripts: &[Vec<Report>],
    reads: u64,
    gate: &G,
) -> Result<CrewLog<M::Table>, OutOfMemory>
where
    M::Plan: Send + Sync,
    M::Table: Send + Sync,
    <M::Table as Posted>::Frame: Send + Sync,
    <M::Table as Posted>::Change: Send + Sync,
    requires book { opened.book ≡ B.book }
    requires table { opened.table ≡ B.table }
    requires reporters { length scripts.now ≡ N.reporters }
    requires scripts { AreOfReporters N.tasks N.links scripts.now }
    requires room { reports_in scripts.now ≤ MAX_REPORTS }
    requires few_readers { opened.readers ≤ MAX_READERS }
    requires few_reads { reads ≤ MAX_READS }
    ensures legal { IfOk result (IsLegalCrewLog N.belongs M.Table.total_of N.tasks N.links
        scripts.now opened.readers reads) }
    ensures closed { IfOk result IsClosed }
    ensures shown { IfOk result (λ log. LogIsShown G.begins G.shows log.readers.items) }
{
    let (board, reporters, mut readers, mut allocator) = opened.named::<B, R>(rt, alloc)?;
    let log = drive(
        rt,
        alloc,
        &board,
        reporters,
        readers.as_mut_slice(),
        &mut allocator,
        scripts,
        reads,
        gate,
    );
    board.close(rt);
    log
}
