//! How the actors are run on a board that is there.
ghost use Rattle.std.specs.Prelude.{◌≡◌, ◌+◌, ◌^◌, ◌<◌, ◌≤◌, Ok, length, map, IfOk, IfErr, OnOk};
ghost use Rattle.std.specs.List.{All};
ghost use Rattle.board.specs.declared.refusal.ReportError.TheVariants as refusal;
ghost use Rattle.board.specs.Reading.{IsNewReader};
ghost use Rattle.board.specs.Reporting.{AreFresh};
ghost use Rattle.crew_log.specs.LegalCrewLog.{IsClosed, IsLegalCrewLog};
ghost use Rattle.crew_log.specs.Scripts.{AreOfReporters, reports_in};
ghost use Rattle.crew.specs.Reporters.{AreReady, HasReportedAt, HaveReported, IsReadyAt};
ghost use Rattle.crew.specs.Allocators.{HasMade};
ghost use Rattle.crew.specs.Shown.{HaveShown, HasShownLines, LogIsShown, MayRead};
ghost use Rattle.crew_readers.specs.Readers.{HaveLines, HaveEnded};

use at_once::all_at_once;
use board::{AllocatorPass, Bases, Board, Profile, ReaderPass, ReportError, ReporterPass};
use bwe_specs::{MAX_READS, MAX_REPORTS, OutOfMemory, Report};
use crew_actors::{Gate, make_rounds, report_and_settle};
use crew_log::{CrewLog, ReadLine};
use crew_readers::{end_all, read_lines};
use demand_book::{Maker, Posted};
use std::alloc::Global;
use std::sync::Wait;
use std::thread::Threads;

/// Runs the actors of a board that was just opened, each in a thread of its own, and answers the
/// log of the run.
///
/// Each reporter reports its script and settles, the allocator makes `reads + 1` rounds, and each
/// reader reads `reads` times. When all have ended, each reader learns the acknowledgement of
/// `finish` and reads once more. After a refusal the reporters' passes are gone, and the others
/// have what they had seen by then.
pub fn drive<
    M: Maker + Send,
    N: Profile<M::Table> + Send + Sync,
    B: Bases + Send + Sync,
    G: Gate + Sync,
    R: Threads + Wait + Sync,
>(
    rt: &R,
    alloc: Global,
    board: &Board<M, N, B>,
    reporters: Vec<ReporterPass<B>>,
    readers: &mut [ReaderPass<M::Table, N, B>],
    allocator: &mut AllocatorPass<B>,
    scripts: &[Vec<Report>],
    reads: u64,
    gate: &G,
) -> Result<CrewLog<M::Table>, OutOfMemory>
where
    M::Plan: Send + Sync,
    M::Table: Send + Sync,
    <M::Table as Posted>::Frame: Send + Sync,
    <M::Table as Posted>::Change: Send + Sync,
    // The passes are as the board was opened with them, with a reporter's for each script.
    requires count { length scripts.now ≡ N.reporters }
    requires reporters { length reporters.items ≡ N.reporters }
    requires fresh { AreFresh reporters.items }
    requires few_readers { length readers.old < 2 ^ 32 }
    requires readers { All (IsNewReader M.Table.covers N.belongs) readers.old }
    requires scripts { AreOfReporters N.tasks N.links scripts.now }
    requires room { reports_in scripts.now ≤ MAX_REPORTS }
    requires reads { reads ≤ MAX_READS }
    ensures legal { IfOk result (IsLegalCrewLog N.belongs M.Table.total_of N.tasks N.links
        scripts.now (length readers.old) reads) }
    // No reader's final log is longer than the history.
    ensures closed { IfOk result IsClosed }
    // The allocator has made its rounds.
    ensures rounds { OnOk result (HasMade (reads + 1) allocator.old allocator.new) }
    // What each reader's pass has seen, its floor, and how often it has read.
    ensures passes { IfOk result (λ log. HaveEnded M.Table.covers reads log.history.items
        log.readers.items readers.new) }
    // The gate was shown each line of each reader, as its read of that number.
    ensures shown { IfOk result (λ log. LogIsShown G.begins G.shows log.readers.items) }
{
    let mut reporters = reporters;
    let answers = run_actors(
        rt,
        alloc,
        board,
        scripts,
        reads,
        gate,
        allocator,
        readers,
        reporters.as_mut_slice(),
    )?;
    let sent = sent_of(alloc, reporters.as_slice())?;
    let Ok(ended) = board.finish(rt, alloc, reporters) else {
        return Err(OutOfMemory);
    };
    all_reported(answers.reported.as_slice())?;
    let readers = end_all(alloc, gate, &ended.ack, reads, answers.read, readers)?;
    Ok(CrewLog {
        history: ended.history,
        sent,
        readers,
        table: ended.table,
    })
}

// What the reporters and the readers of a run answered.
#[derive(Drop)]
struct Answers {
    pub reported: Vec<Result<(), ReportError>>,
    pub read: Vec<Result<Vec<ReadLine>, OutOfMemory>>,
}

// All actors at once, each in a thread of its own.
fn run_actors<
    M: Maker + Send,
    N: Profile<M::Table> + Send + Sync,
    B: Bases + Send + Sync,
    G: Gate + Sync,
    R: Threads + Wait + Sync,
>(
    rt: &R,
    alloc: Global,
    board: &Board<M, N, B>,
    scripts: &[Vec<Report>],
    reads: u64,
    gate: &G,
    allocator: &mut AllocatorPass<B>,
    readers: &mut [ReaderPass<M::Table, N, B>],
    reporters: &mut [ReporterPass<B>],
) -> Result<Answers, OutOfMemory>
where
    M::Plan: Send + Sync,
    M::Table: Send + Sync,
    <M::Table as Posted>::Frame: Send + Sync,
    <M::Table as Posted>::Change: Send + Sync,
    requires ready { AreReady N.reporters N.tasks N.links scripts.now reporters.old }
    requires few_readers { length readers.old < 2 ^ 32 }
    requires few_reads { reads ≤ MAX_READS }
    requires readers { All (IsNewReader M.Table.covers N.belongs) readers.old }
    ensures reported { IfOk result (λ answers. HaveReported scripts.now reporters.old
        answers.reported.items reporters.new) }
    ensures read { IfOk result (λ answers. HaveLines M.Table.covers N.belongs M.Table.total_of reads
        answers.read.items readers.new) }
    ensures shown { IfOk result (λ answers. HaveShown G.begins G.shows answers.read.items) }
    ensures rounds { OnOk result (HasMade (reads + 1) allocator.old allocator.new) }
    ensures readers { length readers.new ≡ length readers.old }
{
    let newest = board.newest();
    let report = |number: usize, pass: &mut ReporterPass<B>| -> Result<(), ReportError>
        requires { IsReadyAt N.reporters N.tasks N.links scripts.now number pass.old }
        ensures { HasReportedAt scripts.entry.now number pass.old result pass.new }
    {
        let script = scripts[number].as_slice();
        match report_and_settle(rt, alloc, board, gate, script, pass) {
            Ok(_left) => Ok(()),
            Err(error) => Err(error),
        }
    };
    let read = |number: usize, pass: &mut ReaderPass<M::Table, N, B>| -> Result<
        Vec<ReadLine>,
        OutOfMemory,
    >
        requires { MayRead M.Table.covers N.belongs reads number pass.old }
        ensures { IfOk result (λ read. HasShownLines M.Table.covers N.belongs M.Table.total_of reads
            G.begins G.shows number read.items pass.new) }
    { read_lines(rt, alloc, newest, gate, number as u32, reads, pass) };
    let rounds = |_: usize, pass: &mut AllocatorPass<B>| -> Result<(), OutOfMemory>
        requires { reads ≤ MAX_READS }
        ensures { OnOk result (HasMade (reads + 1) pass.old pass.new) }
    { make_rounds(rt, alloc, board, gate, reads + 1, pass) };
    let (reported, (read, made)) = all_at_once(
        rt, alloc, &report, reporters, &read, readers, &rounds, allocator,
    );
    made?;
    let reported = reported?;
    let read = read?;
    Ok(Answers { reported, read })
}

// How many reports each pass has sent.
fn sent_of<B: Bases>(alloc: Global, passes: &[ReporterPass<B>]) -> Result<Vec<u64>, OutOfMemory>
    ensures sent { IfOk result (λ sent. sent.items ≡ map (λ pass. length pass.own) passes.now) }
{
    let mut sent = Vec::new(alloc);
    for pass in passes {
        sent.push(pass.sent())?;
    }
    Ok(sent)
}

// Whether no call of a reporter was refused. No reporter can have met a full log: it would hold
// more than all scripts.
fn all_reported(answers: &[Result<(), ReportError>]) -> Result<(), OutOfMemory>
    requires never_full { All (λ answer. IfErr answer (λ error. error ≡ refusal.OutOfMemory))
        answers.now }
    ensures ok { OnOk result (All (λ answer. answer ≡ Ok tt) answers.now) }
{
    for answer in answers {
        is_reported(*answer)?;
    }
    Ok(())
}

fn is_reported(answer: Result<(), ReportError>) -> Result<(), OutOfMemory>
    requires never_full { IfErr answer (λ error. error ≡ refusal.OutOfMemory) }
    ensures ok { OnOk result (answer ≡ Ok tt) }
{
    match answer {
        Ok(()) => Ok(()),
        Err(ReportError::OutOfMemory) => Err(OutOfMemory),
        Err(ReportError::Full { .. }) => unreachable!(),
    }
}
