//! Steps of the core: the board as one list and a few numbers.
ghost use Rattle.std.specs.Prelude.{◌≡◌, ◌<◌, ◌≤◌, length, IfOk};
ghost use Rattle.bwe_specs.specs.Fit.{IsFit};
ghost use Rattle.board_core.specs.CoreRun.{IsMeant};

use crate::tests::balky::BalkyMaker;
use board_core::{CoreAnswer, CoreError, CoreEvent, CoreState, Piece};
use bwe_specs::{MAX_AMOUNT, OutOfMemory};
use demand_book::{Maker, Report, Target};
use report_book::SmallMaker;
use std::alloc::Global;
use std::process::Abort;
use std::test::Fail;

// A piece of so many reports of the first task, by the first reporter.
fn reported(alloc: Global, amount: u64, count: usize) -> Result<CoreEvent, OutOfMemory>
    requires { amount ≤ MAX_AMOUNT }
    ensures { IfOk result (IsMeant 1 1 (IsFit 2 1)) }
{
    let report = Report {
        reporter: 0,
        target: Target::Task { number: 0 },
        amount,
    };
    Ok(CoreEvent::Report {
        reporter: 0,
        reports: Piece::new(vec![in alloc; report; count]?),
    })
}

fn seen(prefix: u64, total: u64) -> Result<CoreAnswer, CoreError> {
    Ok(CoreAnswer::Seen { prefix, total })
}

fn posted(prefix: u64) -> Result<CoreAnswer, CoreError> {
    Ok(CoreAnswer::Posted { prefix })
}

// Takes a step of a core with one reporter and one reader, on a plan of two tasks and one link, and
// asserts its answer.
fn answers<M: Maker, R: Abort>(
    rt: &R,
    alloc: Global,
    core: &mut CoreState<M>,
    event: CoreEvent,
    answer: Result<CoreAnswer, CoreError>,
)
    requires sizes { (core.old.reporters ≡ 1) × (length core.old.state.floors ≡ 1) }
    requires plan { (M.plan_tasks (M.plan core.old.maker) ≡ 2)
        × (M.plan_links (M.plan core.old.maker) ≡ 1) }
    requires event { IsMeant 1 1 (IsFit 2 1) event }
    ensures sizes { (core.new.reporters ≡ 1) × (length core.new.state.floors ≡ 1) }
    ensures plan { (M.plan_tasks (M.plan core.new.maker) ≡ 2)
        × (M.plan_links (M.plan core.new.maker) ≡ 1) }
{
    assert_eq!(rt; core.step(alloc, event), answer);
}

// The case "Core walk", with a small maker in place of the allocator: nothing here depends on which
// one it is.
#[test]
fn a_walk_of_the_core_with_a_small_maker(rt: HostRuntime) -> Result<(), Fail> {
    let alloc = rt.alloc();
    let mut core = CoreState::new(alloc, SmallMaker::new(2, 1), 1, 1)?;
    walk(&rt, alloc, &mut core)
}

fn walk<M: Maker, R: Abort>(rt: &R, alloc: Global, core: &mut CoreState<M>) -> Result<(), Fail>
    requires sizes { (core.old.reporters ≡ 1) × (length core.old.state.floors ≡ 1) }
    requires plan { (M.plan_tasks (M.plan core.old.maker) ≡ 2)
        × (M.plan_links (M.plan core.old.maker) ≡ 1) }
{
    let piece = reported(alloc, 80, 1)?;
    answers(rt, alloc, core, piece, Ok(CoreAnswer::Placed { first: 0 }));
    answers(rt, alloc, core, CoreEvent::Read { reader: 0 }, seen(0, 0));
    answers(rt, alloc, core, CoreEvent::Post { upto: 1 }, posted(1));
    let tell = CoreEvent::Tell {
        reader: 0,
        prefix: 1,
    };
    answers(rt, alloc, core, tell, Ok(CoreAnswer::Told { prefix: 1 }));
    answers(rt, alloc, core, CoreEvent::Read { reader: 0 }, seen(1, 80));
    answers(rt, alloc, core, CoreEvent::Post { upto: 0 }, posted(1));
    assert_eq!(rt; (core.log_length(), core.entry(1)), (1, None));
    Ok(())
}

// The case "Full core".
#[test]
fn a_piece_past_the_limit_changes_nothing(rt: HostRuntime) -> Result<(), Fail> {
    let alloc = rt.alloc();
    let mut core = CoreState::new(alloc, SmallMaker::new(2, 1), 1, 1)?;
    fill(&rt, alloc, &mut core)
}

fn fill<M: Maker, R: Abort>(rt: &R, alloc: Global, core: &mut CoreState<M>) -> Result<(), Fail>
    requires sizes { (core.old.reporters ≡ 1) × (length core.old.state.floors ≡ 1) }
    requires plan { (M.plan_tasks (M.plan core.old.maker) ≡ 2)
        × (M.plan_links (M.plan core.old.maker) ≡ 1) }
{
    let piece = reported(alloc, 80, 4_194_303)?;
    answers(rt, alloc, core, piece, Ok(CoreAnswer::Placed { first: 0 }));
    let piece = reported(alloc, 80, 2)?;
    let full = Err(CoreError::Full { held: 4_194_303 });
    answers(rt, alloc, core, piece, full);
    assert_eq!(rt;
        (core.log_length(), core.posted(), core.floor(0)),
        (4_194_303, 0, 0)
    );
    Ok(())
}

// The case "Refused table in the core".
#[test]
fn a_refused_table_leaves_what_was_taken_in(rt: HostRuntime) -> Result<(), Fail> {
    let alloc = rt.alloc();
    let mut core = CoreState::new(alloc, BalkyMaker::new(SmallMaker::new(2, 1)), 1, 1)?;
    refuse(&rt, alloc, &mut core)
}

fn refuse<M: Maker, R: Abort>(rt: &R, alloc: Global, core: &mut CoreState<M>) -> Result<(), Fail>
    requires sizes { (core.old.reporters ≡ 1) × (length core.old.state.floors ≡ 1) }
    requires plan { (M.plan_tasks (M.plan core.old.maker) ≡ 2)
        × (M.plan_links (M.plan core.old.maker) ≡ 1) }
{
    let piece = reported(alloc, 80, 2)?;
    answers(rt, alloc, core, piece, Ok(CoreAnswer::Placed { first: 0 }));
    let post = CoreEvent::Post { upto: 2 };
    answers(rt, alloc, core, post, Err(CoreError::OutOfMemory));
    assert_eq!(rt; (core.posted(), core.taken()), (0, 2));
    answers(rt, alloc, core, CoreEvent::Post { upto: 1 }, posted(2));
    Ok(())
}
