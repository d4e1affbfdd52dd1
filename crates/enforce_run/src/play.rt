//! Written events, played one by one.

ghost use Rattle.std.specs.Prelude.{◌≡◌, ◌<◌, ◌≤◌, ◌^◌, [], IfOk, OnOk, length, take};
ghost use Rattle.std.specs.List.{All};
ghost use Rattle.bwe_specs.specs.Fit.{IsFit};
ghost use Rattle.bwe_specs.specs.Lists.{lists_of};
ghost use Rattle.enforcer_core.specs.World.{IsMeant, answer_to, world_after};
ghost use Rattle.enforce_run.specs.EventLines.{AreThere};
ghost use Rattle.enforce_run.specs.Playing.{IsIn, IsOnScript, event_in, played_of};

use crate::event::EventLine;
use bwe_specs::{MAX_REPORTS, OutOfMemory, Report};
use demand_book::{Maker, Posted};
use enforcer_core::{World, WorldAnswer, WorldEvent};
use std::alloc::Global;

/// The answers to all events, in order, and the world after them, with the maker's tables of the
/// script's first reports.
pub(crate) fn play<M: Maker>(
    alloc: Global,
    mut maker: M,
    script: &[Report],
    regions: Vec<Vec<u32>>,
    lines: &[EventLine],
) -> Result<(Vec<WorldAnswer>, World<M::Table>), OutOfMemory>
    requires empty { M.absorbed maker [] }
    requires few { length script.now ≤ MAX_REPORTS }
    requires fit { All (IsFit (M.plan_tasks (M.plan maker)) (M.plan_links (M.plan maker)))
        script.now }
    requires tasks { All (λ tasks. All (λ task. task < M.plan_tasks (M.plan maker)) tasks)
        (lists_of regions.items) }
    requires there { AreThere (length regions.items) [] lines.now }
    ensures played { IfOk result (λ played. record { answers = played.0.items; world = played.1 }
        ≡ played_of M.Table.covers M.Table.limit_at (M.table_of (M.plan maker)) script.now
        (lists_of regions.items) lines.now) }
    ensures tasks { IfOk result (λ played. played.1.tasks ≡ lists_of regions.items) }
{
    let first = maker.table(alloc)?;
    let mut world = World::new(alloc, regions, first)?;
    let mut answers = Vec::new(alloc);
    for line in lines {
        answers.push(play_one(alloc, &mut maker, script, &mut world, *line)?)?;
    }
    Ok((answers, world))
}

// One event: its answer, and the world after it.
fn play_one<M: Maker>(
    alloc: Global,
    maker: &mut M,
    script: &[Report],
    world: &mut World<M::Table>,
    line: EventLine,
) -> Result<WorldAnswer, OutOfMemory>
    requires few { length script.now ≤ MAX_REPORTS }
    requires fit { All (IsFit (M.plan_tasks (M.plan maker.old)) (M.plan_links (M.plan maker.old)))
        script.now }
    requires there { IsIn world.old line }
    requires script { IsOnScript M.Table.covers (M.table_of (M.plan maker.old))
        (M.absorbed maker.old) script.now world.old.posted }
    ensures plan { M.plan maker.new ≡ M.plan maker.old }
    ensures answer { IfOk result (λ answer. answer ≡ answer_to M.Table.covers world.old
        (event_in M.Table.covers (M.table_of (M.plan maker.old)) script.now world.old line)) }
    ensures world { OnOk result (world.new ≡ world_after M.Table.covers M.Table.limit_at world.old
        (event_in M.Table.covers (M.table_of (M.plan maker.old)) script.now world.old line)) }
    ensures script { OnOk result
        (IsOnScript M.Table.covers (M.table_of (M.plan maker.old)) (M.absorbed maker.new) script.now
        world.new.posted) }
{
    let event = event_of(alloc, maker, script, world, line)?;
    world.step(alloc, event)
}

// What a written event is in the world; the maker takes in the reports that the table of a post
// covers.
fn event_of<M: Maker>(
    alloc: Global,
    maker: &mut M,
    script: &[Report],
    world: &World<M::Table>,
    line: EventLine,
) -> Result<WorldEvent<M::Table>, OutOfMemory>
    requires few { length script.now ≤ MAX_REPORTS }
    requires fit { All (IsFit (M.plan_tasks (M.plan maker.old)) (M.plan_links (M.plan maker.old)))
        script.now }
    requires there { IsIn world.now line }
    requires script { IsOnScript M.Table.covers (M.table_of (M.plan maker.old))
        (M.absorbed maker.old) script.now world.now.posted }
    ensures plan { M.plan maker.new ≡ M.plan maker.old }
    ensures event { IfOk result (λ event. event
        ≡ event_in M.Table.covers (M.table_of (M.plan maker.old)) script.now world.now line) }
    ensures meant { IfOk result (IsMeant M.Table.frame M.Table.covers world.now) }
    ensures script { IfOk result
        (λ event. IsOnScript M.Table.covers (M.table_of (M.plan maker.old)) (M.absorbed maker.new)
        script.now (world_after M.Table.covers M.Table.limit_at world.now event).posted) }
{
    match line {
        EventLine::Post { upto } => {
            let posted = world.posted().prefix();
            let prefix = upto.max(posted).min(script.len() as u64);
            let table = table_upto(alloc, maker, script, posted, prefix)?;
            Ok(WorldEvent::Post { table })
        }
        EventLine::Send { region } => Ok(WorldEvent::Send { region }),
        EventLine::Deliver { message } => Ok(WorldEvent::Deliver { message }),
        EventLine::Reply { message } => Ok(WorldEvent::Reply { message }),
        EventLine::Restart { region } => Ok(WorldEvent::Restart { region }),
    }
}

// The table of the first reports of the script, of which the maker has taken in some.
fn table_upto<M: Maker>(
    alloc: Global,
    maker: &mut M,
    script: &[Report],
    taken: u64,
    upto: u64,
) -> Result<M::Table, OutOfMemory>
    requires upto { (taken ≤ upto) × (upto ≤ length script.now) }
    requires few { length script.now ≤ MAX_REPORTS }
    requires fit { All (IsFit (M.plan_tasks (M.plan maker.old)) (M.plan_links (M.plan maker.old)))
        script.now }
    requires absorbed { M.absorbed maker.old (take taken script.now) }
    ensures plan { M.plan maker.new ≡ M.plan maker.old }
    ensures absorbed { OnOk result (M.absorbed maker.new (take upto script.now)) }
    ensures table { IfOk result
        (λ table. table ≡ M.table_of (M.plan maker.old) (take upto script.now)) }
{
    for place in taken..upto {
        maker.absorb(alloc, script[place as usize])?;
    }
    maker.table(alloc)
}
