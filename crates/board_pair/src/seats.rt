//! How a desk is opened and its readers are seated.
ghost use Rattle.std.specs.Prelude.{◌≡◌, ◌≤◌, [], length, IfOk};
ghost use Rattle.std.specs.Arc.{arc_value};
ghost use Rattle.std.specs.List.{All};
ghost use Rattle.board_log.specs.Plan.{AreOfOnePlan};
ghost use Rattle.board_pair.specs.Reading.{IsNewReader};

use crate::ack::{Ack, Newest};
use crate::pair::Pair;
use crate::poster::{Desk, Poster};
use crate::reader::ReaderPass;
use board_log::{Bases, Beginning, DeskRight, Profile};
use bwe_specs::OutOfMemory;
use demand_book::Posted;
use std::alloc::Global;
use std::sync::{Arc, Wait};

/// Opens a desk: the published copies of the empty log and its table, a seat for each reader, and
/// the place where the newest acknowledgement is left. All share one copy of the table.
///
/// It takes the one right to do so. So each acknowledgement under the name `B` is of what is posted
/// here, where each reader of that name is seated.
pub fn open_desk<T: Posted, N: Profile<T>, B: Bases, R: Wait>(
    rt: &R,
    alloc: Global,
    readers: u32,
    right: DeskRight<B>,
    known: &Beginning<B>,
    table: &T,
) -> Result<(Desk<T, N, B>, Vec<ReaderPass<T, N, B>>, Newest<B>), OutOfMemory>
    requires readers { 1 ≤ readers }
    requires known { known.now ≡ [] }
    requires covers { T.covers table.now ≡ 0 }
    requires belongs { N.belongs [] table.now }
    requires one_plan { AreOfOnePlan T.frame T.tasks_of N.belongs N.tasks }
    ensures shown { IfOk result (λ desk. T.covers desk.0.shown.table ≡ 0) }
    ensures waiting { IfOk result (λ desk. desk.0.waiting ≡ []) }
    ensures count { IfOk result (λ desk. length desk.1.items ≡ readers) }
    ensures new { IfOk result (λ desk. All (IsNewReader T.covers N.belongs) desk.1.items) }
    ensures left { IfOk result (λ desk. desk.2 ≡ []) }
{
    let shared = Arc::new(alloc, table.copy(alloc)?)?;
    let table = &shared;
    let poster = open_poster(alloc, readers, right, known, table)?;
    match seat_all(alloc, readers, known, table, &poster) {
        Ok(seats) => {
            let newest = Newest::new(Ack::of(&poster));
            Ok((poster, seats, newest))
        }
        Err(error) => {
            poster.take(rt);
            Err(error)
        }
    }
}

fn open_poster<T: Posted, N: Profile<T>, B: Bases>(
    alloc: Global,
    readers: u32,
    right: DeskRight<B>,
    known: &Beginning<B>,
    table: &Arc<T>,
) -> Result<Desk<T, N, B>, OutOfMemory>
    requires readers { 1 ≤ readers }
    requires known { known.now ≡ [] }
    requires covers { T.covers (arc_value table.now) ≡ 0 }
    requires belongs { N.belongs [] (arc_value table.now) }
    requires one_plan { AreOfOnePlan T.frame T.tasks_of N.belongs N.tasks }
    ensures shown { IfOk result (λ poster. T.covers poster.shown.table ≡ 0) }
    ensures log { IfOk result (λ poster. poster.shown.log ≡ []) }
    ensures waiting { IfOk result (λ poster. poster.waiting ≡ []) }
{
    let first: Pair<T, N, B> = Pair::empty(alloc, known.copy(), table)?;
    let second = Pair::empty(alloc, known.copy(), table)?;
    Poster::new(alloc, first, second, readers as usize, right)
}

// So many readers, each with the empty log and its table.
fn seat_all<T: Posted, N: Profile<T>, B: Bases>(
    alloc: Global,
    readers: u32,
    known: &Beginning<B>,
    table: &Arc<T>,
    poster: &Desk<T, N, B>,
) -> Result<Vec<ReaderPass<T, N, B>>, OutOfMemory>
    requires known { known.now ≡ [] }
    requires covers { T.covers (arc_value table.now) ≡ 0 }
    requires belongs { N.belongs [] (arc_value table.now) }
    requires one_plan { AreOfOnePlan T.frame T.tasks_of N.belongs N.tasks }
    ensures count { IfOk result (λ seats. length seats.items ≡ readers) }
    ensures new { IfOk result (λ seats. All (IsNewReader T.covers N.belongs) seats.items) }
{
    let mut seats = Vec::new(alloc);
    for _ in 0..readers {
        let seat = seat(alloc, known, table, poster)?;
        seats.push(seat)?;
    }
    Ok(seats)
}

fn seat<T: Posted, N: Profile<T>, B: Bases>(
    alloc: Global,
    known: &Beginning<B>,
    table: &Arc<T>,
    poster: &Desk<T, N, B>,
) -> Result<ReaderPass<T, N, B>, OutOfMemory>
    requires known { known.now ≡ [] }
    requires covers { T.covers (arc_value table.now) ≡ 0 }
    requires belongs { N.belongs [] (arc_value table.now) }
    requires one_plan { AreOfOnePlan T.frame T.tasks_of N.belongs N.tasks }
    ensures new { IfOk result (IsNewReader T.covers N.belongs) }
{
    let copy = Pair::empty(alloc, known.copy(), table)?;
    let home = poster.reader()?;
    Ok(ReaderPass::new(home, copy))
}
