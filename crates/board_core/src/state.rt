//! The state machine.
ghost use Rattle.std.specs.Prelude.{ℕ, ◌≡◌, ◌<◌, ◌≤◌, ◌↔◌, [], List, length, take, slice_get, slice_index, min, max, IfOk, IfSome, OnOk};
ghost use Rattle.std.specs.List.{All};
ghost use Rattle.bwe_specs.specs.declared.report.Report.{Report};
ghost use Rattle.bwe_specs.specs.Fit.{IsFit};
ghost use Rattle.board_core.specs.CoreRun.{first_state, prefix_to_post, told_floor, IsMeant, IsOverfull, Steps};
ghost use Rattle.board_core.specs.Core.{IsAllowed, with_floor};

use crate::event::{CoreAnswer, CoreError, CoreEvent};
use crate::piece::Piece;
use bwe_specs::{MAX_REPORTS, OutOfMemory};
use demand_book::{Maker, Posted, Report};
use std::alloc::Global;
use std::marker::Model;

/// A log of reports, the posted table, the maker, and each reader's floor.
#[derive(Drop)]
pub struct CoreState<M: Maker> {
    maker: M,
    reporters: u32,
    log: Vec<Report>,
    table: M::Table,
    taken: u64,
    floors: Vec<u64>,
}

impl<M: Maker> Model for CoreState<M> {
    ghost use Rattle.std.specs.Prelude.{List};
    ghost use Rattle.bwe_specs.specs.declared.report.Report.{Report};
    ghost use Rattle.bwe_specs.specs.Fit.{IsFit};
    ghost use Rattle.board_core.specs.CoreRun.{State};
    ghost use Rattle.board_core.specs.Core.{Core, IsAllowed, IsKept};

    ghost Value = { Core M };

    ghost view = { λ core. record {
      maker = core.maker;
      reporters = core.reporters;
      state = record {
        log = core.log.items;
        posted = M.Table.covers core.table;
        taken = core.taken;
        floors = core.floors.items;
      };
    } };

    ghost invariant = { λ core. IsKept
        (M.absorbed core.maker)
        (M.table_of (M.plan core.maker))
        (IsAllowed core.reporters
        (IsFit (M.plan_tasks (M.plan core.maker)) (M.plan_links (M.plan core.maker))))
        core.table
        (record {
          log = core.log.items;
          posted = M.Table.covers core.table;
          taken = core.taken;
          floors = core.floors.items;
        }) };
}

impl<M: Maker> CoreState<M> {
    /// The core before any event: the table of the empty list is posted, and each floor is 0.
    pub fn new(
        alloc: Global,
        mut maker: M,
        reporters: u32,
        readers: u32,
    ) -> Result<CoreState<M>, OutOfMemory>
        requires empty { M.absorbed maker [] }
        ensures state { IfOk result (λ core. core.state ≡ first_state readers) }
        ensures reporters { IfOk result (λ core. core.reporters ≡ reporters) }
        ensures plan { IfOk result (λ core. M.plan core.maker ≡ M.plan maker) }
    {
        let table = maker.table(alloc)?;
        Ok(CoreState {
            maker,
            reporters,
            log: Vec::new(alloc),
            table,
            taken: 0,
            floors: vec![in alloc; 0; readers as usize]?,
        })
    }

    /// One event of Core run. Only a report and a post take memory.
    ///
    /// After a post that was refused as memory ran out the maker may have taken in more than the
    /// posted table covers, which a later post then covers too.
    pub fn step(&mut self, alloc: Global, event: CoreEvent) -> Result<CoreAnswer, CoreError>
        requires meant { IsMeant self.old.reporters (length self.old.state.floors)
            (IsFit (M.plan_tasks (M.plan self.old.maker)) (M.plan_links (M.plan self.old.maker)))
            event }
        ensures run { Steps
            (λ reports. M.Table.total_of (M.table_of (M.plan self.old.maker) reports))
            self.old.state event result self.new.state }
        ensures full { (result ≡ Err (CoreError.Full (length self.old.state.log))) ↔ IsOverfull
            self.old.state event }
        ensures plan { M.plan self.new.maker ≡ M.plan self.old.maker }
        ensures reporters { self.new.reporters ≡ self.old.reporters }
        ensures readers { length self.new.state.floors ≡ length self.old.state.floors }
    {
        match event {
            CoreEvent::Report { reporter, reports } => self.report(reporter, &reports),
            CoreEvent::Post { upto } => self.post(alloc, upto),
            CoreEvent::Tell { reader, prefix } => Ok(self.tell(reader, prefix)),
            CoreEvent::Read { reader } => Ok(self.read(reader)),
        }
    }

    // Adds a piece to the log.
    fn report(&mut self, reporter: u32, piece: &Piece) -> Result<CoreAnswer, CoreError>
        requires reporter { reporter < self.old.reporters }
        requires fit { All (λ report. (report.reporter ≡ reporter) × IsFit
            (M.plan_tasks (M.plan self.old.maker)) (M.plan_links (M.plan self.old.maker)) report)
            piece.now }
        ensures run { Steps (λ reports. M.Table.total_of
            (M.table_of (M.plan self.old.maker) reports))
            self.old.state (CoreEvent.Report reporter piece.now) result self.new.state }
        ensures full { (result ≡ Err (CoreError.Full (length self.old.state.log)))
            ↔ IsOverfull self.old.state (CoreEvent.Report reporter piece.now) }
        ensures maker { self.new.maker ≡ self.old.maker }
        ensures floors { self.new.state.floors ≡ self.old.state.floors }
        ensures reporters { self.new.reporters ≡ self.old.reporters }
    {
        let held = self.log.len() as u64;
        let reports = piece.as_slice();
        if reports.len() as u64 > MAX_REPORTS - held {
            return Err(CoreError::Full { held });
        }
        self.log.extend_from_slice(reports)?;
        Ok(CoreAnswer::Placed { first: held })
    }

    // Makes and posts the table of the first reports, as many as asked for, or as the maker has
    // taken in.
    fn post(&mut self, alloc: Global, upto: u64) -> Result<CoreAnswer, CoreError>
        ensures run { Steps (λ reports. M.Table.total_of
            (M.table_of (M.plan self.old.maker) reports))
            self.old.state (CoreEvent.Post upto) result self.new.state }
        ensures plan { M.plan self.new.maker ≡ M.plan self.old.maker }
        ensures floors { self.new.state.floors ≡ self.old.state.floors }
        ensures reporters { self.new.reporters ≡ self.old.reporters }
    {
        let prefix = upto.max(self.taken).min(self.log.len() as u64);
        absorb_upto(
            alloc,
            &mut self.maker,
            &mut self.taken,
            self.log.as_slice(),
            prefix,
        )?;
        self.table = self.maker.table(alloc)?;
        Ok(CoreAnswer::Posted { prefix })
    }

    // Raises a reader's floor to what it is told, but not past the posted table.
    fn tell(&mut self, reader: u32, prefix: u64) -> CoreAnswer
        requires reader { reader < length self.old.state.floors }
        ensures answer { result ≡ CoreAnswer.Told (told_floor self.old.state reader prefix) }
        ensures core { self.new ≡ with_floor self.old reader
            (told_floor self.old.state reader prefix) }
    {
        let floor = self.floors[reader as usize].max(prefix.min(self.table.prefix()));
        self.floors[reader as usize] = floor;
        CoreAnswer::Told { prefix: floor }
    }

    // Shows the posted table to a reader.
    fn read(&mut self, reader: u32) -> CoreAnswer
        requires reader { reader < length self.old.state.floors }
        ensures answer { result ≡ CoreAnswer.Seen self.old.state.posted
            (M.Table.total_of
            (M.table_of (M.plan self.old.maker)
            (take self.old.state.posted self.old.state.log))) }
        ensures core { self.new ≡ with_floor self.old reader self.old.state.posted }
    {
        let prefix = self.table.prefix();
        self.floors[reader as usize] = prefix;
        CoreAnswer::Seen {
            prefix,
            total: self.table.total(),
        }
    }

    /// How many reports the log has.
    pub fn log_length(&self) -> u64
        ensures { result ≡ length self.now.state.log }
    {
        self.log.len() as u64
    }

    /// The report at an index of the log.
    pub fn entry(&self, place: u64) -> Option<Report>
        ensures report { result ≡ slice_get self.now.state.log place }
        ensures allowed { IfSome result (IsAllowed self.now.reporters
            (IsFit (M.plan_tasks (M.plan self.now.maker)) (M.plan_links (M.plan self.now.maker)))) }
    {
        self.log.get(place as usize).copied()
    }

    /// How many reports the posted table covers.
    pub fn posted(&self) -> u64
        ensures posted { result ≡ self.now.state.posted }
        ensures within { result ≤ self.now.state.taken }
    {
        self.table.prefix()
    }

    /// How many reports the maker has taken in: as many as are posted, but for a post that was
    /// refused.
    pub fn taken(&self) -> u64
        ensures taken { result ≡ self.now.state.taken }
        ensures within { result ≤ length self.now.state.log }
    {
        self.taken
    }

    /// The reader's floor: it is shown no table of fewer reports.
    pub fn floor(&self, reader: u32) -> u64
        requires reader { reader < length self.now.state.floors }
        ensures floor { result ≡ slice_index self.now.state.floors reader }
        ensures within { result ≤ self.now.state.posted }
    {
        self.floors[reader as usize]
    }
}

// Lets the maker take in the first reports of the log, up to a number.
fn absorb_upto<M: Maker>(
    alloc: Global,
    maker: &mut M,
    taken: &mut u64,
    log: &[Report],
    upto: u64,
) -> Result<(), OutOfMemory>
    requires upto { (taken.old ≤ upto) × (upto ≤ length log.now) }
    requires absorbed { M.absorbed maker.old (take taken.old log.now) }
    requires room { length log.now ≤ MAX_REPORTS }
    requires fit { All (IsFit (M.plan_tasks (M.plan maker.old)) (M.plan_links (M.plan maker.old)))
        log.now }
    ensures plan { M.plan maker.new ≡ M.plan maker.old }
    ensures absorbed { M.absorbed maker.new (take taken.new log.now) }
    ensures taken { (taken.old ≤ taken.new) × (taken.new ≤ upto) }
    ensures all { OnOk result (taken.new ≡ upto) }
{
    while *taken < upto {
        maker.absorb(alloc, log[*taken as usize])?;
        *taken += 1;
    }
    Ok(())
}
