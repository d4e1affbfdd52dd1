//! Readers of the published pair. None of their calls waits or takes a lock.
ghost use Rattle.std.specs.Prelude.{◌≡◌, ◌+◌, ◌-◌, ◌^◌, ◌<◌, ◌≤◌, ◌↔◌, length, take, max, min, slice_get, IfSome, IsNone, OnOk, OnErr};
ghost use Rattle.std.specs.List.{All};
ghost use mathlib.Core.List.{IsPrefix};
ghost use Rattle.bwe_specs.specs.Fit.{IsFit};
ghost use Rattle.board_core.specs.Core.{IsAllowed};
ghost use Rattle.std.specs.Bool.{OnTrue, OnFalse};
ghost use Rattle.left_right.specs.Sides.{view};
ghost use Rattle.board_pair.specs.Reading.{no_visits};
ghost use Rattle.board_pair.specs.CoreReads.{IsReadStep, IsTellStep, IsToldAndReads};

use crate::ack::{Ack, FinalAck};
use crate::pair::Pair;
use crate::visits::{Enters, Visited, Visits};
use board_log::{Bases, Profile};
use bwe_specs::{OutOfMemory, Report};
use demand_book::Posted;
use left_right::reader::Reader;
use std::alloc::Global;
use std::marker::Model;

type Home<T, N, B> = Reader<Pair<T, N, B>, Visits, Visited>;

/// A reader's pass: a log and the table of the log's first reports, which it shares with the
/// published copy that it took them from, and how often it has read.
///
/// The log is what the pass has seen. How many reports the table covers is its floor.
#[derive(Drop)]
pub struct ReaderPass<T: Posted, N: Profile<T>, B: Bases> {
    // None only while a call has it
    home: Option<Home<T, N, B>>,
    copy: Pair<T, N, B>,
    reads: u64,
    fresh: u64,
    learnt: u64,
}

impl<T: Posted, N: Profile<T>, B: Bases> Model for ReaderPass<T, N, B> {
    ghost use Rattle.std.specs.Prelude.{IsSome};
    ghost use Rattle.left_right.specs.Sides.{view as seat_view};
    ghost use Rattle.board_pair.specs.Reading.{Reading, visits_in};

    ghost Value = { Reading T };

    ghost view = { λ pass. record {
      log = pass.copy.log;
      table = pass.copy.table;
      reads = pass.reads;
      fresh = pass.fresh;
      learnt = pass.learnt;
      visits = visits_in (λ home. seat_view home.place) pass.home;
    } };

    ghost invariant = { λ pass. IsSome pass.home };
}

/// What a read shows: the log and the table of its pass.
#[derive(Drop)]
pub struct View<'a, T: Posted, N: Profile<T>, B: Bases> {
    copy: &'a Pair<T, N, B>,
}

impl<T: Posted, N: Profile<T>, B: Bases> ReaderPass<T, N, B> {
    ghost use Rattle.std.specs.Prelude.{◌≡◌, ◌+◌, ◌-◌, ◌^◌, ◌<◌, ◌≤◌, length, take, min, OnOk, OnErr, ⊤};
    ghost use Rattle.std.specs.Borrow.{sem};
    ghost use Rattle.std.specs.List.{All};
    ghost use mathlib.Core.List.{IsPrefix};
    ghost use mathlib.Core.Option.{none};
    ghost use denote.Follow.{follows_so};
    ghost use Rattle.bwe_specs.specs.Fit.{IsFit};
    ghost use Rattle.board_core.specs.Core.{IsAllowed};
    ghost use Rattle.left_right.specs.Sides.{view};
    ghost use Rattle.board_pair.specs.Reading.{no_visits};
    ghost use Rattle.board_pair.specs.CoreReads.{IsReadStep, IsTellStep, IsToldAndReads};
    ghost use Rattle.board_pair.specs.contracts.reader.ReaderPass.{the_row};

    // A pass that has read nothing yet.
    pub(crate) fn new(home: Home<T, N, B>, copy: Pair<T, N, B>) -> ReaderPass<T, N, B>
        requires home { view home.place ≡ no_visits }
        ensures log { result.log ≡ copy.log }
        ensures table { result.table ≡ copy.table }
        ensures none { (result.reads ≡ 0) × (result.fresh ≡ 0) × (result.learnt ≡ 0) }
        ensures visits { result.visits ≡ no_visits }
    {
        ReaderPass {
            home: Some(home),
            copy,
            reads: 0,
            fresh: 0,
            learnt: 0,
        }
    }

    /// How many reports the table covers that was read or learnt last.
    pub fn floor(&self) -> u64
        ensures floor { result ≡ T.covers self.now.table }
        ensures within { result ≤ length self.now.log }
        ensures table { N.belongs (take result self.now.log) self.now.table }
    {
        self.copy.table().prefix()
    }

    /// How often it has read. It stays at the last value once it is there.
    pub fn reads(&self) -> u64
        ensures reads { result ≡ self.now.reads }
    {
        self.reads
    }

    /// How many of its reads showed all that was posted when they were made. Others could not share
    /// what was newer, or the board was closed. It stays at the last value once it is there.
    pub fn fresh(&self) -> u64
        ensures fresh { result ≡ self.now.fresh }
    {
        self.fresh
    }

    /// How often it was told of an acknowledgement. It stays at the last value once it is there.
    pub fn learnt(&self) -> u64
        ensures learnt { result ≡ self.now.learnt }
    {
        self.learnt
    }

    /// Enters a published copy, brings the pass up to date by what was published since, and shows
    /// what it then has.
    ///
    /// It is never refused. Where what is newer cannot be shared, it shows again what the pass had.
    /// It takes no memory and copies nothing: it shares the log and the table that are published.
    pub fn read(&mut self, _alloc: Global) -> View<'_, T, N, B>
        // The pass has the log and the table that are shown, and one read more. By Core run this is
        // one read, or nothing where what was published could not be taken over.
        ensures* after { sem 𝓛
            (follows_so (the_row T.row N.row B.row T.Frame.row T.Change.row T.Posted
            N.Profile B.Bases) (the_row T.row N.row B.row T.Frame.row T.Change.row T.Posted
            N.Profile B.Bases) self.entry.ghost_name none (λ _ _. ⊤)
            (λ pass. (pass.log ≡ result.copy.now.log) × (pass.table ≡ result.copy.now.table)
            × (pass.reads ≡ min (self.old.reads + 1) (2 ^ 64 - 1))
            × (pass.learnt ≡ self.old.learnt)
            × IsReadStep T.covers T.total_of N.belongs self.old pass)) }
        // Of the headline (docs/DEFINITIONS.md): "a reader's prefixes never fall" ..
        ensures log { IsPrefix self.old.log result.copy.now.log }
        ensures floor { T.covers self.old.table ≤ T.covers result.copy.now.table }
        // .. and what is shown is the table "after a named prefix of one history": of the log's
        // first reports, as many as it covers.
        ensures within { T.covers result.copy.now.table ≤ length result.copy.now.log }
        ensures table { N.belongs (take (T.covers result.copy.now.table) result.copy.now.log)
            result.copy.now.table }
        ensures allowed { All (IsAllowed N.reporters (IsFit N.tasks N.links)) result.copy.now.log }
    {
        self.refresh();
        self.view()
    }

    /// Sees at least what the ack holds: it enters a published copy and brings the pass up to date
    /// where that is needed.
    ///
    /// It costs as `read` does, and nothing where the pass covers the ack already. After a refusal
    /// the pass has the log and the table that it had, and is told of nothing.
    pub fn learn(&mut self, _alloc: Global, ack: &Ack<B>) -> Result<(), OutOfMemory>
        // "That prefix holds all that the reader was told is acknowledged."
        ensures told { OnOk result (IsPrefix ack.now self.new.log) }
        ensures covers { OnOk result (length ack.now ≤ T.covers self.new.table) }
        ensures log { IsPrefix self.old.log self.new.log }
        ensures floor { T.covers self.old.table ≤ T.covers self.new.table }
        ensures learnt { OnOk result (self.new.learnt ≡ min (self.old.learnt + 1) (2 ^ 64 - 1)) }
        ensures copy { OnErr result ((self.new.log ≡ self.old.log)
            × (self.new.table ≡ self.old.table) × (self.new.learnt ≡ self.old.learnt)) }
        ensures reads { (self.new.reads ≡ self.old.reads) × (self.new.fresh ≡ self.old.fresh) }
        // By Core run the reader is told of so many reports, and then reads where it enters.
        ensures run { OnOk result (IsTellStep T.covers T.total_of N.belongs (length ack.now)
            self.old self.new) }
    {
        if self.copy.covers(ack) {
            self.count_told();
            return Ok(());
        }
        self.catch_up(ack)?;
        self.count_told();
        Ok(())
    }

    // Counts an acknowledgement of which it was told.
    fn count_told(&mut self)
        ensures told { self.new ≡ record self.old {
          learnt = min (self.old.learnt + 1)
              (2 ^ 64 - 1);
        } }
    {
        self.learnt = self.learnt.saturating_add(1);
    }

    // Enters a published copy, and takes over what covers the ack.
    fn catch_up(&mut self, ack: &Ack<B>) -> Result<(), OutOfMemory>
        requires behind { T.covers self.old.table < length ack.now }
        ensures told { OnOk result (IsPrefix ack.now self.new.log) }
        ensures covers { OnOk result (length ack.now ≤ T.covers self.new.table) }
        ensures log { IsPrefix self.old.log self.new.log }
        ensures floor { T.covers self.old.table ≤ T.covers self.new.table }
        ensures copy { OnErr result ((self.new.log ≡ self.old.log)
            × (self.new.table ≡ self.old.table)) }
        ensures counts { (self.new.reads ≡ self.old.reads) × (self.new.fresh ≡ self.old.fresh)
            × (self.new.learnt ≡ self.old.learnt) }
        ensures run { OnOk result (IsToldAndReads T.covers T.total_of N.belongs (length ack.now)
            self.old self.new) }
    {
        let Some(reader) = self.home.take() else {
            unreachable!()
        };
        let (reader, learnt) = match reader.enter_as::<Enters>() {
            Ok(reading) => {
                let learnt = self.copy.catch_up_to(reading.get(), ack);
                (reading.leave(), learnt)
            }
            Err(reader) => (reader, Err(OutOfMemory)),
        };
        self.home = Some(reader);
        // The table belongs to the log's first reports.
        let _ = self.floor();
        learnt
    }

    // Enters a published copy, and counts the read.
    fn refresh(&mut self)
        ensures log { IsPrefix self.old.log self.new.log }
        ensures floor { T.covers self.old.table ≤ T.covers self.new.table }
        ensures reads { self.new.reads ≡ min (self.old.reads + 1) (2 ^ 64 - 1) }
        ensures learnt { self.new.learnt ≡ self.old.learnt }
        ensures run { IsReadStep T.covers T.total_of N.belongs self.old self.new }
    {
        let Some(reader) = self.home.take() else {
            unreachable!()
        };
        let (reader, is_fresh) = enter_and_leave(reader, &mut self.copy);
        self.home = Some(reader);
        // The table belongs to the log's first reports.
        let _ = self.floor();
        self.reads = self.reads.saturating_add(1);
        if is_fresh {
            self.fresh = self.fresh.saturating_add(1);
        }
    }

    // What it has.
    fn view(&self) -> View<'_, T, N, B>
        ensures log { result.copy.now.log ≡ self.now.log }
        ensures table { result.copy.now.table ≡ self.now.table }
        ensures within { T.covers self.now.table ≤ length self.now.log }
        ensures belongs { N.belongs (take (T.covers self.now.table) self.now.log) self.now.table }
        ensures allowed { All (IsAllowed N.reporters (IsFit N.tasks N.links)) self.now.log }
    {
        let copy = &self.copy;
        let _ = &copy.log;
        View { copy }
    }
}

// Enters a published copy, takes it over where it is newer, and says whether the own copy then
// covers all that is published.
fn enter_and_leave<T: Posted, N: Profile<T>, B: Bases>(
    reader: Home<T, N, B>,
    copy: &mut Pair<T, N, B>,
) -> (Home<T, N, B>, bool)
    ensures log { IsPrefix copy.old.log copy.new.log }
    ensures floor { T.covers copy.old.table ≤ T.covers copy.new.table }
    ensures visits { OnTrue result.1 ((view result.0.place).count ≡ (view reader.place).count + 1) }
    ensures fresh { OnTrue result.1 (T.covers copy.new.table ≡ max (T.covers copy.old.table)
        (view result.0.place).covers) }
    ensures again { OnFalse result.1 (copy.new ≡ copy.old) }
{
    match reader.enter_as::<Enters>() {
        Ok(reading) => {
            let is_fresh = copy.refresh(reading.get());
            (reading.leave(), is_fresh)
        }
        Err(reader) => (reader, false),
    }
}

impl<'a, T: Posted, N: Profile<T>, B: Bases> View<'a, T, N, B> {
    /// How many reports the table covers.
    pub fn prefix(&self) -> u64
        ensures prefix { result ≡ T.covers self.now.copy.now.table }
        ensures within { result ≤ length self.now.copy.now.log }
        ensures table { N.belongs (take result self.now.copy.now.log) self.now.copy.now.table }
    {
        let copy = self.copy;
        let _ = &copy.log;
        copy.table.prefix()
    }

    /// How many reports the log has that the pass has seen.
    pub fn log_length(&self) -> u64
        ensures length { result ≡ length self.now.copy.now.log }
        ensures covers { T.covers self.now.copy.now.table ≤ result }
    {
        let copy = self.copy;
        copy.log.len() as u64
    }

    /// Shows that the log which the pass has seen is a beginning of the one that has ended.
    pub fn is_within(&self, end: &FinalAck<B>)
        ensures within { IsPrefix self.now.copy.now.log end.now }
    {
        let copy = self.copy;
        copy.is_within(end);
    }

    /// The report at a place of the log, counted from 0.
    pub fn entry(&self, place: u64) -> Option<Report>
        ensures entry { result ≡ slice_get self.now.copy.now.log place }
        ensures none { IsNone result ↔ (length self.now.copy.now.log ≤ place) }
        ensures allowed { IfSome result (IsAllowed N.reporters (IsFit N.tasks N.links)) }
    {
        let copy = self.copy;
        copy.log.get(place as usize).copied()
    }

    /// The limit of a task, in kilobits per second.
    pub fn limit(&self, task: u32) -> u64
        requires task { task < N.tasks }
        ensures limit { result ≡ T.limit_at self.now.copy.now.table task }
    {
        let copy = self.copy;
        let _ = &copy.log;
        copy.table.limit(task)
    }

    /// The table's total, in kilobits per second.
    pub fn total(&self) -> u64
        ensures total { result ≡ T.total_of self.now.copy.now.table }
    {
        self.copy.total()
    }

    /// The table, which belongs to the log's first `prefix` reports.
    pub fn table(&self) -> &T
        ensures table { result.now ≡ self.now.copy.now.table }
        ensures belongs { N.belongs (take (T.covers result.now) self.now.copy.now.log) result.now }
        ensures tasks { T.tasks_of (T.frame result.now) ≡ N.tasks }
    {
        let copy = self.copy;
        &*copy.table
    }
}
