//! The published pair: a log, and the table of some of its first reports.
ghost use Rattle.std.specs.Prelude.{◌≡◌, ◌<◌, ◌≤◌, [], length, take, max, IfOk, OnOk, OnErr};
ghost use Rattle.std.specs.Arc.{arc_value};
ghost use Rattle.std.specs.Bool.{OnTrue, OnFalse};
ghost use Rattle.std.specs.List.{All};
ghost use mathlib.Core.List.{IsPrefix};
ghost use Rattle.bwe_specs.specs.Fit.{IsFit};
ghost use Rattle.board_core.specs.Core.{IsAllowed};
ghost use Rattle.board_log.specs.Plan.{AreOfOnePlan};

use crate::ack::{Ack, FinalAck};
use board_log::{Bases, Beginning, Profile};
use bwe_specs::{OutOfMemory, Report};
use demand_book::Posted;
use left_right::Absorb;
use std::alloc::{AllocError, Global};
use std::collections::LinkedList;
use std::marker::{Model, PhantomData};
use std::sync::Arc;

/// A log, and a table that belongs to its first reports. No value of it is made.
pub struct Posting<T> {
    pub log: LinkedList<Report>,
    pub table: T,
}

/// A log, and the table of its first reports, as many as it covers. Contracts see it as these two.
///
/// A pair that takes over another shares its log and its table, and each is freed with the last
/// pair that has it. The table's total is worked out once, where the table comes in.
#[derive(Drop)]
pub struct Pair<T: Posted, N: Profile<T>, B: Bases> {
    pub(crate) log: Arc<Vec<Report>>,
    pub(crate) table: Arc<T>,
    total: u64,
    known: Beginning<B>,
    of: PhantomData<N>,
}

impl<T: Posted, N: Profile<T>, B: Bases> Model for Pair<T, N, B> {
    ghost use Rattle.std.specs.Arc.{arc_value};
    ghost use Rattle.board_pair.specs.declared.pair.Posting.{Posting};
    ghost use Rattle.board_pair.specs.Pair.{IsPair};

    ghost Value = { Posting T };

    ghost view = { λ pair.
        record { log = (arc_value pair.log).items; table = arc_value pair.table } };

    ghost invariant = { λ pair. IsPair T.covers T.total_of T.frame T.tasks_of N.belongs N.reporters
        N.tasks N.links pair.known (arc_value pair.log).items (arc_value pair.table) pair.total };
}

/// What a post brings: a log, and the table of some of its first reports. Contracts see the pair
/// that it makes.
#[derive(Drop)]
pub struct News<T: Posted, N: Profile<T>, B: Bases> {
    log: Arc<Vec<Report>>,
    table: Arc<T>,
    total: u64,
    known: Beginning<B>,
    of: PhantomData<N>,
}

impl<T: Posted, N: Profile<T>, B: Bases> Model for News<T, N, B> {
    ghost use Rattle.std.specs.Arc.{arc_value};
    ghost use Rattle.board_pair.specs.declared.pair.Posting.{Posting};
    ghost use Rattle.board_pair.specs.Pair.{IsNews};

    ghost Value = { Posting T };

    ghost view = { λ news. record { log = news.known; table = arc_value news.table } };

    ghost invariant = { λ news. IsNews T.covers T.total_of N.belongs N.reporters N.tasks N.links
        (arc_value news.log).items news.known (arc_value news.table) news.total };
}

impl<T: Posted, N: Profile<T>, B: Bases> News<T, N, B> {
    /// The known log and the table of some of its first reports, both of which the published copies
    /// come to share.
    pub fn new(
        alloc: Global,
        log: Vec<Report>,
        table: T,
        known: Beginning<B>,
    ) -> Result<News<T, N, B>, OutOfMemory>
        requires log { log.items ≡ known }
        requires covers { T.covers table ≤ length known }
        requires belongs { N.belongs (take (T.covers table) known) table }
        requires allowed { All (IsAllowed N.reporters (IsFit N.tasks N.links)) known }
        ensures pair { IfOk result (λ news. news ≡ record { log = known; table = table }) }
    {
        let total = table.total();
        let log = Arc::new(alloc, log)?;
        let table = Arc::new(alloc, table)?;
        Ok(News {
            log,
            table,
            total,
            known,
            of: PhantomData,
        })
    }
}

impl<T: Posted, N: Profile<T>, B: Bases> Pair<T, N, B> {
    /// The empty log, and its table, which it shares.
    pub(crate) fn empty(
        alloc: Global,
        known: Beginning<B>,
        table: &Arc<T>,
    ) -> Result<Pair<T, N, B>, OutOfMemory>
        requires known { known ≡ [] }
        requires covers { T.covers (arc_value table.now) ≡ 0 }
        requires belongs { N.belongs [] (arc_value table.now) }
        requires one_plan { AreOfOnePlan T.frame T.tasks_of N.belongs N.tasks }
        ensures pair { IfOk result (λ pair. pair ≡ record {
          log = [];
          table = arc_value table.now;
        }) }
    {
        let log = Arc::new(alloc, Vec::new(alloc))?;
        let total = table.total();
        let table = Arc::try_clone(table)?;
        Ok(Pair {
            log,
            table,
            total,
            known,
            of: PhantomData,
        })
    }

    /// The table, which belongs to the log's first reports.
    pub fn table(&self) -> &T
        ensures table { result.now ≡ self.now.table }
        ensures within { T.covers result.now ≤ length self.now.log }
        ensures belongs { N.belongs (take (T.covers result.now) self.now.log) result.now }
    {
        &*self.table
    }

    /// The table's total, in kilobits per second.
    pub(crate) fn total(&self) -> u64
        ensures total { result ≡ T.total_of self.now.table }
    {
        self.total
    }

    // The reports that the table covers.
    pub(crate) fn covered(&self) -> Beginning<B>
        ensures covered { result ≡ take (T.covers self.now.table) self.now.log }
        ensures length { length result ≡ T.covers self.now.table }
    {
        self.known.first(self.table.prefix())
    }

    // Takes a log, and the table of its first reports, of that total. It shares both.
    fn take_over(
        &mut self,
        log: &Arc<Vec<Report>>,
        known: &Beginning<B>,
        table: &Arc<T>,
        total: u64,
    ) -> Result<(), OutOfMemory>
        requires known { (arc_value log.now).items ≡ known.now }
        requires covers { T.covers (arc_value table.now) ≤ length known.now }
        requires belongs { N.belongs (take (T.covers (arc_value table.now)) known.now)
            (arc_value table.now) }
        requires allowed { All (IsAllowed N.reporters (IsFit N.tasks N.links)) known.now }
        requires total { total ≡ T.total_of (arc_value table.now) }
        ensures ok { OnOk result (self.new ≡ record {
          log = known.now;
          table = arc_value table.now;
        }) }
        ensures refused { OnErr result (self.new ≡ self.old) }
    {
        let log = Arc::try_clone(log)?;
        let table = Arc::try_clone(table)?;
        self.log = log;
        self.table = table;
        self.total = total;
        self.known = known.copy();
        Ok(())
    }

    // Takes over another pair, whose table covers no less. Where the other log is the shorter one it
    // keeps its own, which begins with it.
    #[tactic(auto, using(board_log::proofs::Prefixes::prefix_self, board_log::proofs::Prefixes::prefix_takes, board_log::proofs::Prefixes::prefix_length))]
    fn catch_up(&mut self, later: &Pair<T, N, B>) -> Result<(), OutOfMemory>
        requires later { T.covers self.old.table ≤ T.covers later.now.table }
        ensures table { OnOk result (self.new.table ≡ later.now.table) }
        ensures seen { OnOk result (IsPrefix later.now.log self.new.log) }
        ensures refused { OnErr result (self.new ≡ self.old) }
        ensures log { IsPrefix self.old.log self.new.log }
        ensures floor { T.covers self.old.table ≤ T.covers self.new.table }
    {
        if self.known.begins(&later.known) {
            return self.take_over(&later.log, &later.known, &later.table, later.total);
        }
        self.table = Arc::try_clone(&later.table)?;
        self.total = later.total;
        Ok(())
    }

    /// Takes over the published pair where something was published since, and says whether it then
    /// covers all that is published. Where it is refused it stays as it is.
    ///
    /// Each publish raises what the table covers, so where nothing was published it costs one
    /// comparison.
    pub(crate) fn refresh(&mut self, published: &Pair<T, N, B>) -> bool
        ensures fresh { OnTrue result (T.covers self.new.table ≡ max (T.covers self.old.table)
            (T.covers published.now.table)) }
        ensures again { OnFalse result (self.new ≡ self.old) }
        ensures log { IsPrefix self.old.log self.new.log }
        ensures floor { T.covers self.old.table ≤ T.covers self.new.table }
    {
        if published.table.prefix() <= self.table.prefix() {
            return true;
        }
        self.catch_up(published).is_ok()
    }

    /// Whether the log begins with the ack's, and the table covers all of that.
    pub(crate) fn covers(&self, ack: &Ack<B>) -> bool
        ensures log { OnTrue result (IsPrefix ack.now self.now.log) }
        ensures covers { OnTrue result (length ack.now ≤ T.covers self.now.table) }
        ensures behind { OnFalse result (T.covers self.now.table < length ack.now) }
    {
        ack.prefix() <= self.table.prefix() && ack.known().begins(&self.known)
    }

    /// Shows that the log is a beginning of one that has ended.
    pub(crate) fn is_within(&self, end: &FinalAck<B>)
        ensures within { IsPrefix self.now.log end.now }
    {
        end.holds(&self.known);
    }

    /// Takes over a pair that covers the ack, as this one does not. Another pair is refused.
    #[tactic(auto, using(board_log::proofs::Prefixes::prefix_trans))]
    pub(crate) fn catch_up_to(
        &mut self,
        later: &Pair<T, N, B>,
        ack: &Ack<B>,
    ) -> Result<(), OutOfMemory>
        requires behind { T.covers self.old.table < length ack.now }
        ensures told { OnOk result (IsPrefix ack.now self.new.log) }
        ensures covers { OnOk result (length ack.now ≤ T.covers self.new.table) }
        ensures table { OnOk result (self.new.table ≡ later.now.table) }
        ensures log { IsPrefix self.old.log self.new.log }
        ensures floor { T.covers self.old.table ≤ T.covers self.new.table }
        ensures refused { OnErr result (self.new ≡ self.old) }
    {
        if !later.covers(ack) {
            return Err(OutOfMemory);
        }
        self.catch_up(later)
    }
}

impl<T: Posted, N: Profile<T>, B: Bases> Absorb<News<T, N, B>> for Pair<T, N, B> {
    type State = Posting<T>;

    ghost state = { λ pair. pair };

    ghost applied = { λ before news. news };

    fn absorb_first(
        &mut self,
        news: &News<T, N, B>,
        _other: &Pair<T, N, B>,
    ) -> Result<(), AllocError> {
        match self.take_over(&news.log, &news.known, &news.table, news.total) {
            Ok(()) => Ok(()),
            Err(_) => Err(AllocError),
        }
    }
}
