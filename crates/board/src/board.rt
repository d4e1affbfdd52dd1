//! The board: what threads call.
ghost use Rattle.std.specs.Prelude.{◌≡◌, ◌+◌, ◌-◌, ◌^◌, ◌≤◌, ◌++◌, length, drop, min, IfOk, IfErr, OnOk, OnErr};
ghost use Rattle.std.specs.List.{All, sum_by};
ghost use mathlib.Core.List.{IsPrefix};
ghost use Rattle.board_log.specs.Laws.{StandIn};
ghost use Rattle.board_log.specs.Roll.{IsBy, placed, own_of};
ghost use Rattle.bwe_specs.specs.Fit.{IsFit};
ghost use Rattle.board_core.specs.Core.{IsAllowed};
ghost use Rattle.board.specs.Refusals.{IsRefusalAt};
ghost use Rattle.board.specs.Reporting.{AreInOrder};

use crate::allocator::AllocatorPass;
use crate::ended::{Ended, FinishRefused};
use crate::refusal::ReportError;
use crate::reporter::ReporterPass;
use crate::steps::LogState;
use board_log::{Bases, Beginning};
use board_pair::{Ack, Newest, NewestAck, Profile};
use board_workshop::Workshop;
use bwe_specs::{MAX_REPORTS, OutOfMemory, Report};
use demand_book::Maker;
use std::alloc::Global;
use std::sync::{Mutex, Wait};

/// A log under a lock, whose tables are published. End it by `close`, which waits for the readers.
///
/// A call answers `OutOfMemory` also where one log does not begin with another. In a run each does,
/// but no clause says so.
pub struct Board<M: Maker, N: Profile<M::Table>, B: Bases> {
    // Where tables are made. This lock is taken before the log lock, and never inside it.
    shop: Mutex<Workshop<M, N, B>>,
    state: Mutex<LogState<M, N, B>>,
    // This lock is taken while no other is.
    newest: NewestAck<B>,
}

impl<M: Maker, N: Profile<M::Table>, B: Bases> Board<M, N, B> {
    pub(crate) fn new(
        shop: Workshop<M, N, B>,
        state: LogState<M, N, B>,
        newest: Newest<B>,
    ) -> Board<M, N, B> {
        Board {
            shop: Mutex::new(shop),
            state: Mutex::new(state),
            newest: Mutex::new(newest),
        }
    }

    /// Where the newest acknowledgement is left for readers. A board has one such place.
    pub fn newest(&self) -> &NewestAck<B> {
        &self.newest
    }

    /// Adds the reports of a pass at the end of the log, and answers the place of the first.
    ///
    /// All of them enter at one step, or none does. Whether the log has room is looked at before
    /// memory can run out. Its time grows with the piece and not with the log. It waits for the log
    /// lock alone.
    pub fn report<R: Wait>(
        &self,
        rt: &R,
        alloc: Global,
        pass: &mut ReporterPass<B>,
        reports: &[Report],
    ) -> Result<u64, ReportError>
        requires by { All (IsBy pass.old.number) reports.now }
        requires allowed { All (IsAllowed N.reporters (IsFit N.tasks N.links)) reports.now }
        // The pass has seen a longer log, where the piece stands from the answered place on.
        ensures number { pass.new.number ≡ pass.old.number }
        ensures seen { IsPrefix pass.old.seen pass.new.seen }
        ensures placed { IfOk result (λ first. drop first pass.new.seen ≡ reports.now) }
        // That log ends with the piece.
        ensures ends { IfOk result (λ first. first + length reports.now ≡ length pass.new.seen) }
        // Its own list grows by the piece, and is then all of its number in that log.
        ensures own { IfOk result (λ first. pass.new.own ≡ pass.old.own ++ placed pass.old.number
            first reports.now) }
        ensures exact { OnOk result (pass.new.own ≡ own_of pass.old.number pass.new.seen) }
        // Full is answered just where the log has no room, and the pass has then seen that log.
        ensures room { OnOk result (length pass.new.seen ≤ MAX_REPORTS) }
        ensures refused { IfErr result (IsRefusalAt pass.new.seen (length reports.now)) }
        ensures kept { OnErr result (pass.new.own ≡ pass.old.own) }
    {
        self.state.lock(rt).append(alloc, pass, reports)
    }

    /// An acknowledgement that holds all that the pass has seen, and so each of its reports: a
    /// table of all these has been posted.
    ///
    /// Where no posted table covers that, it makes and posts one.
    pub fn settle<R: Wait>(
        &self,
        rt: &R,
        alloc: Global,
        pass: &mut ReporterPass<B>,
    ) -> Result<Ack<B>, OutOfMemory>
        ensures pass { pass.new ≡ pass.old }
        ensures seen { IfOk result (λ ack. IsPrefix pass.old.seen ack) }
        ensures own { IfOk result (λ ack. StandIn ack pass.old.own) }
    {
        self.ack_of(rt, alloc, &pass.known)
    }

    /// Posts the table of the log as it stands, and answers how many reports the posted table
    /// covers. The pass then has the acknowledgement of these.
    ///
    /// Where a table was posted that covers the whole log it makes none. The log lock is free while
    /// a table is made.
    pub fn round<R: Wait>(
        &self,
        rt: &R,
        alloc: Global,
        pass: &mut AllocatorPass<B>,
    ) -> Result<u64, OutOfMemory>
        ensures seen { IsPrefix pass.old.posted pass.new.posted }
        ensures prefix { IfOk result (λ prefix. prefix ≡ length pass.new.posted) }
        ensures floor { IfOk result (λ prefix. length pass.old.posted ≤ prefix) }
        ensures rounds { OnOk result (pass.new.rounds ≡ min (pass.old.rounds + 1) (2 ^ 64 - 1)) }
        ensures refused { OnErr result (pass.new ≡ pass.old) }
    {
        let posted = self.newest_ack(rt, alloc, pass.ack().known())?;
        pass.count(posted);
        Ok(pass.ack().prefix())
    }

    /// Ends the log, and gives the whole of it and the table of it, which has then been posted. It
    /// takes the passes of all reporters, in the order of their numbers.
    ///
    /// The acknowledgement is that of a log that has ended: what any pass saw or will see of the
    /// log is a beginning of it.
    pub fn finish<R: Wait>(
        &self,
        rt: &R,
        alloc: Global,
        passes: Vec<ReporterPass<B>>,
    ) -> Result<Ended<M::Table, B>, FinishRefused<B>>
        requires count { length passes.items ≡ N.reporters }
        requires order { AreInOrder passes.items }
        // The acknowledgement has the whole log: each pass's own list, and nothing else. It begins
        // with all that each pass had seen.
        ensures history { IfOk result (λ ended. ended.history.items ≡ ended.ack) }
        ensures seen { IfOk result (λ ended. All (λ pass. IsPrefix pass.seen ended.ack)
            passes.items) }
        ensures length { IfOk result (λ ended. ended.length ≡ length ended.ack) }
        ensures sent { IfOk result (λ ended. ended.length ≡ sum_by (λ pass. length pass.own)
            passes.items) }
        ensures exact { IfOk result (λ ended. All (λ pass. pass.own ≡ own_of pass.number ended.ack)
            passes.items) }
        ensures allowed { IfOk result (λ ended. All (IsAllowed N.reporters (IsFit N.tasks N.links))
            ended.ack) }
        // The table is that of the whole log.
        ensures covers { IfOk result (λ ended. M.Table.covers ended.table ≡ ended.length) }
        ensures table { IfOk result (λ ended. N.belongs ended.ack ended.table) }
        ensures refused { IfErr result (λ refused. refused.passes.items ≡ passes.items) }
    {
        let mut shop = self.shop.lock(rt);
        let shop = &mut *shop;
        self.state.lock(rt).finish(rt, alloc, shop, passes)
    }

    /// Ends the board and frees its published copies. It waits for readers to leave these.
    pub fn close<R: Wait>(self, rt: &R) {
        let Board {
            shop,
            state,
            newest,
        } = self;
        drop(shop);
        drop(newest);
        state.into_inner().close(rt);
    }

    // An acknowledgement of the log as it stands, which holds what is known. Where another call posts
    // that while this one waits for the maker, no table is made.
    fn newest_ack<R: Wait>(
        &self,
        rt: &R,
        alloc: Global,
        known: &Beginning<B>,
    ) -> Result<Ack<B>, OutOfMemory>
        ensures known { IfOk result (λ ack. IsPrefix known.now ack) }
    {
        if !self.is_behind(rt) {
            return self.posted_ack(rt, known);
        }
        let mut shop = self.shop.lock(rt);
        if !self.is_behind(rt) {
            return self.posted_ack(rt, known);
        }
        let shop = &mut *shop;
        solve_in(rt, alloc, shop, &self.state, known)
    }

    // An acknowledgement that holds what is known. Where another call posts one while this one waits
    // for the maker, no table is made.
    fn ack_of<R: Wait>(
        &self,
        rt: &R,
        alloc: Global,
        known: &Beginning<B>,
    ) -> Result<Ack<B>, OutOfMemory>
        ensures known { IfOk result (λ ack. IsPrefix known.now ack) }
    {
        if let Ok(ack) = self.posted_ack(rt, known) {
            return Ok(ack);
        }
        let mut shop = self.shop.lock(rt);
        if let Ok(ack) = self.posted_ack(rt, known) {
            return Ok(ack);
        }
        let shop = &mut *shop;
        solve_in(rt, alloc, shop, &self.state, known)
    }

    // Whether the log has reports that the posted table doesn't cover.
    fn is_behind<R: Wait>(&self, rt: &R) -> bool {
        self.state.lock(rt).is_behind()
    }

    // The acknowledgement of what is posted, if that holds what is known.
    fn posted_ack<R: Wait>(&self, rt: &R, known: &Beginning<B>) -> Result<Ack<B>, OutOfMemory>
        ensures known { IfOk result (λ ack. IsPrefix known.now ack) }
    {
        self.state.lock(rt).ack(known)
    }
}

// Sees the log, makes the table of it while the log lock is free, and posts it. The acknowledgement
// of what is then posted holds what is known.
fn solve_in<M: Maker, N: Profile<M::Table>, B: Bases, R: Wait>(
    rt: &R,
    alloc: Global,
    shop: &mut Workshop<M, N, B>,
    state: &Mutex<LogState<M, N, B>>,
    known: &Beginning<B>,
) -> Result<Ack<B>, OutOfMemory>
    ensures known { IfOk result (λ ack. IsPrefix known.now ack) }
{
    let shown = state.lock(rt).show_past(shop, known);
    shown?;
    let table = shop.solve(alloc)?;
    state.lock(rt).post_made(rt, alloc, shop, table)
}
