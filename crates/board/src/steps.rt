//! What the log lock holds, and the steps on it. Nothing else adds to the log or publishes.
ghost use Rattle.std.specs.Prelude.{◌≡◌, ◌+◌, ◌<◌, ◌≤◌, ◌↔◌, IsTrue, ◌++◌, ◌∷◌, [], List, length, take, drop, max, IfOk, IfErr, OnOk, OnErr};
ghost use Rattle.std.specs.List.{All, sum_by};
ghost use Rattle.std.specs.Bool.{OnTrue};
ghost use mathlib.Core.List.{IsPrefix};
ghost use Rattle.bwe_specs.specs.declared.report.Report.{Report};
ghost use Rattle.board_log.specs.Roll.{IsBy, placed, own_of};
ghost use Rattle.bwe_specs.specs.Fit.{IsFit};
ghost use Rattle.board_core.specs.Core.{IsAllowed};
ghost use Rattle.board.specs.Refusals.{IsRefusalAt};
ghost use Rattle.board.specs.Reporting.{AreInOrder};
ghost use Rattle.board.specs.Standing.{IsRaised};
ghost use Rattle.board.specs.CoreSteps.{IsReportStep, ArePostSteps, ArePostStepsOfAll, IsPostRefused};

use crate::ended::{Ended, FinishRefused};
use crate::refusal::ReportError;
use crate::reporter::ReporterPass;
use board_log::{Bases, Beginning, Roll, WholeLog};
use board_pair::{Ack, Desk, FinalAck, News, Profile};
use board_workshop::Workshop;
use bwe_specs::{MAX_REPORTS, OutOfMemory, Report};
use demand_book::{Maker, Posted};
use std::alloc::Global;
use std::marker::Model;
use std::sync::Wait;

/// The log, what adds to it, and what posts its tables. Contracts see the log, the posted number
/// and the pending number.
///
/// The pending number is how many reports the table covers that a refused publish left waiting, and
/// the posted number where none waits.
pub struct LogState<M: Maker, N: Profile<M::Table>, B: Bases> {
    log: Vec<Report>,
    whole: WholeLog<B>,
    roll: Roll<B>,
    poster: Desk<M::Table, N, B>,
    pending: u64,
}

impl<M: Maker, N: Profile<M::Table>, B: Bases> Model for LogState<M, N, B> {
    ghost use Rattle.board.specs.Standing.{Standing, IsStanding};

    ghost Value = { Standing };

    ghost view = { λ state. record {
      log = state.log.items;
      posted = M.Table.covers
          state.poster.shown.table;
      pending = state.pending;
    } };

    ghost invariant = { λ state. IsStanding M.Table.covers N.reporters N.tasks N.links
        state.log.items state.whole state.roll state.poster state.pending };
}

/// Makes the table the posted one, unless a later one is posted or waits. It may wait for readers
/// to leave a published copy.
///
/// A table that a refused publish left waiting is published first, as a post of its own.
pub fn post<M: Maker, N: Profile<M::Table>, B: Bases, R: Wait>(
    rt: &R,
    alloc: Global,
    state: &mut LogState<M, N, B>,
    table: M::Table,
) -> Result<u64, OutOfMemory>
    requires covers { M.Table.covers table ≤ length state.old.log }
    requires belongs { N.belongs (take (M.Table.covers table) state.old.log) table }
    ensures log { state.new.log ≡ state.old.log }
    ensures answer { IfOk result (λ prefix. prefix ≡ max state.old.pending (M.Table.covers table)) }
    ensures posted { IfOk result (λ prefix. state.new.posted ≡ prefix) }
    ensures none_waits { IfOk result (λ prefix. state.new.pending ≡ prefix) }
    // By Core run these are two posts: of the table that waits, and of this one.
    ensures run { IfOk result (λ prefix. ArePostSteps state.old (M.Table.covers table) prefix
        state.new) }
    ensures cut { OnErr result (IsPostRefused state.old (M.Table.covers table) state.new) }
    ensures refused { OnErr result (IsRaised state.old.posted state.new.posted
        (max state.old.pending (M.Table.covers table))) }
    ensures waits { OnErr result (IsRaised state.old.pending state.new.pending
        (max state.old.pending (M.Table.covers table))) }
{
    state.publish(rt)?;
    state.post_next(rt, alloc, table)
}

impl<M: Maker, N: Profile<M::Table>, B: Bases> LogState<M, N, B> {
    // The empty log, whose table is posted.
    pub(crate) fn empty(
        alloc: Global,
        whole: WholeLog<B>,
        roll: Roll<B>,
        poster: Desk<M::Table, N, B>,
    ) -> LogState<M, N, B>
        requires whole { whole ≡ [] }
        requires roll { roll ≡ record { log = []; members = N.reporters } }
        requires shown { M.Table.covers poster.shown.table ≡ 0 }
        requires waiting { poster.waiting ≡ [] }
        ensures empty { result ≡ record { log = []; posted = 0; pending = 0 } }
    {
        LogState {
            log: Vec::new(alloc),
            whole,
            roll,
            poster,
            pending: 0,
        }
    }

    /// Adds the reports of a pass at the end of the log, and answers the first place.
    ///
    /// It costs by the piece, whatever the log's length.
    #[tactic(auto, using(std::proofs::lemmas::List::drop_at))]
    pub(crate) fn append(
        &mut self,
        alloc: Global,
        pass: &mut ReporterPass<B>,
        reports: &[Report],
    ) -> Result<u64, ReportError>
        requires by { All (IsBy pass.old.number) reports.now }
        requires allowed { All (IsAllowed N.reporters (IsFit N.tasks N.links)) reports.now }
        ensures first { IfOk result (λ first. first ≡ length self.old.log) }
        ensures log { OnOk result (self.new.log ≡ self.old.log ++ reports.now) }
        ensures room { OnOk result (length self.new.log ≤ MAX_REPORTS) }
        ensures unchanged { OnErr result (self.new.log ≡ self.old.log) }
        ensures posted { self.new.posted ≡ self.old.posted }
        ensures pending { self.new.pending ≡ self.old.pending }
        // By Core run this is one report.
        ensures run { IsReportStep self.old pass.old.number reports.now result self.new }
        // What the pass knows afterwards.
        ensures number { pass.new.number ≡ pass.old.number }
        ensures seen { IsPrefix pass.old.seen pass.new.seen }
        ensures whole { OnOk result (pass.new.seen ≡ self.new.log) }
        ensures placed { IfOk result (λ first. drop first pass.new.seen ≡ reports.now) }
        ensures own { IfOk result (λ first. pass.new.own ≡ pass.old.own ++ placed pass.old.number
            first reports.now) }
        ensures exact { OnOk result (pass.new.own ≡ own_of pass.old.number self.new.log) }
        ensures kept { OnErr result (pass.new.own ≡ pass.old.own) }
        ensures refused { IfErr result (IsRefusalAt pass.new.seen (length reports.now)) }
    {
        let held = self.log.len() as u64;
        self.admit(pass, reports.len() as u64)?;
        let piece = grow(alloc, &mut self.log, &mut self.whole, reports)?;
        let whole = self.whole.first(self.log.len() as u64);
        pass.send(&mut self.roll, &piece, whole);
        Ok(held)
    }

    // Whether the log has room for so many more reports of a pass. If not, the pass sees the log.
    fn admit(&self, pass: &mut ReporterPass<B>, more: u64) -> Result<(), ReportError>
        ensures ok { OnOk result (pass.new ≡ pass.old) }
        ensures begins { OnOk result (IsPrefix pass.old.seen self.now.log) }
        ensures room { OnOk result (length self.now.log + more ≤ MAX_REPORTS) }
        ensures held { IfErr result (IsRefusalAt self.now.log more) }
        ensures refused { IfErr result (IsRefusalAt pass.new.seen more) }
        ensures number { pass.new.number ≡ pass.old.number }
        ensures own { pass.new.own ≡ pass.old.own }
        ensures seen { IsPrefix pass.old.seen pass.new.seen }
    {
        let held = self.log.len() as u64;
        let whole = self.whole.first(held);
        if !pass.known.begins(&whole) {
            return Err(ReportError::OutOfMemory);
        }
        if more > MAX_REPORTS - held {
            pass.see(whole);
            return Err(ReportError::Full { held });
        }
        Ok(())
    }

    /// An ack of what is posted, if that covers what is known.
    pub(crate) fn ack(&self, known: &Beginning<B>) -> Result<Ack<B>, OutOfMemory>
        ensures prefix { IfOk result (λ ack. length ack ≡ self.now.posted) }
        ensures known { IfOk result (λ ack. IsPrefix known.now ack) }
    {
        let ack = self.posted_ack();
        if !known.begins(ack.known()) {
            return Err(OutOfMemory);
        }
        Ok(ack)
    }

    // The ack of what is posted.
    fn posted_ack(&self) -> Ack<B>
        ensures prefix { length result ≡ self.now.posted }
    {
        Ack::of(&self.poster)
    }

    /// Whether the log has reports that the posted table doesn't cover.
    pub(crate) fn is_behind(&self) -> bool
        ensures behind { IsTrue result ↔ (self.now.posted < length self.now.log) }
    {
        self.posted() < self.log.len() as u64
    }

    /// Lets the workshop see the log as it stands.
    pub(crate) fn show(&self, shop: &mut Workshop<M, N, B>) -> Result<(), OutOfMemory>
        ensures ok { OnOk result (shop.new ≡ self.now.log) }
        ensures refused { OnErr result (shop.new ≡ shop.old) }
    {
        let log = &self.log;
        let whole = self.whole.first(log.len() as u64);
        shop.look(whole, log.as_slice())
    }

    /// The same, where the log begins with what is known, so that the workshop sees that too.
    pub(crate) fn show_past(
        &self,
        shop: &mut Workshop<M, N, B>,
        known: &Beginning<B>,
    ) -> Result<(), OutOfMemory>
        ensures seen { OnOk result (IsPrefix known.now shop.new) }
    {
        let whole = self.whole.first(self.log.len() as u64);
        if !known.begins(&whole) {
            return Err(OutOfMemory);
        }
        self.show(shop)
    }

    /// Posts the table of all that the workshop has seen, and gives the ack of what is then posted.
    pub(crate) fn post_made<R: Wait>(
        &mut self,
        rt: &R,
        alloc: Global,
        shop: &Workshop<M, N, B>,
        table: M::Table,
    ) -> Result<Ack<B>, OutOfMemory>
        requires covers { M.Table.covers table ≡ length shop.now }
        requires belongs { N.belongs shop.now table }
        ensures log { self.new.log ≡ self.old.log }
        ensures prefix { IfOk result (λ ack. length ack ≡ self.new.posted) }
        ensures within { self.new.posted ≤ length self.new.log }
        ensures covered { IfOk result (IsPrefix shop.now) }
        ensures raised { self.old.posted ≤ self.new.posted }
        // By Core run these are the two posts of that table.
        ensures run { IfOk result (λ ack. ArePostSteps self.old (length shop.now) (length ack)
            self.new) }
    {
        if !self.begins_with(shop) {
            return Err(OutOfMemory);
        }
        post(rt, alloc, self, table)?;
        let ack = self.posted_ack();
        if !shop.seen().begins(ack.known()) {
            unreachable!()
        }
        Ok(ack)
    }

    // Whether the log begins with all that the workshop has seen.
    fn begins_with(&self, shop: &Workshop<M, N, B>) -> bool
        ensures begins { OnTrue result (IsPrefix shop.now self.now.log) }
        ensures posted { self.now.posted ≤ self.now.pending }
        ensures within { self.now.pending ≤ length self.now.log }
    {
        let whole = self.whole.first(self.log.len() as u64);
        shop.is_seen_in(&whole)
    }

    /// The whole log and its table, once each pass is compared with the log.
    #[tactic(auto, using(crate::proofs::Totals::all_sent))]
    pub(crate) fn finish<R: Wait>(
        &mut self,
        rt: &R,
        alloc: Global,
        shop: &mut Workshop<M, N, B>,
        mut passes: Vec<ReporterPass<B>>,
    ) -> Result<Ended<M::Table, B>, FinishRefused<B>>
        requires count { length passes.items ≡ N.reporters }
        requires order { AreInOrder passes.items }
        ensures log { self.new.log ≡ self.old.log }
        ensures posted { OnOk result (self.new.posted ≡ length self.new.log) }
        ensures raised { self.old.posted ≤ self.new.posted }
        ensures whole { IfOk result (λ ended. ended.ack ≡ self.old.log) }
        ensures history { IfOk result (λ ended. ended.history.items ≡ self.old.log) }
        ensures seen { IfOk result (λ ended. All (λ pass. IsPrefix pass.seen ended.ack)
            passes.items) }
        ensures length { IfOk result (λ ended. ended.length ≡ length self.old.log) }
        ensures sent { IfOk result (λ ended. ended.length ≡ sum_by (λ pass. length pass.own)
            passes.items) }
        ensures exact { OnOk result (All (λ pass. pass.own ≡ own_of pass.number self.old.log)
            passes.items) }
        ensures allowed { All (IsAllowed N.reporters (IsFit N.tasks N.links)) self.old.log }
        ensures covers { IfOk result (λ ended. M.Table.covers ended.table ≡ ended.length) }
        ensures table { IfOk result (λ ended. N.belongs self.old.log ended.table) }
        // By Core run the table of the whole log is posted. That the log has ended is no event.
        ensures run { OnOk result (ArePostStepsOfAll self.old self.new) }
        ensures refused { IfErr result (λ refused. refused.passes.items ≡ passes.items) }
    {
        let length = self.log.len() as u64;
        if !self.begins_with_each(passes.as_slice()) {
            return Err(FinishRefused { passes });
        }
        compare_all(&mut self.roll, passes.as_mut_slice());
        match self.last_table(rt, alloc, shop) {
            Ok((ack, history, table)) => Ok(Ended {
                ack,
                history,
                length,
                table,
            }),
            Err(_) => Err(FinishRefused { passes }),
        }
    }

    // Whether the log begins with all that each pass has seen. In a run it always does.
    fn begins_with_each(&self, passes: &[ReporterPass<B>]) -> bool
        ensures begins { OnTrue result (All (λ pass. IsPrefix pass.seen self.now.log) passes.now) }
    {
        let whole = self.whole.first(self.log.len() as u64);
        each_begins(passes, &whole)
    }

    /// Ends the writer. It waits for readers to leave.
    pub(crate) fn close<R: Wait>(self, rt: &R) {
        let LogState {
            log,
            whole,
            roll,
            poster,
            pending: _,
        } = self;
        drop(log);
        drop(whole);
        drop(roll);
        poster.take(rt);
    }

    // How many reports the posted table covers.
    fn posted(&self) -> u64
        ensures posted { result ≡ self.now.posted }
        ensures within { result ≤ length self.now.log }
    {
        let poster = &self.poster;
        let pair = poster.shown();
        pair.table().prefix()
    }

    // Publishes what waits.
    fn publish<R: Wait>(&mut self, rt: &R) -> Result<(), OutOfMemory>
        ensures log { self.new.log ≡ self.old.log }
        ensures pending { self.new.pending ≡ self.old.pending }
        ensures ok { OnOk result (self.new.posted ≡ self.old.pending) }
        ensures refused { OnErr result (self.new.posted ≡ self.old.posted) }
        ensures below { self.old.posted ≤ self.old.pending }
        ensures within { self.old.pending ≤ length self.old.log }
    {
        self.poster.publish(rt)
    }

    // Publishes what waits, if anything does, and answers how many reports the posted table covers.
    fn publish_laid<R: Wait>(&mut self, rt: &R) -> Result<u64, OutOfMemory>
        ensures log { self.new.log ≡ self.old.log }
        ensures pending { self.new.pending ≡ self.old.pending }
        ensures answer { IfOk result (λ prefix. prefix ≡ self.old.pending) }
        ensures ok { OnOk result (self.new.posted ≡ self.old.pending) }
        ensures refused { OnErr result (self.new.posted ≡ self.old.posted) }
    {
        if self.posted() < self.pending {
            self.publish(rt)?;
        }
        Ok(self.pending)
    }

    // Makes the table the posted one, unless a later one is posted. No other waits, so this is a
    // post of its own.
    fn post_next<R: Wait>(
        &mut self,
        rt: &R,
        alloc: Global,
        table: M::Table,
    ) -> Result<u64, OutOfMemory>
        requires none_waits { self.old.posted ≡ self.old.pending }
        requires covers { M.Table.covers table ≤ length self.old.log }
        requires belongs { N.belongs (take (M.Table.covers table) self.old.log) table }
        ensures log { self.new.log ≡ self.old.log }
        ensures answer { IfOk result (λ prefix. prefix ≡ max self.old.pending
            (M.Table.covers table)) }
        ensures posted { IfOk result (λ prefix. self.new.posted ≡ prefix) }
        ensures none_waits { IfOk result (λ prefix. self.new.pending ≡ prefix) }
        ensures refused { OnErr result (self.new.posted ≡ self.old.posted) }
        ensures waits { OnErr result (IsRaised self.old.pending self.new.pending
            (max self.old.pending (M.Table.covers table))) }
    {
        self.lay(alloc, table)?;
        let prefix = self.publish_laid(rt)?;
        Ok(prefix)
    }

    // Lays a table beside the log as it stands, to be published next, unless a later one is posted
    // or waits.
    fn lay(&mut self, alloc: Global, table: M::Table) -> Result<(), OutOfMemory>
        requires covers { M.Table.covers table ≤ length self.old.log }
        requires belongs { N.belongs (take (M.Table.covers table) self.old.log) table }
        ensures log { self.new.log ≡ self.old.log }
        ensures posted { self.new.posted ≡ self.old.posted }
        ensures ok { OnOk result (self.new.pending ≡ max self.old.pending (M.Table.covers table)) }
        ensures refused { OnErr result (self.new.pending ≡ self.old.pending) }
        ensures below { self.new.posted ≤ self.new.pending }
    {
        let pending = table.prefix();
        if pending <= self.pending {
            return Ok(());
        }
        let news = self.news_of(alloc, table)?;
        let_wait(&mut self.poster, news)?;
        self.pending = pending;
        Ok(())
    }

    // What a post of the table brings: a copy of the log, and the table.
    fn news_of(&self, alloc: Global, table: M::Table) -> Result<News<M::Table, N, B>, OutOfMemory>
        requires covers { M.Table.covers table ≤ length self.now.log }
        requires belongs { N.belongs (take (M.Table.covers table) self.now.log) table }
        ensures news { IfOk result (λ news. news ≡ record { log = self.now.log; table = table }) }
    {
        let log = Vec::from_slice(alloc, self.log.as_slice())?;
        let whole = self.whole.first(self.log.len() as u64);
        News::new(alloc, log, table, whole)
    }

    // Posts the table of the whole log, ends that, and gives the ack of it and both.
    #[tactic(auto, using(board_log::proofs::Prefixes::prefix_whole))]
    fn last_table<R: Wait>(
        &mut self,
        rt: &R,
        alloc: Global,
        shop: &mut Workshop<M, N, B>,
    ) -> Result<(FinalAck<B>, Vec<Report>, M::Table), OutOfMemory>
        ensures log { self.new.log ≡ self.old.log }
        ensures posted { OnOk result (self.new.posted ≡ length self.new.log) }
        ensures raised { self.old.posted ≤ self.new.posted }
        ensures ack { IfOk result (λ last. last.0 ≡ self.old.log) }
        ensures history { IfOk result (λ last. last.1.items ≡ self.old.log) }
        ensures covers { IfOk result (λ last. M.Table.covers last.2 ≡ length self.old.log) }
        ensures belongs { IfOk result (λ last. N.belongs self.old.log last.2) }
    {
        let history = Vec::from_slice(alloc, self.log.as_slice())?;
        let (ack, table) = self.post_last(rt, alloc, shop)?;
        Ok((self.end(ack), history, table))
    }

    // Posts the table of the whole log where it is not posted yet, and gives the ack of that and the
    // table.
    fn post_last<R: Wait>(
        &mut self,
        rt: &R,
        alloc: Global,
        shop: &mut Workshop<M, N, B>,
    ) -> Result<(Ack<B>, M::Table), OutOfMemory>
        ensures log { self.new.log ≡ self.old.log }
        ensures posted { OnOk result (self.new.posted ≡ length self.new.log) }
        ensures raised { self.old.posted ≤ self.new.posted }
        ensures ack { IfOk result (λ last. last.0 ≡ self.old.log) }
        ensures covers { IfOk result (λ last. M.Table.covers last.1 ≡ length self.old.log) }
        ensures belongs { IfOk result (λ last. N.belongs self.old.log last.1) }
    {
        if !self.is_behind() {
            return self.posted_last(alloc);
        }
        self.show(shop)?;
        let table = shop.solve(alloc)?;
        let copy = table.copy(alloc)?;
        let ack = self.post_made(rt, alloc, shop, copy)?;
        Ok((ack, table))
    }

    // The ack of the whole log and a copy of its table, which is posted.
    #[tactic(auto, using(board_log::proofs::Prefixes::prefix_whole))]
    fn posted_last(&self, alloc: Global) -> Result<(Ack<B>, M::Table), OutOfMemory>
        requires all { length self.now.log ≤ self.now.posted }
        ensures posted { self.now.posted ≡ length self.now.log }
        ensures ack { IfOk result (λ last. last.0 ≡ self.now.log) }
        ensures covers { IfOk result (λ last. M.Table.covers last.1 ≡ length self.now.log) }
        ensures belongs { IfOk result (λ last. N.belongs self.now.log last.1) }
    {
        let ack = Ack::of(&self.poster);
        let whole = self.whole.first(self.log.len() as u64);
        if !whole.begins(ack.known()) {
            return Err(OutOfMemory);
        }
        let poster = &self.poster;
        let table = poster.shown().table().copy(alloc)?;
        Ok((ack, table))
    }

    // Ends the log, of which that is the ack of the whole.
    fn end(&mut self, ack: Ack<B>) -> FinalAck<B>
        requires whole { ack ≡ self.old.log }
        ensures state { self.new ≡ self.old }
        ensures ack { result ≡ ack }
    {
        FinalAck::new(ack, self.whole.end())
    }
}

// Lets news wait for the next publish.
fn let_wait<T: Posted, N: Profile<T>, B: Bases>(
    poster: &mut Desk<T, N, B>,
    news: News<T, N, B>,
) -> Result<(), OutOfMemory>
    ensures shown { poster.new.shown ≡ poster.old.shown }
    ensures ok { OnOk result (poster.new.waiting ≡ poster.old.waiting ++ news ∷ []) }
    ensures refused { OnErr result (poster.new.waiting ≡ poster.old.waiting) }
{
    match poster.append(news) {
        Ok(()) => Ok(()),
        Err(_) => Err(OutOfMemory),
    }
}

// Whether this begins with all that each pass has seen.
fn each_begins<B: Bases>(passes: &[ReporterPass<B>], whole: &Beginning<B>) -> bool
    ensures begins { OnTrue result (All (λ pass. IsPrefix pass.seen whole.now) passes.now) }
{
    for pass in passes {
        if !pass.known.begins(whole) {
            return false;
        }
    }
    true
}

// Compares each pass with the log.
fn compare_all<B: Bases>(roll: &mut Roll<B>, passes: &mut [ReporterPass<B>])
    ensures roll { roll.new ≡ roll.old }
    ensures passes { passes.new ≡ passes.old }
    ensures exact { All (λ pass. pass.own ≡ own_of pass.number roll.old.log) passes.old }
{
    for pass in passes.iter_mut() {
        pass.compare(roll);
    }
}

// Adds a piece of these reports at the end of the log and of its history, or to neither.
fn grow<B: Bases>(
    alloc: Global,
    log: &mut Vec<Report>,
    whole: &mut WholeLog<B>,
    reports: &[Report],
) -> Result<Vec<Report>, OutOfMemory>
    requires whole { whole.old ≡ log.old.items }
    requires room { length log.old.items ≤ MAX_REPORTS }
    ensures piece { IfOk result (λ piece. piece.items ≡ reports.now) }
    ensures whole { whole.new ≡ log.new.items }
    ensures ok { OnOk result (log.new.items ≡ log.old.items ++ reports.now) }
    ensures refused { OnErr result (log.new.items ≡ log.old.items) }
{
    let piece = Vec::from_slice(alloc, reports)?;
    if piece.is_empty() {
        return Ok(piece);
    }
    let held = log.len();
    log.extend_from_slice(reports)?;
    if whole.append(&piece).is_err() {
        log.truncate(held);
        return Err(OutOfMemory);
    }
    Ok(piece)
}
