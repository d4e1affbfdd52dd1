//! How a board's tables are made while its log lock is free.
//!
//! `board` keeps a `Workshop` in a lock of its own, which is taken before the log lock and never
//! inside it. It lets the workshop `look` at the log, and then `solve`: the table belongs to all
//! that was seen, whatever is reported meanwhile. `look` costs by what is new in the log, and of
//! what the maker has absorbed no copy is kept. Nothing is promised of what is posted.
#![tactic(auto)]

ghost use Rattle.std.specs.Prelude.{◌≡◌, ◌≤◌, ◌+◌, ◌++◌, [], List, length, IfOk, OnOk, OnErr};
ghost use Rattle.std.specs.List.{All};
ghost use Rattle.std.specs.Bool.{OnTrue};
ghost use mathlib.Core.List.{IsPrefix};
ghost use Rattle.bwe_specs.specs.declared.report.Report.{Report};
ghost use Rattle.bwe_specs.specs.Fit.{IsFit};
ghost use Rattle.board_core.specs.Core.{IsAllowed};
ghost use Rattle.board_log.specs.Plan.{NamesTables};

use board_log::{Bases, Beginning, Profile};
use bwe_specs::{MAX_REPORTS, OutOfMemory, Report};
use demand_book::Maker;
use std::alloc::Global;
use std::collections::VecDeque;
use std::marker::{Model, PhantomData};

/// The maker, and the reports that it has not absorbed yet of the log that was seen here. Contracts
/// see that log.
///
/// Of what was absorbed it keeps no copy.
#[derive(Drop)]
pub struct Workshop<M: Maker, N: Profile<M::Table>, B: Bases> {
    maker: M,
    waiting: VecDeque<Report>,
    known: Beginning<B>,
    of: PhantomData<N>,
}

impl<M: Maker, N: Profile<M::Table>, B: Bases> Model for Workshop<M, N, B> {
    ghost use Rattle.std.specs.Prelude.{List};
    ghost use Rattle.bwe_specs.specs.declared.report.Report.{Report};
    ghost use Rattle.board_workshop.specs.Shop.{IsShop};

    ghost Value = { List Report };

    ghost view = { λ shop. shop.known };

    ghost invariant = { λ shop. IsShop (M.absorbed shop.maker) (M.table_of (M.plan shop.maker))
        (M.plan_tasks (M.plan shop.maker)) (M.plan_links (M.plan shop.maker)) N.belongs N.reporters
        N.tasks N.links shop.waiting.items shop.known };
}

impl<M: Maker, N: Profile<M::Table>, B: Bases> Workshop<M, N, B> {
    /// A maker that has absorbed nothing.
    pub fn empty(alloc: Global, maker: M, known: Beginning<B>) -> Workshop<M, N, B>
        requires absorbed { M.absorbed maker [] }
        requires belongs { NamesTables N.belongs (M.table_of (M.plan maker)) }
        requires tasks { M.plan_tasks (M.plan maker) ≡ N.tasks }
        requires links { M.plan_links (M.plan maker) ≡ N.links }
        requires known { known ≡ [] }
        ensures empty { result ≡ [] }
    {
        Workshop {
            maker,
            waiting: VecDeque::new(alloc),
            known,
            of: PhantomData,
        }
    }

    /// Sees the log as it stands. Only what is new in it is copied.
    pub fn look(&mut self, whole: Beginning<B>, log: &[Report]) -> Result<(), OutOfMemory>
        requires whole { whole ≡ log.now }
        requires room { length log.now ≤ MAX_REPORTS }
        requires allowed { All (IsAllowed N.reporters (IsFit N.tasks N.links)) log.now }
        ensures ok { OnOk result (self.new ≡ log.now) }
        ensures refused { OnErr result (self.new ≡ self.old) }
    {
        let seen = self.known.len();
        if seen > log.len() as u64 || !self.known.begins(&whole) {
            return Err(OutOfMemory);
        }
        queue(&mut self.waiting, &log[seen as usize..])?;
        self.known = whole;
        Ok(())
    }

    /// Makes the table of all that was seen. The log lock is free meanwhile.
    pub fn solve(&mut self, alloc: Global) -> Result<M::Table, OutOfMemory>
        ensures seen { self.new ≡ self.old }
        ensures covers { IfOk result (λ table. M.Table.covers table ≡ length self.old) }
        ensures belongs { IfOk result (N.belongs self.old) }
    {
        absorb_all(alloc, &mut self.maker, &mut self.waiting)?;
        // Nothing waits any more, so its room is given back.
        self.waiting = VecDeque::new(alloc);
        self.maker.table(alloc)
    }

    /// What was seen.
    pub fn seen(&self) -> &Beginning<B>
        ensures seen { result.now ≡ self.now }
    {
        &self.known
    }

    /// Whether the log begins with all that was seen here.
    pub fn is_seen_in(&self, whole: &Beginning<B>) -> bool
        ensures seen { OnTrue result (IsPrefix self.now whole.now) }
    {
        self.known.begins(whole)
    }
}

// Lets more reports wait, or none of them.
fn queue(waiting: &mut VecDeque<Report>, more: &[Report]) -> Result<(), OutOfMemory>
    ensures ok { OnOk result (waiting.new.items ≡ waiting.old.items ++ more.now) }
    ensures refused { OnErr result (waiting.new.items ≡ waiting.old.items) }
{
    waiting.reserve(more.len())?;
    for report in more {
        waiting.push_back_reserved(*report);
    }
    Ok(())
}

// Absorbs what waits, as far as there is memory.
fn absorb_all<M: Maker>(
    alloc: Global,
    maker: &mut M,
    waiting: &mut VecDeque<Report>,
) -> Result<(), OutOfMemory>
    requires absorbed { (taken : List Report) × M.absorbed maker.old taken
        × (length taken + length waiting.old.items ≤ MAX_REPORTS) }
    requires fit { All (IsFit (M.plan_tasks (M.plan maker.old)) (M.plan_links (M.plan maker.old)))
        waiting.old.items }
    ensures plan { M.plan maker.new ≡ M.plan maker.old }
    ensures absorbed { (taken : List Report) → M.absorbed maker.old taken → (more : List Report)
        × (waiting.old.items ≡ more ++ waiting.new.items) × M.absorbed maker.new (taken ++ more) }
    ensures all { OnOk result (waiting.new.items ≡ []) }
{
    while let Some(report) = waiting.front().copied() {
        maker.absorb(alloc, report)?;
        let _ = waiting.pop_front();
    }
    Ok(())
}
