//! How a board is opened. Its bases have identities only once they are made, so this is two calls.
ghost use Rattle.std.specs.Prelude.{◌≡◌, ℕ, ◌+◌, ◌<◌, ◌≤◌, [], List, length, IfOk, OnOk};
ghost use Rattle.std.specs.List.{All};
ghost use Rattle.bwe_specs.specs.declared.report.Report.{Report};
ghost use Rattle.board.specs.Reporting.{AreFresh, fresh_pass};
ghost use Rattle.board_pair.specs.Reading.{IsNewReader};
ghost use Rattle.board_log.specs.Plan.{NamesTables};

use crate::allocator::AllocatorPass;
use crate::board::Board;
use crate::reporter::ReporterPass;
use crate::steps::LogState;
use board_log::{Bases, Beginning, DeskRight, OpenedLog, OpenedRoll, Roll, WholeLog};
use board_pair::{Ack, Desk, Newest, Profile, ReaderPass, open_desk};
use board_workshop::Workshop;
use bwe_specs::{MAX_READERS, MAX_REPORTERS, OutOfMemory};
use demand_book::Maker;
use std::alloc::Global;
use std::marker::{Model, PhantomData};
use std::sync::Wait;

/// The bases of a board that has no name yet, with its maker. Contracts see which bases they are,
/// and for how many readers.
#[derive(Drop)]
pub struct Opened<M: Maker, N: Profile<M::Table>> {
    maker: M,
    reporters: u32,
    readers: u32,
    log: OpenedLog,
    roll: OpenedRoll,
    of: PhantomData<N>,
}

impl<M: Maker, N: Profile<M::Table>> Model for Opened<M, N> {
    ghost use Rattle.std.specs.Prelude.{[]};
    ghost use Rattle.board.specs.Opening.{Opening, IsOpening};

    ghost Value = { Opening };

    ghost view = { λ opened. record {
      book = opened.log;
      table =
          opened.roll.table.shared.table_id;
      readers = opened.readers;
    } };

    ghost invariant = { λ opened. IsOpening (M.absorbed opened.maker [])
        (M.table_of (M.plan opened.maker)) (M.plan_tasks (M.plan opened.maker))
        (M.plan_links (M.plan opened.maker)) N.belongs N.reporters N.tasks N.links opened.reporters
        opened.readers };
}

impl<M: Maker, N: Profile<M::Table>> Opened<M, N> {
    /// Makes the bases. The first name `N` has to be that of the maker's plan and of so many
    /// reporters.
    ///
    /// It doesn't wait.
    pub fn new<R: Wait>(
        _rt: &R,
        alloc: Global,
        maker: M,
        reporters: u32,
        readers: u32,
    ) -> Result<Opened<M, N>, OutOfMemory>
        requires absorbed { M.absorbed maker [] }
        requires belongs { NamesTables N.belongs (M.table_of (M.plan maker)) }
        requires tasks { M.plan_tasks (M.plan maker) ≡ N.tasks }
        requires links { M.plan_links (M.plan maker) ≡ N.links }
        requires reporters { reporters ≡ N.reporters }
        requires few_reporters { reporters ≤ MAX_REPORTERS }
        requires some_readers { 1 ≤ readers }
        requires few_readers { readers ≤ MAX_READERS }
        ensures readers { IfOk result (λ opened. opened.readers ≡ readers) }
    {
        Ok(Opened {
            maker,
            reporters,
            readers,
            log: OpenedLog::new(),
            roll: OpenedRoll::new(alloc)?,
            of: PhantomData,
        })
    }
}

type OpenedDesk<M, N, B> = (
    Desk<<M as Maker>::Table, N, B>,
    Vec<ReaderPass<<M as Maker>::Table, N, B>>,
    Newest<B>,
);

type Passes<M, N, B> = (
    Board<M, N, B>,
    Vec<ReporterPass<B>>,
    Vec<ReaderPass<<M as Maker>::Table, N, B>>,
    AllocatorPass<B>,
);

impl<M: Maker, N: Profile<M::Table>> Opened<M, N> {
    /// The board under the names of its bases, with a pass for each reporter's number in their
    /// order, the readers' passes and the allocator's.
    ///
    /// It may wait only where it is refused.
    pub fn named<B: Bases, R: Wait>(
        self,
        rt: &R,
        alloc: Global,
    ) -> Result<Passes<M, N, B>, OutOfMemory>
        requires book { self.book ≡ B.book }
        requires table { self.table ≡ B.table }
        ensures reporters { IfOk result (λ opened. length opened.1.items ≡ N.reporters) }
        ensures fresh { IfOk result (λ opened. AreFresh opened.1.items) }
        ensures readers { IfOk result (λ opened. length opened.2.items ≡ self.readers) }
        ensures new { IfOk result (λ opened. All (IsNewReader M.Table.covers N.belongs)
            opened.2.items) }
        ensures allocator { IfOk result (λ opened. opened.3 ≡ record { posted = []; rounds = 0 }) }
    {
        let Opened {
            mut maker,
            reporters,
            readers,
            log,
            roll,
            of: _,
        } = self;
        let (whole, right) = log.named::<B>();
        let mut roll = roll.named::<B>();
        let passes = enroll_all(alloc, reporters, &whole, &mut roll)?;
        let known = whole.first(0);
        let (poster, seats, newest) = open_with_table(
            rt, alloc, readers, right, &known, &mut maker,
        )?;
        let allocator = AllocatorPass::new(Ack::of(&poster));
        let shop = Workshop::empty(alloc, maker, whole.first(0));
        let state = LogState::empty(alloc, whole, roll, poster);
        Ok((Board::new(shop, state, newest), passes, seats, allocator))
    }
}

// The desk of the empty log and of the table that the maker makes of it.
fn open_with_table<M: Maker, N: Profile<M::Table>, B: Bases, R: Wait>(
    rt: &R,
    alloc: Global,
    readers: u32,
    right: DeskRight<B>,
    known: &Beginning<B>,
    maker: &mut M,
) -> Result<OpenedDesk<M, N, B>, OutOfMemory>
    requires readers { 1 ≤ readers }
    requires known { known.now ≡ [] }
    requires absorbed { M.absorbed maker.old [] }
    requires names { NamesTables N.belongs (M.table_of (M.plan maker.old)) }
    requires tasks { M.plan_tasks (M.plan maker.old) ≡ N.tasks }
    ensures absorbed { M.absorbed maker.new [] }
    ensures plan { M.plan maker.new ≡ M.plan maker.old }
    ensures shown { IfOk result (λ desk. M.Table.covers desk.0.shown.table ≡ 0) }
    ensures waiting { IfOk result (λ desk. desk.0.waiting ≡ []) }
    ensures count { IfOk result (λ desk. length desk.1.items ≡ readers) }
    ensures new { IfOk result (λ desk. All (IsNewReader M.Table.covers N.belongs) desk.1.items) }
{
    let table = maker.table(alloc)?;
    open_desk(rt, alloc, readers, right, known, &table)
}

// A pass for each number.
fn enroll_all<B: Bases>(
    alloc: Global,
    reporters: u32,
    whole: &WholeLog<B>,
    roll: &mut Roll<B>,
) -> Result<Vec<ReporterPass<B>>, OutOfMemory>
    requires whole { whole.now ≡ [] }
    requires roll { roll.old ≡ record { log = []; members = 0 } }
    ensures count { IfOk result (λ passes. length passes.items ≡ reporters) }
    ensures fresh { IfOk result (λ passes. AreFresh passes.items) }
    ensures roll { OnOk result (roll.new ≡ record { log = []; members = reporters }) }
{
    let mut passes = Vec::new(alloc);
    for number in 0..reporters {
        let pass = enroll(number, whole, roll);
        passes.push(pass)?;
    }
    Ok(passes)
}

fn enroll<B: Bases>(number: u32, whole: &WholeLog<B>, roll: &mut Roll<B>) -> ReporterPass<B>
    requires whole { whole.now ≡ [] }
    requires roll { roll.old ≡ record { log = []; members = number } }
    ensures pass { result ≡ fresh_pass number }
    ensures roll { roll.new ≡ record { log = []; members = number + 1 } }
{
    let member = roll.enroll();
    ReporterPass::new(number, member, whole.first(0))
}
