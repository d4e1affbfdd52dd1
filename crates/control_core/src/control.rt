//! A store, its allocators, and all that they ever sent.

ghost use Rattle.std.specs.Prelude.{◌≡◌, ◌+◌, ◌<◌, ◌^◌, [], IfOk, None, OnErr, OnOk, Some, if◌then◌else◌, length, option_map, replicate};
ghost use Rattle.std.specs.List.{All};
ghost use Rattle.bwe_specs.specs.Fit.{IsFit};
ghost use Rattle.bwe_specs.specs.Lists.{lists_of};
ghost use Rattle.control_core.specs.World.{IsMeant, allocator_at, campaigned, created_of, done, expired, first_world, fresh, given_up, having_looked, having_read, known_of, leader_revision, learned, lost, posted_prefix as prefix_of, reported, reports_of, rows_of, seen_by, sendable, sent_at, sent_by, since_after, slice_at as slice_of, taken, told_of, with_allocator, world_after};

use crate::allocator::{Allocator, Known, Reading, transaction_for};
use crate::event::ControlEvent;
use crate::reader::Reader;
use crate::rows::rows_in;
use crate::sent::{Outcome, Sent, Transaction};
use crate::slice::Slice;
use crate::store::{Entry, Leader, Posting};
use crate::tables::{copies, no_slices, slice_at, written_over};
use bwe_specs::{MAX_REPORTS, OutOfMemory, Report};
use demand_book::Maker;
use std::alloc::Global;
use std::marker::Model;

/// A store with a history of reports, allocators that post tables through it, every transaction
/// that was ever sent, and readers.
///
/// Which transactions the store takes, and when, is up to the events.
#[derive(Drop)]
pub struct Control<M: Maker> {
    maker: M,
    tasks: Vec<Vec<u32>>,
    revision: u64,
    reports: Vec<Entry>,
    leader: Option<Leader>,
    slices: Vec<Option<Slice>>,
    posted: Option<Posting>,
    allocators: Vec<Allocator>,
    sent: Vec<Sent>,
    readers: Vec<Reader>,
}

impl<M: Maker> Model for Control<M> {
    ghost use Rattle.bwe_specs.specs.Lists.{lists_of};
    ghost use Rattle.control_core.specs.World.{Control as ControlView, IsKept};

    ghost Value = { ControlView M };

    ghost view = { λ it. record {
      maker = it.maker;
      world = record {
        tasks = lists_of it.tasks.items;
        revision = it.revision;
        reports = it.reports.items;
        leader = it.leader;
        slices = it.slices.items;
        posted = it.posted;
        allocators = it.allocators.items;
        sent = it.sent.items;
        readers = it.readers.items;
      };
    } };

    ghost invariant = { λ it. IsKept (M.absorbed it.maker) (M.plan_tasks (M.plan it.maker)) (record {
      tasks = lists_of it.tasks.items;
      revision = it.revision;
      reports = it.reports.items;
      leader = it.leader;
      slices = it.slices.items;
      posted = it.posted;
      allocators = it.allocators.items;
      sent = it.sent.items;
      readers = it.readers.items;
    }) };
}

impl<M: Maker> Control<M> {
    /// Before any event. There is a reporter for each list of tasks, with these tasks in this
    /// order.
    pub fn new(
        alloc: Global,
        maker: M,
        tasks: Vec<Vec<u32>>,
        allocators: u32,
        readers: u32,
    ) -> Result<Control<M>, OutOfMemory>
        requires empty { M.absorbed maker [] }
        requires tasks { All (λ tasks. All (λ task. task < M.plan_tasks (M.plan maker)) tasks)
            (lists_of tasks.items) }
        ensures world { IfOk result
            (λ control. control.world ≡ first_world (lists_of tasks.items) allocators readers) }
        ensures plan { IfOk result (λ control. M.plan control.maker ≡ M.plan maker) }
    {
        let slices = no_slices(alloc, tasks.len())?;
        Ok(Control {
            maker,
            tasks,
            revision: 0,
            reports: Vec::new(alloc),
            leader: None,
            slices,
            posted: None,
            allocators: fresh_allocators(alloc, allocators)?,
            sent: Vec::new(alloc),
            readers: vec![in alloc; Reader { told: 0, seen: 0 }; readers as usize]?,
        })
    }

    /// One event of Control plane. Out of memory, nothing has changed.
    pub fn step(&mut self, alloc: Global, event: ControlEvent) -> Result<(), OutOfMemory>
        requires meant { IsMeant
            (IsFit (M.plan_tasks (M.plan self.old.maker)) (M.plan_links (M.plan self.old.maker)))
            self.old.world event }
        requires revision { self.old.world.revision + 1 < 2 ^ 64 }
        ensures world { OnOk result (self.new.world
            ≡ world_after
            (λ reports task. M.Table.limit_at (M.table_of (M.plan self.old.maker) reports) task)
            self.old.world event) }
        ensures refused { OnErr result (self.new.world ≡ self.old.world) }
        ensures plan { M.plan self.new.maker ≡ M.plan self.old.maker }
    {
        match event {
            ControlEvent::Report { report } => self.report(alloc, report),
            ControlEvent::Campaign { allocator } => {
                self.campaign(allocator);
                Ok(())
            }
            ControlEvent::Expire => {
                self.expire();
                Ok(())
            }
            ControlEvent::Read { allocator } => self.read(alloc, allocator),
            ControlEvent::Look { allocator } => self.look(alloc, allocator),
            ControlEvent::Send { allocator, upto } => self.send(alloc, allocator, upto),
            ControlEvent::Take { transaction } => self.take(alloc, transaction),
            ControlEvent::Lose { transaction } => {
                self.lose(transaction);
                Ok(())
            }
            ControlEvent::Learn { allocator } => self.learn(alloc, allocator),
            ControlEvent::GiveUp { allocator } => {
                self.give_up(allocator);
                Ok(())
            }
            ControlEvent::Crash { allocator } => {
                self.crash(allocator);
                Ok(())
            }
            ControlEvent::Tell { reader, revision } => {
                self.tell(reader, revision);
                Ok(())
            }
            ControlEvent::See { reader } => {
                self.see(reader);
                Ok(())
            }
        }
    }

    // A report enters the history, and the maker takes it in.
    fn report(&mut self, alloc: Global, report: Report) -> Result<(), OutOfMemory>
        requires few { length self.old.world.reports < MAX_REPORTS }
        requires fit { IsFit (M.plan_tasks (M.plan self.old.maker))
            (M.plan_links (M.plan self.old.maker)) report }
        requires revision { self.old.world.revision + 1 < 2 ^ 64 }
        ensures world { OnOk result (self.new.world ≡ reported self.old.world report) }
        ensures refused { OnErr result (self.new.world ≡ self.old.world) }
        ensures plan { M.plan self.new.maker ≡ M.plan self.old.maker }
    {
        let revision = self.revision + 1;
        self.reports.push(Entry { revision, report })?;
        match self.maker.absorb(alloc, report) {
            Ok(()) => {
                self.revision = revision;
                Ok(())
            }
            Err(OutOfMemory) => {
                self.reports.pop();
                Err(OutOfMemory)
            }
        }
    }

    // An allocator gets the leader key where there is none.
    fn campaign(&mut self, allocator: u32)
        requires revision { self.old.world.revision + 1 < 2 ^ 64 }
        ensures world { self.new.world
            ≡ campaigned self.old.world allocator self.old.world.leader }
        ensures maker { self.new.maker ≡ self.old.maker }
    {
        if self.leader.is_none() {
            self.revision += 1;
            self.leader = Some(Leader {
                holder: allocator,
                created: self.revision,
                revision: self.revision,
            });
        }
    }

    // The leader key goes.
    fn expire(&mut self)
        requires revision { self.old.world.revision + 1 < 2 ^ 64 }
        ensures world { self.new.world ≡ expired self.old.world self.old.world.leader }
        ensures maker { self.new.maker ≡ self.old.maker }
    {
        if self.leader.is_some() {
            self.revision += 1;
            self.leader = None;
        }
    }

    // An allocator reads the leader key and the slices.
    fn read(&mut self, alloc: Global, allocator: u32) -> Result<(), OutOfMemory>
        requires allocator { allocator < length self.old.world.allocators }
        ensures world { OnOk result (self.new.world ≡ with_allocator self.old.world allocator
            (having_read self.old.world allocator)) }
        ensures refused { OnErr result (self.new.world ≡ self.old.world) }
        ensures maker { self.new.maker ≡ self.old.maker }
    {
        let known = known_to(alloc, allocator, self.slices.as_slice(), self.leader)?;
        self.allocators[allocator as usize].knows(known);
        Ok(())
    }

    // An allocator reads the reports.
    fn look(&mut self, alloc: Global, allocator: u32) -> Result<(), OutOfMemory>
        requires allocator { allocator < length self.old.world.allocators }
        ensures world { OnOk result (self.new.world ≡ with_allocator self.old.world allocator
            (having_looked
            (λ reports task. M.Table.limit_at (M.table_of (M.plan self.old.maker) reports) task)
            self.old.world allocator)) }
        ensures refused { OnErr result (self.new.world ≡ self.old.world) }
        ensures plan { M.plan self.new.maker ≡ M.plan self.old.maker }
    {
        let rows = self.rows(alloc)?;
        let reading = Reading::new(self.revision, rows);
        self.allocators[allocator as usize].reading = Some(reading);
        Ok(())
    }

    // The rows of the table of all reports.
    fn rows(&mut self, alloc: Global) -> Result<Vec<Vec<u64>>, OutOfMemory>
        ensures rows { IfOk result (λ rows. lists_of rows.items ≡ rows_of
            (λ reports task. M.Table.limit_at (M.table_of (M.plan self.old.maker) reports) task)
            (reports_of self.old.world.reports) self.old.world.tasks) }
        ensures world { self.new.world ≡ self.old.world }
        ensures plan { M.plan self.new.maker ≡ M.plan self.old.maker }
    {
        let table = self.maker.table(alloc)?;
        rows_in(alloc, &table, self.tasks.as_slice())
    }

    // An allocator sends the transaction for what it read.
    fn send(&mut self, alloc: Global, allocator: u32, upto: u32) -> Result<(), OutOfMemory>
        requires allocator { allocator < length self.old.world.allocators }
        ensures world { OnOk result (self.new.world ≡ sent_by self.old.world allocator
            (sendable allocator upto (allocator_at self.old.world allocator).known
            (allocator_at self.old.world allocator).reading
            (allocator_at self.old.world allocator).waits)) }
        ensures refused { OnErr result (self.new.world ≡ self.old.world) }
        ensures maker { self.new.maker ≡ self.old.maker }
    {
        let number = self.sent.len() as u64;
        let it = &self.allocators[allocator as usize];
        if let Some(transaction) = transaction_by(alloc, it, allocator, upto)? {
            self.sent.push(Sent {
                transaction,
                outcome: Outcome::OnItsWay,
            })?;
            self.allocators[allocator as usize].waits = Some(number);
        }
        Ok(())
    }

    // The store takes a transaction that is on its way.
    fn take(&mut self, alloc: Global, number: u64) -> Result<(), OutOfMemory>
        requires number { number < length self.old.world.sent }
        requires revision { self.old.world.revision + 1 < 2 ^ 64 }
        ensures world { OnOk result (self.new.world ≡ taken self.old.world number
            (sent_at self.old.world number).transaction (sent_at self.old.world number).outcome) }
        ensures refused { OnErr result (self.new.world ≡ self.old.world) }
        ensures maker { self.new.maker ≡ self.old.maker }
    {
        let sent = &self.sent[number as usize];
        match sent.outcome {
            Outcome::OnItsWay => {
                if revision_of(self.leader) == sent.transaction.fence {
                    self.put(alloc, number)
                } else {
                    self.sent[number as usize].outcome = Outcome::Refused;
                    Ok(())
                }
            }
            Outcome::Done { revision: _ } => Ok(()),
            Outcome::Refused => Ok(()),
            Outcome::Lost => Ok(()),
        }
    }

    // The store writes what a transaction puts.
    fn put(&mut self, alloc: Global, number: u64) -> Result<(), OutOfMemory>
        requires number { number < length self.old.world.sent }
        requires revision { self.old.world.revision + 1 < 2 ^ 64 }
        ensures world { OnOk result (self.new.world ≡ done self.old.world number
            (sent_at self.old.world number).transaction (self.old.world.revision + 1)) }
        ensures refused { OnErr result (self.new.world ≡ self.old.world) }
        ensures maker { self.new.maker ≡ self.old.maker }
    {
        let revision = self.revision + 1;
        let transaction = &self.sent[number as usize].transaction;
        let holder = transaction.holder;
        let writes = transaction.writes.as_slice();
        let slices = written_over(alloc, writes, self.slices.as_slice())?;
        let posting = posting_of(alloc, transaction, revision, slices.as_slice())?;
        if let Some(posting) = posting {
            self.posted = Some(posting);
        }
        self.slices = slices;
        self.revision = revision;
        self.leader = Some(Leader {
            holder,
            created: created_by(self.leader, revision),
            revision,
        });
        self.sent[number as usize].outcome = Outcome::Done { revision };
        Ok(())
    }

    // A transaction is lost on its way.
    fn lose(&mut self, number: u64)
        requires number { number < length self.old.world.sent }
        ensures world { self.new.world ≡ lost self.old.world number
            (sent_at self.old.world number).transaction (sent_at self.old.world number).outcome }
        ensures maker { self.new.maker ≡ self.old.maker }
    {
        let sent = &mut self.sent[number as usize];
        if let Outcome::OnItsWay = sent.outcome {
            sent.outcome = Outcome::Lost;
        }
    }

    // An allocator learns the outcome of the transaction that it waits for, where there is one.
    fn learn(&mut self, alloc: Global, allocator: u32) -> Result<(), OutOfMemory>
        requires allocator { allocator < length self.old.world.allocators }
        ensures world { OnOk result (self.new.world ≡ learned self.old.world allocator
            (allocator_at self.old.world allocator).waits) }
        ensures refused { OnErr result (self.new.world ≡ self.old.world) }
        ensures maker { self.new.maker ≡ self.old.maker }
    {
        let Some(number) = self.allocators[allocator as usize].waits else {
            return Ok(());
        };
        let Some(sent) = self.sent.get(number as usize) else {
            return Ok(());
        };
        match sent.outcome {
            Outcome::Done { revision } => {
                let known = known_after(alloc, &sent.transaction, revision)?;
                self.allocators[allocator as usize].knows(Some(known));
            }
            Outcome::Refused => self.allocators[allocator as usize].knows(None),
            Outcome::OnItsWay => {}
            Outcome::Lost => {}
        }
        Ok(())
    }

    // An allocator waits no longer, and knows nothing.
    fn give_up(&mut self, allocator: u32)
        requires allocator { allocator < length self.old.world.allocators }
        ensures world { self.new.world ≡ given_up self.old.world allocator
            (allocator_at self.old.world allocator).waits }
        ensures maker { self.new.maker ≡ self.old.maker }
    {
        let it = &mut self.allocators[allocator as usize];
        if it.waits.is_some() {
            it.knows(None);
        }
    }

    // An allocator starts anew.
    fn crash(&mut self, allocator: u32)
        requires allocator { allocator < length self.old.world.allocators }
        ensures world { self.new.world ≡ with_allocator self.old.world allocator fresh }
        ensures maker { self.new.maker ≡ self.old.maker }
    {
        self.allocators[allocator as usize] = Allocator::fresh();
    }

    // A reader is told of what is posted.
    fn tell(&mut self, reader: u32, revision: u64)
        requires reader { reader < length self.old.world.readers }
        ensures world { self.new.world ≡ told_of self.old.world reader revision }
        ensures maker { self.new.maker ≡ self.old.maker }
    {
        if revision <= self.prefix() {
            let it = &mut self.readers[reader as usize];
            it.told = it.told.max(revision);
        }
    }

    // A reader reads.
    fn see(&mut self, reader: u32)
        requires reader { reader < length self.old.world.readers }
        ensures world { self.new.world ≡ seen_by self.old.world reader }
        ensures maker { self.new.maker ≡ self.old.maker }
    {
        let prefix = self.prefix();
        self.readers[reader as usize].seen = prefix;
    }

    /// The posted prefix, 0 where nothing is posted.
    pub fn prefix(&self) -> u64
        ensures { result ≡ prefix_of self.now.world.posted }
    {
        match self.posted.as_ref() {
            None => 0,
            Some(posting) => posting.prefix(),
        }
    }

    /// The store's revision.
    pub fn revision(&self) -> u64
        ensures { result ≡ self.now.world.revision }
    {
        self.revision
    }

    /// The history of reports.
    pub fn reports(&self) -> &[Entry]
        ensures { result.now ≡ self.now.world.reports }
    {
        self.reports.as_slice()
    }

    /// The leader key.
    pub fn leader(&self) -> Option<Leader>
        ensures { result ≡ self.now.world.leader }
    {
        self.leader
    }

    /// What is posted.
    pub fn posted(&self) -> Option<&Posting>
        ensures { option_map (λ posting. posting.now) result ≡ self.now.world.posted }
    {
        self.posted.as_ref()
    }

    /// How many reporters there are.
    pub fn reporters(&self) -> u64
        ensures { result ≡ length self.now.world.tasks }
    {
        self.tasks.len() as u64
    }

    /// A reporter's slice.
    pub fn slice(&self, reporter: u32) -> Option<&Slice>
        ensures { option_map (λ slice. slice.now) result
            ≡ slice_of self.now.world.slices reporter }
    {
        slice_at(self.slices.as_slice(), reporter as usize)
    }

    /// The allocators.
    pub fn allocators(&self) -> &[Allocator]
        ensures { result.now ≡ self.now.world.allocators }
    {
        self.allocators.as_slice()
    }

    /// Every transaction that was ever sent.
    pub fn sent(&self) -> &[Sent]
        ensures { result.now ≡ self.now.world.sent }
    {
        self.sent.as_slice()
    }

    /// The readers.
    pub fn readers(&self) -> &[Reader]
        ensures { result.now ≡ self.now.world.readers }
    {
        self.readers.as_slice()
    }
}

// So many allocators that know nothing.
#[tactic(auto, using(crate::proofs::Loops::one_same))]
fn fresh_allocators(alloc: Global, count: u32) -> Result<Vec<Allocator>, OutOfMemory>
    ensures { IfOk result (λ allocators. allocators.items ≡ replicate count fresh) }
{
    let mut allocators = Vec::with_capacity(alloc, count as usize)?;
    for _ in 0..count {
        allocators.push(Allocator::fresh())?;
    }
    Ok(allocators)
}

// What an allocator knows that reads the leader key and the slices.
fn known_to(
    alloc: Global,
    allocator: u32,
    slices: &[Option<Slice>],
    leader: Option<Leader>,
) -> Result<Option<Known>, OutOfMemory>
    ensures { IfOk result (λ known. known ≡ known_of allocator slices.now leader) }
{
    match leader {
        None => Ok(None),
        Some(leader) => {
            if leader.holder == allocator {
                let slices = copies(alloc, slices)?;
                Ok(Some(Known::new(leader.revision, leader.revision, slices)))
            } else {
                Ok(None)
            }
        }
    }
}

// The transaction that an allocator may send.
fn transaction_by(
    alloc: Global,
    it: &Allocator,
    holder: u32,
    upto: u32,
) -> Result<Option<Transaction>, OutOfMemory>
    ensures { IfOk result (λ transaction. transaction
        ≡ sendable holder upto it.now.known it.now.reading it.now.waits) }
{
    match (it.known(), it.reading(), it.waits()) {
        (Some(known), Some(reading), None) => {
            if known.since() <= reading.revision() {
                Ok(Some(transaction_for(alloc, holder, upto, known, reading)?))
            } else {
                Ok(None)
            }
        }
        _ => Ok(None),
    }
}

// The leader key's modification revision, 0 where there is no key.
fn revision_of(leader: Option<Leader>) -> u64
    ensures { result ≡ leader_revision leader }
{
    match leader {
        None => 0,
        Some(leader) => leader.revision,
    }
}

// The leader key's create revision, once it is written at a revision.
fn created_by(leader: Option<Leader>, revision: u64) -> u64
    ensures { result ≡ created_of leader revision }
{
    match leader {
        None => revision,
        Some(leader) => leader.created,
    }
}

// What a transaction posts.
fn posting_of(
    alloc: Global,
    transaction: &Transaction,
    revision: u64,
    slices: &[Option<Slice>],
) -> Result<Option<Posting>, OutOfMemory>
    ensures { IfOk result (λ posting. posting ≡ (if transaction.now.posts
        then Some (record {
          prefix = transaction.now.prefix;
          revision = revision;
          slices = slices.now;
        }) else None)) }
{
    if transaction.posts() {
        let slices = copies(alloc, slices)?;
        Ok(Some(Posting::new(transaction.prefix(), revision, slices)))
    } else {
        Ok(None)
    }
}

// What an allocator knows once its transaction is done at a revision.
fn known_after(
    alloc: Global,
    transaction: &Transaction,
    revision: u64,
) -> Result<Known, OutOfMemory>
    ensures { IfOk result (λ known. known ≡ record {
      fence = revision;
      since = since_after transaction.now revision;
      slices = transaction.now.after;
    }) }
{
    let after = copies(alloc, transaction.after.as_slice())?;
    let since = if transaction.posts {
        revision
    } else {
        transaction.since
    };
    Ok(Known::new(revision, since, after))
}
