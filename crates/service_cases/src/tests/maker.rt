//! A small maker whose calls a test can refuse or hold up.
ghost use Rattle.std.specs.Prelude.{◌≡◌, [], List, refl};
ghost use Rattle.bwe_specs.specs.declared.report.Report.{Report};
ghost use Rattle.report_book.specs.Small.{HasSummed, small_table};

use bwe_specs::{OutOfMemory, Report};
use demand_book::Maker;
use report_book::{SmallMaker, SmallTable};
use std::alloc::Global;
use std::sync::atomic::{AtomicU64, Ordering};
use std::thread::yield_now;

const TURNS: u64 = 10_000_000;

/// What a maker and a reporter wait for from each other.
#[derive(Drop)]
pub struct Meeting {
    pub begun: AtomicU64,
    pub answered: AtomicU64,
    pub missed: AtomicU64,
}

impl Meeting {
    pub fn new() -> Meeting {
        Meeting {
            begun: AtomicU64::new(0),
            answered: AtomicU64::new(0),
            missed: AtomicU64::new(0),
        }
    }

    /// Waits for at most so many turns until the flag is up.
    pub fn wait_for(&self, flag: &AtomicU64) {
        for _ in 0..TURNS {
            if flag.load(Ordering::SeqCst) > 0 {
                return;
            }
            yield_now();
        }
        self.missed.store(1, Ordering::SeqCst);
    }
}

/// A small maker that counts its calls from 0 and refuses one of them, and whose table of a list
/// that isn't empty waits for a meeting.
#[derive(Drop)]
pub struct TestMaker<'a> {
    pub inner: SmallMaker,
    calls: u64,
    refused: Option<u64>,
    meeting: Option<&'a Meeting>,
    reports: u64,
}

impl<'a> TestMaker<'a> {
    pub fn new(refused: Option<u64>, meeting: Option<&'a Meeting>) -> TestMaker<'a>
        ensures plan { ⟦<SmallMaker as Maker>⟧.plan result.inner ≡ (2, 1) }
        ensures empty { HasSummed result.inner [] }
    {
        TestMaker {
            inner: SmallMaker::new(2, 1),
            calls: 0,
            refused,
            meeting,
            reports: 0,
        }
    }

    // Whether this call is refused.
    fn is_refused(&mut self) -> bool
        ensures inner { self.new.inner ≡ self.old.inner }
    {
        let refused = self.refused == Some(self.calls);
        self.calls = self.calls.saturating_add(1);
        refused
    }
}

impl Maker for TestMaker<'_> {
    type Table = SmallTable;

    type Plan = (u32, u32);

    ghost plan = { λ maker. ⟦<SmallMaker as Maker>⟧.plan maker.inner };

    ghost plan_tasks = { λ plan. plan.0 };

    ghost plan_links = { λ plan. plan.1 };

    ghost absorbed = { λ maker reports. HasSummed maker.inner reports };

    ghost table_of = { λ plan reports. small_table plan.0 reports };

    ghost covers_all = { λ plan reports. refl };

    ghost one_frame = { λ plan reports others. refl };

    ghost same_tasks = { λ plan reports. refl };

    fn tasks(&self) -> u32 {
        self.inner.tasks()
    }

    fn links(&self) -> u32 {
        self.inner.links()
    }

    fn absorb(&mut self, alloc: Global, report: Report) -> Result<(), OutOfMemory> {
        if self.is_refused() {
            return Err(OutOfMemory);
        }
        self.reports = self.reports.saturating_add(1);
        self.inner.absorb(alloc, report)
    }

    fn table(&mut self, alloc: Global) -> Result<SmallTable, OutOfMemory> {
        if self.is_refused() {
            return Err(OutOfMemory);
        }
        if let Some(meeting) = self.meeting {
            if self.reports > 0 {
                meeting.begun.store(1, Ordering::SeqCst);
                meeting.wait_for(&meeting.answered);
            }
        }
        self.inner.table(alloc)
    }
}
