//! A gate with three holds, which keeps what it is shown.

use board::{Bases, Profile, View};
use bwe_specs::{Report, Target};
use crew_actors::{Actor, Gate};
use demand_book::Posted;
use std::sync::atomic::{AtomicU64, Ordering};
use std::thread::yield_now;

// How many turns a call is held for at most.
const TURNS: u64 = 10_000_000;

/// A number that one thread leaves for others. It is 0 until then.
#[derive(Drop)]
pub struct Mark(AtomicU64);

impl Mark {
    fn new() -> Mark {
        Mark(AtomicU64::new(0))
    }

    fn put(&self, number: u64) {
        self.0.store(number, Ordering::SeqCst);
    }

    pub fn get(&self) -> u64 {
        self.0.load(Ordering::SeqCst)
    }
}

/// What a view showed.
#[derive(Drop)]
pub struct Line {
    pub prefix: Mark,
    pub total: Mark,
}

impl Line {
    fn new() -> Line {
        Line {
            prefix: Mark::new(),
            total: Mark::new(),
        }
    }
}

/// An entry that a view showed: the demand of a task.
#[derive(Drop)]
pub struct Entry {
    pub reporter: Mark,
    pub task: Mark,
    pub demand: Mark,
}

impl Entry {
    fn new() -> Entry {
        Entry {
            reporter: Mark::new(),
            task: Mark::new(),
            demand: Mark::new(),
        }
    }

    fn put(&self, report: Report) {
        if let Target::Task { number } = report.target {
            self.reporter.put(u64::from(report.reporter));
            self.task.put(u64::from(number));
            self.demand.put(report.amount);
        }
    }
}

/// What a reader of two reads was shown, and the entries of its last view.
#[derive(Drop)]
pub struct Shown {
    pub views: Mark,
    pub lines: [Line; 2],
    pub length: Mark,
    pub entries: [Entry; 3],
}

impl Shown {
    fn new() -> Shown {
        Shown {
            views: Mark::new(),
            lines: [Line::new(), Line::new()],
            length: Mark::new(),
            entries: [Entry::new(), Entry::new(), Entry::new()],
        }
    }

    fn put<T: Posted, N: Profile<T>, B: Bases>(&self, call: u64, view: &View<'_, T, N, B>) {
        self.views.put(self.views.get().saturating_add(1));
        if let Some(line) = self.lines.get(call as usize) {
            line.prefix.put(view.prefix());
            line.total.put(view.total());
        }
        self.length.put(view.log_length());
        for (place, kept) in self.entries.iter().enumerate() {
            if let Some(report) = view.entry(place as u64) {
                kept.put(report);
            }
        }
    }
}

/// The gate of the case "Three holds".
///
/// Call 0 of reporter 1 waits until read 0 of reader 1 has come; that read waits until the call has
/// been answered; and call 1 of the reporter waits until that read has been answered. The first two
/// need two calls that are both under way.
#[derive(Drop)]
pub struct ThreeHolds {
    pub missed: Mark,
    pub readers: [Shown; 2],
    read_has_come: Mark,
    report_is_answered: Mark,
    read_is_answered: Mark,
}

impl ThreeHolds {
    pub fn new() -> ThreeHolds {
        ThreeHolds {
            missed: Mark::new(),
            readers: [Shown::new(), Shown::new()],
            read_has_come: Mark::new(),
            report_is_answered: Mark::new(),
            read_is_answered: Mark::new(),
        }
    }

    // Waits for at most so many turns until the mark is there.
    fn hold(&self, mark: &Mark) {
        for _ in 0..TURNS {
            if mark.get() > 0 {
                return;
            }
            yield_now();
        }
        self.missed.put(1);
    }
}

impl Gate for ThreeHolds {
    fn before(&self, actor: Actor, call: u64) {
        match (actor, call) {
            (Actor::Reporter { number: 1 }, 0) => self.hold(&self.read_has_come),
            (Actor::Reporter { number: 1 }, 1) => self.hold(&self.read_is_answered),
            (Actor::Reader { number: 1 }, 0) => {
                self.read_has_come.put(1);
                self.hold(&self.report_is_answered);
            }
            _ => {}
        }
    }

    fn after(&self, actor: Actor, call: u64, _answer: Option<u64>) {
        if let (Actor::Reporter { number: 1 }, 0) = (actor, call) {
            self.report_is_answered.put(1);
        }
    }

    fn shown<T: Posted, N: Profile<T>, B: Bases>(
        &self,
        reader: u32,
        call: u64,
        view: &View<'_, T, N, B>,
    ) {
        if let Some(shown) = self.readers.get(reader as usize) {
            shown.put(call, view);
        }
        if reader == 1 && call == 0 {
            self.read_is_answered.put(1);
        }
    }
}
