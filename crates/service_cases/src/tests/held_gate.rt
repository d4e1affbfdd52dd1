//! Gates that hold a reader until a settle was answered, one of which counts the calls of each
//! kind.

use board::{Bases, Profile, View};
use crew_actors::{Actor, Gate};
use demand_book::Posted;
use std::sync::atomic::{AtomicU64, Ordering};
use std::thread::yield_now;

// How many turns a call is held for at most.
const TURNS: u64 = 10_000_000;

// How many calls of a kind have begun, and how many were answered. One thread alone counts them.
#[derive(Drop)]
struct Calls {
    begun: AtomicU64,
    answered: AtomicU64,
}

impl Calls {
    fn none() -> Calls {
        Calls {
            begun: AtomicU64::new(0),
            answered: AtomicU64::new(0),
        }
    }
}

fn count(calls: &AtomicU64) {
    let before = calls.load(Ordering::SeqCst);
    calls.store(before.saturating_add(1), Ordering::SeqCst);
}

// Waits for at most so many turns until so many calls were counted. A hold that ran out is noted.
fn hold(calls: &AtomicU64, wanted: u64, missed: &AtomicU64) {
    for _ in 0..TURNS {
        if calls.load(Ordering::SeqCst) >= wanted {
            return;
        }
        yield_now();
    }
    count(missed);
}

/// A gate for one reporter of two reports, and one reader.
///
/// The first report waits until the first read was shown. The reader is held there until the
/// settle, call 2, was answered.
#[derive(Drop)]
pub struct ToldGate {
    reporter: Calls,
    allocator: Calls,
    reader: Calls,
    missed: AtomicU64,
}

impl ToldGate {
    pub fn new() -> ToldGate {
        ToldGate {
            reporter: Calls::none(),
            allocator: Calls::none(),
            reader: Calls::none(),
            missed: AtomicU64::new(0),
        }
    }

    /// How many holds ran out of turns.
    pub fn missed(&self) -> u64 {
        self.missed.load(Ordering::SeqCst)
    }

    /// How many calls of the reporter, the allocator and the reader have begun.
    pub fn begun(&self) -> (u64, u64, u64) {
        (
            self.reporter.begun.load(Ordering::SeqCst),
            self.allocator.begun.load(Ordering::SeqCst),
            self.reader.begun.load(Ordering::SeqCst),
        )
    }

    /// How many of them were answered.
    pub fn answered(&self) -> (u64, u64, u64) {
        (
            self.reporter.answered.load(Ordering::SeqCst),
            self.allocator.answered.load(Ordering::SeqCst),
            self.reader.answered.load(Ordering::SeqCst),
        )
    }

    fn calls_of(&self, actor: Actor) -> &Calls {
        match actor {
            Actor::Reporter { .. } => &self.reporter,
            Actor::Allocator => &self.allocator,
            Actor::Reader { .. } => &self.reader,
        }
    }
}

impl Gate for ToldGate {
    fn before(&self, actor: Actor, call: u64) {
        count(&self.calls_of(actor).begun);
        if let (Actor::Reporter { .. }, 0) = (actor, call) {
            hold(&self.reader.answered, 1, &self.missed);
        }
    }

    fn after(&self, actor: Actor, _call: u64, _answer: Option<u64>) {
        count(&self.calls_of(actor).answered);
    }

    fn shown<T: Posted, N: Profile<T>, B: Bases>(
        &self,
        _reader: u32,
        call: u64,
        _view: &View<'_, T, N, B>,
    ) {
        count(&self.reader.answered);
        if call == 0 {
            hold(&self.reporter.answered, 3, &self.missed);
        }
    }
}

/// A gate for two reporters of one report each, and two readers.
///
/// Each reporter's report, call 0, waits for a read of both readers: that of reporter 0 until the
/// first reads were shown, that of reporter 1 until the second ones were. Behind each of the two
/// both readers are held until that reporter's settle, call 1, was answered.
#[derive(Drop)]
pub struct TurnsGate {
    first: AtomicU64,
    second: AtomicU64,
    reader: AtomicU64,
    other_reader: AtomicU64,
    missed: AtomicU64,
}

impl TurnsGate {
    pub fn new() -> TurnsGate {
        TurnsGate {
            first: AtomicU64::new(0),
            second: AtomicU64::new(0),
            reader: AtomicU64::new(0),
            other_reader: AtomicU64::new(0),
            missed: AtomicU64::new(0),
        }
    }

    /// How many holds ran out of turns.
    pub fn missed(&self) -> u64 {
        self.missed.load(Ordering::SeqCst)
    }
}

impl Gate for TurnsGate {
    fn before(&self, actor: Actor, call: u64) {
        if let (Actor::Reporter { number }, 0) = (actor, call) {
            let reads = u64::from(number).saturating_add(1);
            hold(&self.reader, reads, &self.missed);
            hold(&self.other_reader, reads, &self.missed);
        }
    }

    fn after(&self, actor: Actor, _call: u64, _answer: Option<u64>) {
        match actor {
            Actor::Reporter { number: 0 } => count(&self.first),
            Actor::Reporter { .. } => count(&self.second),
            _ => {}
        }
    }

    fn shown<T: Posted, N: Profile<T>, B: Bases>(
        &self,
        reader: u32,
        call: u64,
        _view: &View<'_, T, N, B>,
    ) {
        match reader {
            0 => count(&self.reader),
            _ => count(&self.other_reader),
        }
        match call {
            0 => hold(&self.first, 2, &self.missed),
            1 => hold(&self.second, 2, &self.missed),
            _ => {}
        }
    }
}
