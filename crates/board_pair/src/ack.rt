//! Acknowledgements, each of a posted table.

ghost use Rattle.std.specs.Prelude.{◌≡◌, length, take};
ghost use mathlib.Core.List.{IsPrefix};

use crate::poster::Desk;
use board_log::{Bases, Beginning, EndedLog, Profile};
use demand_book::Posted;
use std::marker::Model;
use std::sync::Mutex;

/// An acknowledgement: the first reports of the log, all of which a posted table covers. Contracts
/// see it as those reports.
///
/// `Ack::of` alone makes one, of what a poster shows: who has an ack knows that a table of so many
/// reports was posted. It holds no table. Passes of its board `learn` it.
#[derive(Drop)]
pub struct Ack<B: Bases> {
    known: Beginning<B>,
}

impl<B: Bases> Model for Ack<B> {
    ghost use Rattle.std.specs.Prelude.{List};
    ghost use Rattle.bwe_specs.specs.declared.report.Report.{Report};

    ghost Value = { List Report };

    ghost view = { λ ack. ack.known };
}

impl<B: Bases> Ack<B> {
    /// The ack of what is posted: the reports that the table covers which a poster shows.
    pub fn of<T: Posted, N: Profile<T>>(poster: &Desk<T, N, B>) -> Ack<B>
        ensures reports { result ≡ take (T.covers poster.now.shown.table) poster.now.shown.log }
        ensures covers { length result ≡ T.covers poster.now.shown.table }
    {
        let pair = poster.shown();
        Ack {
            known: pair.covered(),
        }
    }

    /// How many reports it holds.
    pub fn prefix(&self) -> u64
        ensures prefix { result ≡ length self.now }
    {
        self.known.len()
    }

    /// The reports that it holds, as a beginning of their log.
    pub fn known(&self) -> &Beginning<B>
        ensures known { result.now ≡ self.now }
    {
        &self.known
    }
}

/// What is left for readers: the newest acknowledgement. Contracts see it as its reports.
///
/// There is always one: at first that of what was posted when the desk was opened. `Desk::open`
/// alone makes this, one for a desk, and `leave` alone changes it, to a later one.
#[derive(Drop)]
pub struct Newest<B: Bases> {
    ack: Ack<B>,
}

impl<B: Bases> Model for Newest<B> {
    ghost use Rattle.std.specs.Prelude.{List};
    ghost use Rattle.bwe_specs.specs.declared.report.Report.{Report};

    ghost Value = { List Report };

    ghost view = { λ newest. newest.ack };
}

/// The place where the newest acknowledgement is left, which actors share.
pub type NewestAck<B> = Mutex<Newest<B>>;

/// An acknowledgement that was left: `Newest::leave` alone makes one. Contracts see it as the
/// reports that it holds.
#[derive(Drop)]
pub struct Left<B: Bases> {
    known: Beginning<B>,
}

impl<B: Bases> Model for Left<B> {
    ghost use Rattle.std.specs.Prelude.{List};
    ghost use Rattle.bwe_specs.specs.declared.report.Report.{Report};

    ghost Value = { List Report };

    ghost view = { λ left. left.known };
}

impl<B: Bases> Newest<B> {
    // What is left when a desk is opened.
    pub(crate) fn new(ack: Ack<B>) -> Newest<B>
        ensures ack { result ≡ ack }
    {
        Newest { ack }
    }

    /// Leaves an acknowledgement, where no later one was left.
    #[tactic(auto, using(board_log::proofs::Prefixes::prefix_self))]
    pub fn leave(&mut self, ack: Ack<B>) -> Left<B>
        ensures left { result ≡ ack }
        // It holds this one from now on, and all that was left before.
        ensures holds { IsPrefix ack self.new }
        ensures kept { IsPrefix self.old self.new }
    {
        let left = Left {
            known: ack.known.copy(),
        };
        if !ack.known.begins(&self.ack.known) {
            self.ack = ack;
        }
        left
    }

    /// The newest acknowledgement.
    pub fn ack(&self) -> &Ack<B>
        ensures ack { result.now ≡ self.now }
    {
        &self.ack
    }
}

impl<B: Bases> Left<B> {
    /// How many reports the acknowledgement holds.
    pub fn prefix(&self) -> u64
        ensures prefix { result ≡ length self.now }
    {
        self.known.len()
    }
}

/// The ack of the end: all of a log that has ended, to which nothing is ever added. Contracts see
/// it as those reports.
#[derive(Drop)]
pub struct FinalAck<B: Bases> {
    ack: Ack<B>,
    log: EndedLog<B>,
}

impl<B: Bases> Model for FinalAck<B> {
    ghost use Rattle.std.specs.Prelude.{◌≡◌, List};
    ghost use Rattle.bwe_specs.specs.declared.report.Report.{Report};

    ghost Value = { List Report };

    ghost view = { λ last. last.ack };

    ghost invariant = { λ last. last.log ≡ last.ack };
}

impl<B: Bases> FinalAck<B> {
    /// An ack of the whole log, once that has ended.
    pub fn new(ack: Ack<B>, log: EndedLog<B>) -> FinalAck<B>
        requires whole { log ≡ ack }
        ensures reports { result ≡ ack }
    {
        FinalAck { ack, log }
    }

    /// The ack, which passes learn.
    pub fn ack(&self) -> &Ack<B>
        ensures ack { result.now ≡ self.now }
    {
        &self.ack
    }

    /// How many reports it holds.
    pub fn prefix(&self) -> u64
        ensures prefix { result ≡ length self.now }
    {
        self.ack.prefix()
    }

    // Shows that what was seen of the log is a beginning of it.
    pub(crate) fn holds(&self, known: &Beginning<B>)
        ensures within { IsPrefix known.now self.now }
    {
        self.log.holds(known);
    }
}
