//! The pass of a reporter.
ghost use Rattle.std.specs.Prelude.{◌≡◌, ◌++◌, ◌+◌, ◌≤◌, [], length, OnOk};
ghost use Rattle.std.specs.List.{All};
ghost use mathlib.Core.List.{IsPrefix};
ghost use Rattle.board_log.specs.Roll.{IsBy, placed, own_of};
ghost use Rattle.board_log.specs.Laws.{StandIn};

use board_log::{Bases, Beginning, Member, Roll};
use board_pair::Ack;
use bwe_specs::{MAX_REPORTS, OutOfMemory, Report};
use std::marker::Model;

/// A reporter's pass: its number, its own reports with their places, and the log that it has seen.
#[derive(Drop)]
pub struct ReporterPass<B: Bases> {
    number: u32,
    sent: u64,
    pub(crate) known: Beginning<B>,
    // None only while a call has it
    member: Option<Member<B>>,
}

impl<B: Bases> Model for ReporterPass<B> {
    ghost use Rattle.board.specs.Reporting.{Reporting, IsReporting, own_in};

    ghost Value = { Reporting };

    ghost view = { λ pass. record {
      number = pass.number;
      own = own_in pass.member;
      seen =
          pass.known;
    } };

    ghost invariant = { λ pass. IsReporting pass.number pass.sent pass.known pass.member };
}

impl<B: Bases> ReporterPass<B> {
    // A pass that has sent nothing.
    pub(crate) fn new(number: u32, member: Member<B>, known: Beginning<B>) -> ReporterPass<B>
        requires member { member ≡ record { number = number; own = [] } }
        ensures pass { result ≡ record { number = number; own = []; seen = known } }
    {
        ReporterPass {
            number,
            sent: 0,
            known,
            member: Some(member),
        }
    }

    /// The number of its reporter.
    pub fn number(&self) -> u32
        ensures number { result ≡ self.now.number }
        ensures placed { StandIn self.now.seen self.now.own }
    {
        self.number
    }

    /// How many reports it has sent.
    pub fn sent(&self) -> u64
        ensures sent { result ≡ length self.now.own }
    {
        self.sent
    }

    /// Sees at least what the ack holds.
    ///
    /// It takes no memory.
    #[tactic(auto, using(board_log::proofs::Placing::stands_on))]
    pub fn learn(&mut self, ack: &Ack<B>) -> Result<(), OutOfMemory>
        ensures told { OnOk result (IsPrefix ack.now self.new.seen) }
        ensures seen { IsPrefix self.old.seen self.new.seen }
        ensures number { self.new.number ≡ self.old.number }
        ensures own { self.new.own ≡ self.old.own }
    {
        if self.known.begins(ack.known()) {
            self.known = ack.known().copy();
        }
        Ok(())
    }

    // Sends a piece, which comes to the end of the log.
    #[tactic(auto, using(board_log::proofs::Placing::stands_on))]
    pub(crate) fn send(&mut self, roll: &mut Roll<B>, piece: &Vec<Report>, whole: Beginning<B>)
        requires by { All (IsBy self.old.number) piece.now.items }
        requires whole { whole ≡ roll.old.log ++ piece.now.items }
        requires room { length whole ≤ MAX_REPORTS }
        ensures log { roll.new.log ≡ whole }
        ensures members { roll.new.members ≡ roll.old.members }
        ensures number { self.new.number ≡ self.old.number }
        ensures seen { self.new.seen ≡ whole }
        ensures own { self.new.own ≡ self.old.own ++ placed self.old.number (length roll.old.log)
            piece.now.items }
        ensures exact { self.new.own ≡ own_of self.old.number whole }
    {
        let Some(member) = self.member.take() else {
            unreachable!()
        };
        self.member = Some(roll.append(member, piece));
        self.sent += piece.len() as u64;
        self.known = whole;
    }

    // Sees a longer log.
    #[tactic(auto, using(board_log::proofs::Placing::stands_on))]
    pub(crate) fn see(&mut self, whole: Beginning<B>)
        requires longer { IsPrefix self.old.seen whole }
        ensures seen { self.new.seen ≡ whole }
        ensures number { self.new.number ≡ self.old.number }
        ensures own { self.new.own ≡ self.old.own }
    {
        self.known = whole;
    }

    // Compares its own list with the log.
    pub(crate) fn compare(&mut self, roll: &mut Roll<B>)
        ensures roll { roll.new ≡ roll.old }
        ensures pass { self.new ≡ self.old }
        ensures exact { self.new.own ≡ own_of self.old.number roll.old.log }
    {
        let Some(member) = self.member.take() else {
            unreachable!()
        };
        self.member = Some(roll.check(member));
    }
}
