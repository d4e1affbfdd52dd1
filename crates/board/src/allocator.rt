//! The allocator's pass.

ghost use Rattle.std.specs.Prelude.{◌≡◌, ◌+◌, ◌-◌, ◌^◌, ◌<◌, min};

use board_log::Bases;
use board_pair::Ack;
use std::marker::Model;

/// The allocator's pass: the ack of what it saw posted last, and how many rounds it has made.
#[derive(Drop)]
pub struct AllocatorPass<B: Bases> {
    posted: Ack<B>,
    rounds: u64,
}

impl<B: Bases> Model for AllocatorPass<B> {
    ghost use Rattle.board.specs.Allocating.{Allocating};

    ghost Value = { Allocating };

    ghost view = { λ pass. record { posted = pass.posted; rounds = pass.rounds } };
}

impl<B: Bases> AllocatorPass<B> {
    // A pass that has made no round.
    pub(crate) fn new(posted: Ack<B>) -> AllocatorPass<B>
        ensures pass { result ≡ record { posted = posted; rounds = 0 } }
    {
        AllocatorPass { posted, rounds: 0 }
    }

    /// The ack of what the last round saw posted.
    pub fn ack(&self) -> &Ack<B>
        ensures ack { result.now ≡ self.now.posted }
    {
        &self.posted
    }

    /// How many rounds it has made that were answered. It stays at the last value once it is there.
    pub fn rounds(&self) -> u64
        ensures rounds { result ≡ self.now.rounds }
    {
        self.rounds
    }

    /// Does nothing. Who calls it knows that 64 bits count the rounds.
    pub fn what_holds(&self)
        ensures { self.now.rounds < 2 ^ 64 }
    {
        let _rounds = self.rounds;
    }

    // Counts a round, which saw so much posted.
    pub(crate) fn count(&mut self, posted: Ack<B>)
        ensures posted { self.new.posted ≡ posted }
        ensures rounds { self.new.rounds ≡ min (self.old.rounds + 1) (2 ^ 64 - 1) }
    {
        self.posted = posted;
        self.rounds = self.rounds.saturating_add(1);
    }
}
