//! What was sent.

ghost use Rattle.std.specs.Prelude.{◌≡◌, option_map};
ghost use Rattle.control_core.specs.World.{slice_at as slice_of};

use crate::slice::Slice;
use crate::tables::slice_at;
use std::marker::Model;

/// A transaction for a table: it compares the leader key's modification revision with the fence,
/// and then writes the key anew, some slices, and what is posted where it posts.
#[derive(Drop)]
pub struct Transaction {
    pub(crate) holder: u32,
    pub(crate) fence: u64,
    pub(crate) prefix: u64,
    pub(crate) writes: Vec<Option<Slice>>,
    pub(crate) posts: bool,
    pub(crate) since: u64,
    pub(crate) after: Vec<Option<Slice>>,
}

impl Model for Transaction {
    ghost use Rattle.control_core.specs.World.{Transaction as TransactionView};

    ghost Value = { TransactionView };

    ghost view = { λ it. record {
      holder = it.holder;
      fence = it.fence;
      prefix = it.prefix;
      writes = it.writes.items;
      posts = it.posts;
      since = it.since;
      after = it.after.items;
    } };
}

impl Transaction {
    /// The allocator that sent it.
    pub fn holder(&self) -> u32
        ensures { result ≡ self.now.holder }
    {
        self.holder
    }

    /// What it compares the leader key's modification revision with.
    pub fn fence(&self) -> u64
        ensures { result ≡ self.now.fence }
    {
        self.fence
    }

    /// The prefix of its table.
    pub fn prefix(&self) -> u64
        ensures { result ≡ self.now.prefix }
    {
        self.prefix
    }

    /// Whether it posts.
    pub fn posts(&self) -> bool
        ensures { result ≡ self.now.posts }
    {
        self.posts
    }

    /// What it writes of a reporter.
    pub fn write(&self, reporter: u32) -> Option<&Slice>
        ensures { option_map (λ slice. slice.now) result ≡ slice_of self.now.writes reporter }
    {
        slice_at(self.writes.as_slice(), reporter as usize)
    }
}

/// What became of a transaction.
#[derive(Clone, Copy, Debug, PartialEq, Eq)]
pub enum Outcome {
    /// The store may take it at any time.
    OnItsWay,
    /// The store wrote at this revision.
    Done { revision: u64 },
    /// The leader key's modification revision was not the fence.
    Refused,
    /// It never comes.
    Lost,
}

/// A transaction that was sent, and what became of it.
#[derive(Drop)]
pub struct Sent {
    pub(crate) transaction: Transaction,
    pub(crate) outcome: Outcome,
}

impl Model for Sent {
    ghost use Rattle.control_core.specs.World.{Sent as SentView};

    ghost Value = { SentView };

    ghost view = { λ sent. record { transaction = sent.transaction; outcome = sent.outcome } };
}

impl Sent {
    /// The transaction.
    pub fn transaction(&self) -> &Transaction
        ensures { result.now ≡ self.now.transaction }
    {
        &self.transaction
    }

    /// What became of it.
    pub fn outcome(&self) -> Outcome
        ensures { result ≡ self.now.outcome }
    {
        self.outcome
    }
}
