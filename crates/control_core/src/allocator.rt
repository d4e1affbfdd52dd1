//! An allocator.

ghost use Rattle.std.specs.Prelude.{◌≡◌, None, IfOk, option_map};
ghost use Rattle.bwe_specs.specs.Lists.{lists_of};
ghost use Rattle.control_core.specs.World.{fresh, transaction_of};

use crate::sent::Transaction;
use crate::slice::Slice;
use crate::tables::{is_table, writes, written_over};
use bwe_specs::OutOfMemory;
use std::alloc::Global;
use std::marker::Model;

/// What an allocator that leads knows: the modification revision of the leader key, a revision at
/// or before which all was posted that is posted while the key is so, and the slices that stand
/// then.
#[derive(Drop)]
pub struct Known {
    pub(crate) fence: u64,
    pub(crate) since: u64,
    pub(crate) slices: Vec<Option<Slice>>,
}

impl Model for Known {
    ghost use Rattle.control_core.specs.World.{Known as KnownView};

    ghost Value = { KnownView };

    ghost view = { λ known.
        record { fence = known.fence; since = known.since; slices = known.slices.items } };
}

impl Known {
    pub(crate) fn new(fence: u64, since: u64, slices: Vec<Option<Slice>>) -> Known
        ensures { result ≡ record { fence = fence; since = since; slices = slices.items } }
    {
        Known {
            fence,
            since,
            slices,
        }
    }

    /// What it compares the leader key's modification revision with.
    pub fn fence(&self) -> u64
        ensures { result ≡ self.now.fence }
    {
        self.fence
    }

    /// It sends no transaction for an older reading.
    pub fn since(&self) -> u64
        ensures { result ≡ self.now.since }
    {
        self.since
    }
}

/// A reading of the reports at one revision, as the rows of their table.
#[derive(Drop)]
pub struct Reading {
    pub(crate) revision: u64,
    pub(crate) rows: Vec<Vec<u64>>,
}

impl Model for Reading {
    ghost use Rattle.bwe_specs.specs.Lists.{lists_of};
    ghost use Rattle.control_core.specs.World.{Reading as ReadingView};

    ghost Value = { ReadingView };

    ghost view = { λ reading.
        record { revision = reading.revision; rows = lists_of reading.rows.items } };
}

impl Reading {
    pub(crate) fn new(revision: u64, rows: Vec<Vec<u64>>) -> Reading
        ensures { result ≡ record { revision = revision; rows = lists_of rows.items } }
    {
        Reading { revision, rows }
    }

    /// The revision of the reading.
    pub fn revision(&self) -> u64
        ensures { result ≡ self.now.revision }
    {
        self.revision
    }
}

/// An allocator: what it knows, what it read, and the number of the transaction whose outcome it
/// waits for.
#[derive(Drop)]
pub struct Allocator {
    pub(crate) known: Option<Known>,
    pub(crate) reading: Option<Reading>,
    pub(crate) waits: Option<u64>,
}

impl Model for Allocator {
    ghost use Rattle.control_core.specs.World.{Allocator as AllocatorView};

    ghost Value = { AllocatorView };

    ghost view = { λ it. record { known = it.known; reading = it.reading; waits = it.waits } };
}

impl Allocator {
    /// It knows nothing.
    pub(crate) fn fresh() -> Allocator
        ensures { result ≡ fresh }
    {
        Allocator {
            known: None,
            reading: None,
            waits: None,
        }
    }

    /// It knows this, and waits for no outcome.
    pub(crate) fn knows(&mut self, known: Option<Known>)
        ensures { self.new ≡ record self.old { known = known; waits = None } }
    {
        self.known = known;
        self.waits = None;
    }

    /// What it knows.
    pub fn known(&self) -> Option<&Known>
        ensures { option_map (λ known. known.now) result ≡ self.now.known }
    {
        self.known.as_ref()
    }

    /// What it read.
    pub fn reading(&self) -> Option<&Reading>
        ensures { option_map (λ reading. reading.now) result ≡ self.now.reading }
    {
        self.reading.as_ref()
    }

    /// The transaction whose outcome it waits for.
    pub fn waits(&self) -> Option<u64>
        ensures { result ≡ self.now.waits }
    {
        self.waits
    }
}

/// The transaction for what was read, over what is known.
pub(crate) fn transaction_for(
    alloc: Global,
    holder: u32,
    upto: u32,
    known: &Known,
    reading: &Reading,
) -> Result<Transaction, OutOfMemory>
    ensures { IfOk result (λ transaction. transaction
        ≡ transaction_of holder upto known.now reading.now) }
{
    let rows = reading.rows.as_slice();
    let slices = known.slices.as_slice();
    let writes = writes(alloc, reading.revision, upto, slices, rows)?;
    let after = written_over(alloc, writes.as_slice(), slices)?;
    let posts = is_table(after.as_slice(), rows);
    Ok(Transaction {
        holder,
        fence: known.fence,
        prefix: reading.revision,
        writes,
        posts,
        since: known.since,
        after,
    })
}
