//! What happens.

use bwe_specs::Report;

/// What happens to a store, its allocators and its readers. An event that is not possible does
/// nothing.
#[derive(Clone, Copy, Debug, PartialEq, Eq)]
pub enum ControlEvent {
    /// A report enters the history.
    Report { report: Report },
    /// The store takes a campaign of an allocator, which gets the leader key where there is none.
    Campaign { allocator: u32 },
    /// The lease of the leader ends, whichever allocator holds it, and the key goes.
    Expire,
    /// An allocator reads the leader key, what is posted and the slices.
    Read { allocator: u32 },
    /// An allocator reads the reports.
    Look { allocator: u32 },
    /// An allocator sends a transaction for what it read, with the slices that differ of the
    /// reporters below a number; it posts where no slice differs then.
    Send { allocator: u32, upto: u32 },
    /// The store takes a transaction that is on its way, however old.
    Take { transaction: u64 },
    /// A transaction is lost on its way.
    Lose { transaction: u64 },
    /// An allocator learns the outcome of the transaction that it waits for.
    Learn { allocator: u32 },
    /// An allocator does not learn it, and waits no longer.
    GiveUp { allocator: u32 },
    /// An allocator crashes, and starts anew.
    Crash { allocator: u32 },
    /// A reader is told that what was reported at a revision is posted.
    Tell { reader: u32, revision: u64 },
    /// A reader reads what is posted.
    See { reader: u32 },
}
