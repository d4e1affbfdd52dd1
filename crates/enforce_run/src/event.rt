//! Written events, and why a text has none.

ghost use Rattle.enforce_run.specs.declared.event.EventError.TheVariants.{OutOfMemory};

use std::alloc::AllocFailed;

/// An event. Messages to the regions and messages to the centre are numbered apart, each from 0.
#[derive(Clone, Copy, Debug, PartialEq, Eq)]
pub enum EventLine {
    /// The table of the first `upto` reports is posted: of as many as are posted where these are
    /// more, and of all where there are fewer.
    Post { upto: u64 },
    /// The posted limits of a region's tasks are sent to it.
    Send { region: u32 },
    /// A message to a region is delivered.
    Deliver { message: u64 },
    /// A message to the centre is delivered.
    Reply { message: u64 },
    /// A region starts again.
    Restart { region: u32 },
}

/// Why a text has no events.
#[derive(Clone, Copy, Debug, PartialEq, Eq)]
pub enum EventError {
    /// The first line at fault, counted from 0: it is no line of an event, or names a region or
    /// message that is not there at that point, or is one too many.
    BadLine { line: u64 },
    OutOfMemory,
}

impl<T: Drop> From<AllocFailed<T>> for EventError {
    ghost use Rattle.std.specs.Prelude.{◌≡◌};

    ghost from_gives = { λ _ error. error ≡ OutOfMemory };

    fn from(_failed: AllocFailed<T>) -> EventError {
        EventError::OutOfMemory
    }
}
