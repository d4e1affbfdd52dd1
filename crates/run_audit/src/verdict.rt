//! The verdict on a text.

ghost use Rattle.std.specs.Prelude.{◌≡◌};
ghost use Rattle.run_audit.specs.declared.verdict.Stop.TheVariants.{At, OutOfMemory};

use std::alloc::{AllocError, AllocFailed};

/// Why a line is at fault, in the order in which causes win on one line.
#[derive(Clone, Copy, Debug, PartialEq, Eq, Drop)]
pub enum AuditCause {
    /// The line is not of the form that is due, or there is no such line.
    Form,
    /// The history is not that of the scripts.
    Script,
    /// The line is not that of the next reporter with the length of its script.
    Sent,
    /// A reader's number is not the next, or its block has too many reads, or not as many as the
    /// first.
    Reader,
    /// A reader's length is not that of the history.
    Length,
    /// A floor or a prefix falls, is too great, or at the end too small.
    Prefix,
    /// A total is not that of the table of so many reports.
    Total,
    /// The line is not that of the table in its place, or the text goes on after the table.
    Table,
}

/// Whether a text is legal, or its first line at fault, from 0, and why.
#[derive(Clone, Copy, Debug, PartialEq, Eq, Drop)]
pub enum AuditVerdict {
    Legal,
    Wrong { line: u64, cause: AuditCause },
}

/// A line at fault.
#[derive(Clone, Copy, Drop)]
pub struct Fault {
    pub line: u64,
    pub cause: AuditCause,
}

/// Why the reading of lines stops.
#[derive(Clone, Copy, Drop)]
pub(crate) enum Stop {
    At { fault: Fault },
    OutOfMemory,
}

impl From<Fault> for Stop {
    ghost from_gives = { λ fault stop. stop ≡ At fault };

    fn from(fault: Fault) -> Stop {
        Stop::At { fault }
    }
}

impl From<AllocError> for Stop {
    ghost from_gives = { λ _ stop. stop ≡ OutOfMemory };

    fn from(_error: AllocError) -> Stop {
        Stop::OutOfMemory
    }
}

impl<T: Drop> From<AllocFailed<T>> for Stop {
    ghost from_gives = { λ _ stop. stop ≡ OutOfMemory };

    fn from(_failed: AllocFailed<T>) -> Stop {
        Stop::OutOfMemory
    }
}
