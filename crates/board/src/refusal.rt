//! Why a board takes no reports.

use bwe_specs::OutOfMemory;
use std::alloc::AllocError;
use thiserror::Error;

/// Why a piece of reports was refused.
#[derive(Clone, Copy, Debug, PartialEq, Eq, Error)]
pub enum ReportError {
    /// The log holds so many reports and has no room for the piece.
    #[error("the log is full with {held} reports")]
    Full { held: u64 },
    #[error("out of memory")]
    OutOfMemory,
}

impl From<AllocError> for ReportError {
    ghost use Rattle.board.specs.declared.refusal.ReportError.TheVariants.{OutOfMemory};
    ghost use Rattle.std.specs.Prelude.{◌≡◌};

    ghost from_gives = { λ _ error. error ≡ OutOfMemory };

    fn from(_error: AllocError) -> ReportError {
        ReportError::OutOfMemory
    }
}

impl From<OutOfMemory> for ReportError {
    ghost use Rattle.board.specs.declared.refusal.ReportError.TheVariants.{OutOfMemory};
    ghost use Rattle.std.specs.Prelude.{◌≡◌};

    ghost from_gives = { λ _ error. error ≡ OutOfMemory };

    fn from(_error: OutOfMemory) -> ReportError {
        ReportError::OutOfMemory
    }
}
