//! What happens to a board, and what it answers.

ghost use Rattle.std.specs.Prelude.{◌≡◌};
ghost use Rattle.board_core.specs.declared.event.CoreError.TheVariants.{OutOfMemory};

use crate::piece::Piece;
use std::alloc::AllocError;

/// What happens to a board.
#[derive(Drop)]
pub enum CoreEvent {
    /// A reporter adds a piece to the log. The piece enters whole, or not at all.
    Report { reporter: u32, reports: Piece },
    /// The table of the first `upto` reports is made and posted: of more where the maker has taken
    /// in more, and of all where there are fewer.
    Post { upto: u64 },
    /// A reader is told that a table of so many reports was posted.
    Tell { reader: u32, prefix: u64 },
    /// A reader reads the posted table.
    Read { reader: u32 },
}

/// What an event answers.
#[derive(Clone, Copy, Debug, PartialEq, Eq)]
pub enum CoreAnswer {
    /// The place of the piece's first report.
    Placed { first: u64 },
    /// How many reports the posted table covers.
    Posted { prefix: u64 },
    /// The reader's floor.
    Told { prefix: u64 },
    /// How many reports the posted table covers, and its total in kilobits per second.
    Seen { prefix: u64, total: u64 },
}

/// Why an event was refused. `Full` is looked at first.
#[derive(Clone, Copy, Debug, PartialEq, Eq)]
pub enum CoreError {
    /// With the piece the log would have more reports than a log may have. It carries how many are
    /// held.
    Full { held: u64 },
    OutOfMemory,
}

impl From<AllocError> for CoreError {
    ghost from_gives = { λ _ error. error ≡ OutOfMemory };

    fn from(_error: AllocError) -> CoreError {
        CoreError::OutOfMemory
    }
}

impl From<bwe_specs::OutOfMemory> for CoreError {
    ghost from_gives = { λ _ error. error ≡ OutOfMemory };

    fn from(_error: bwe_specs::OutOfMemory) -> CoreError {
        CoreError::OutOfMemory
    }
}
