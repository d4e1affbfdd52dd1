//! What a line may mean.

use bwe_specs::Report;

/// Why a line is refused, in the order in which the causes are looked at.
#[derive(Clone, Copy, Debug, PartialEq, Eq, Drop)]
pub enum LineCause {
    /// The format has no such line, or it is too long, or ends with the input.
    NoLine,
    /// The document has no such reporter, task or link.
    UnknownName,
    /// The amount is above `MAX_AMOUNT`.
    AmountOutOfRange,
    /// The reporter does not own the task or link.
    NotOwner,
}

/// What a line means.
#[derive(Clone, Copy, Debug, PartialEq, Eq, Drop)]
pub enum LineMeaning {
    /// One more report.
    NewReport { report: Report },
    /// `post`: what has changed is to be written.
    Post,
    /// `state`: the last reports are to be written.
    State,
    Refused { cause: LineCause },
}
