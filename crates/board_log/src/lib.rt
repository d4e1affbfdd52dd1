//! The log of reports as a history: it only grows, and each log that was seen is a beginning of it.
//!
//! `board` keeps a `WholeLog` and a `Roll` under its log lock, and gives each pass a `Beginning`,
//! each reporter's pass a `Member` too. It rests on four contracts. Of two beginnings one begins
//! the other, and `begins` says which. Once `WholeLog::end` has ended the log, `EndedLog::holds`
//! shows that whatever was seen of it is a beginning of that. `Roll::append` leaves a member with
//! all reports of its number in the log, and `check` shows it. No call waits, and only
//! `OpenedRoll::new` takes memory. A call costs by the piece and never by the log. The history
//! exists in the proofs alone: what threads share of it are tokens of no bytes, and the roll is one
//! word. Nothing is promised of the reports themselves, nor of the tables of a `Profile`, which
//! names a plan for the crates above.
#![tactic(auto)]

ghost use Rattle.board_log.specs.Laws.{OwnListsAreTheReports, OwnListsGrowByPieces, OwnListsStandInTheLog, OwnListsAddUp, PlacedPiecesAreThePieces};

mod bases;
mod history;
mod profile;
mod roll;

pub use bases::Bases;
pub use history::{Beginning, DeskRight, EndedLog, OpenedLog, WholeLog};
pub use profile::Profile;
pub use roll::{Member, OpenedRoll, PlacedReport, Roll};

/// A reporter's own list without the places is its reports in the log, in their order.
pub fn own_lists_are_the_reports()
    ensures { OwnListsAreTheReports }
{}

/// A piece at the end of the log adds to an own list just the piece's reports of that number.
pub fn own_lists_grow_by_pieces()
    ensures { OwnListsGrowByPieces }
{}

/// Each report of an own list stands in the log at its place.
pub fn own_lists_stand_in_the_log()
    ensures { OwnListsStandInTheLog }
{}

/// Together the reporters' own lists are as long as the log.
pub fn own_lists_add_up()
    ensures { OwnListsAddUp }
{}

/// A reporter's piece with places, without the places again, is the piece.
pub fn placed_pieces_are_the_pieces()
    ensures { PlacedPiecesAreThePieces }
{}
