//! The board: reports of many threads in one log, and tables of its beginnings that readers read
//! without a lock.
//!
//! `crew` runs reporters, readers and an allocator over it. It rests on these promises, each the
//! contract of a call, for any `Maker`:
//! - `Board::report` puts a piece into the log once and keeps the reporter's own list exact;
//! - the ack of `Board::settle` holds all that its pass had seen, and an `Ack` is made of what was
//!   posted alone (`Ack::of`, of `board_pair` below);
//! - `Board::round` leaves its pass with the ack of as many reports as it answers, and counts
//!   itself there;
//! - `ReaderPass::read`, of `board_pair` below, shows a table that belongs to the first reports of
//!   a log which begins with all that the pass had seen, never older than its floor;
//! - `Board::finish` ends the log and gives the whole of it, as an ack too, each reporter's list in
//!   it, and its table; no view has more, whenever it is made.
//!
//! A board is opened by `Opened::new` and `Opened::named`, under two names: `Profile`, the plan,
//! and `Bases`, the log. `read` and `learn` of a reader take no lock and don't wait. `report` waits
//! for the log lock, which nobody holds while a table is made. Not promised: that a reader sees
//! what nobody told it, waiting, fairness, and that memory is there.
//!
//! Some bodies meet every clause and are wrong: a `read` that enters no published copy, a `round`
//! or a `settle` that posts nothing, a solve under the log lock, a call that always answers out of
//! memory. Each was tried by hand, and a test of `service_cases` refuses it; its page names which.
//! A `close` that frees nothing is refused by nothing: no clause and no test counts memory. The
//! program opens one board and then ends.
//!
//! One lock round everything, which `read` takes too, cannot be written: a lock is taken by a
//! handle, and `read` is given none.
#![tactic(auto)]

mod allocator;
mod board;
mod ended;
mod open;
mod refusal;
mod reporter;
pub mod steps;

pub use allocator::AllocatorPass;
pub use board::Board;
pub use board_log::Bases;
pub use board_pair::{Ack, FinalAck, Left, Newest, NewestAck, Profile, ReaderPass, View};
pub use ended::{Ended, FinishRefused};
pub use open::Opened;
pub use refusal::ReportError;
pub use reporter::ReporterPass;
