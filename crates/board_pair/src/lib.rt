//! What a board publishes: a log with the table of its first reports, in two copies, which readers
//! enter without a lock.
//!
//! `board` above makes posts of `News` by a `Poster`; its readers are `ReaderPass`es, each with
//! what it saw: a log and a table that it shares with the published copy. Three promises rest on
//! this crate alone, for any kind of table:
//! - `ReaderPass::read` shows a table that belongs to the first reports of a log which begins with
//!   all that the pass had seen, never older than its floor;
//! - after `ReaderPass::learn` the pass has all that the ack holds;
//! - `Poster::publish` shows all that waited, or nothing of it.
//!
//! An `Ack` is made by `Ack::of` alone, of what a poster shows, so whoever has one of so many
//! reports knows that a table of as many was posted. A `FinalAck` is of a log that has ended, and
//! `View::is_within` shows that no view, whenever it was made, has more. `read` and `learn` take no
//! lock and wait for nobody: they are given no handle, and nothing that waits can be called without
//! one.
//!
//! `publish` may wait for readers to leave a copy. Both published copies and the passes share the
//! log and the table of a post, so nothing is copied where one is taken over. Log and table are
//! freed with the last that shares them. Nothing is known here of who adds to the
//! log, of makers or of threads. Not promised: that a reader sees what nobody told it. A `read`
//! that enters no published copy, or stops entering one after some reads, meets every clause: tests
//! of `service_cases` refuse it.
#![tactic(auto)]

mod ack;
mod pair;
mod poster;
mod reader;
mod seats;
mod visits;

pub use ack::{Ack, FinalAck, Left, Newest, NewestAck};
pub use board_log::Profile;
pub use pair::{News, Pair, Posting};
pub use poster::{Desk, Poster};
pub use reader::{ReaderPass, View};
pub use seats::open_desk;
pub use visits::Visits;
