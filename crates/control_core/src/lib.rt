//! The protocol by which allocators post tables through a store with a history: state, events and
//! one step.
//!
//! `Control::step` is one event of the definition Control plane ("Control plane",
//! docs/DEFINITIONS.md), for any kind of table: a report, a campaign for the leader key, a reading,
//! a transaction that is sent, taken late or lost, an outcome that is learned or not, a crash, a
//! reader. `control_law` is the law on all lists of these events: the posted prefix never falls,
//! the slices at the revision of a posting are together the table of its prefix, and what a reader
//! was told is posted stays so. Not promised: that a transaction arrives, and when; nor which
//! limits a table has.
#![tactic(auto)]

mod allocator;
mod control;
mod event;
mod law;
mod reader;
mod rows;
mod sent;
mod slice;
mod store;
mod tables;

pub use allocator::{Allocator, Known, Reading};
pub use control::Control;
pub use event::ControlEvent;
pub use law::control_law;
pub use reader::Reader;
pub use sent::{Outcome, Sent, Transaction};
pub use slice::Slice;
pub use store::{Entry, Leader, Posting};
