//! What the actors of a run do that report and post: a reporter its script, the allocator its
//! rounds.
//!
//! `crew` rests on these contracts. After `report_and_settle` a reporter's own list is its script,
//! else its report was refused; after `make_rounds` the allocator's pass has made so many rounds.
//! The gate of `crew_readers` is called round each call. Each actor runs in the thread that calls
//! it, and may wait for the board's locks. Nothing is promised of waiting.
#![tactic(auto)]

mod allocating;
mod reporting;

pub use allocating::make_rounds;
pub use crew_readers::{Actor, Gate, OpenGate};
pub use reporting::report_and_settle;
