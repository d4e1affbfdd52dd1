//! A document straight from the tokens of its text, with no tree of values between.
//!
//! `plan_doc` above asks `read_straight` first, and where it may use threads
//! `read_straight_on_threads` before that: a text of 256 KiB and more is cut into stretches of some
//! 128 KiB between two groups or two reports, each thread reads a run of them over one scratch, and
//! what is read is put together. What either gives is what `raw_shape` reads of the same bytes by
//! their tree. Where neither gives anything, which is promised of no text, `fault_scan` looks for
//! the first fault.
#![tactic(auto)]

mod cuts;
mod document;
mod entries;
mod groups;
mod guess;
mod joined;
mod on_threads;
mod part;
mod pieces;
mod runs;
mod slots;
mod source;
mod tasks;
mod values;

pub use document::read_straight;
pub use on_threads::{read_straight_on_threads, scratches_of};
