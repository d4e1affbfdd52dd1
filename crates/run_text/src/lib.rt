//! The text of a run: the bytes that `bwe run` writes.
//!
//! The top call uses `run_text`, whose clause is the whole text ("Run text", docs/FORMAT.md), for
//! any log of a run. Nothing is promised of which logs a run has. The text is made whole before
//! anything is written.
#![tactic(auto)]

mod reader;
mod report;
mod run;

pub use run::run_text;
