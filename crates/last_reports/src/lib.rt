//! The last report of each task and each link: all of a script that counts.
//!
//! `LastReports` keeps them as reports come, however many, and lists them by number.
//! `compaction_law` says that a script's allocation is that of its last reports, and `snapshot_law`
//! the same of the list by number; the layers above keep no list of reports for that reason.
//! Nothing is promised of the reporter of a report.
#![tactic(auto)]

mod kept;
mod laws;

pub use kept::LastReports;
pub use laws::{compaction_law, snapshot_law};
