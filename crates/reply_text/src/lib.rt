//! The texts of a table's summary, of a verdict on closings and of what the groups may have at a
//! share: the bytes that `bwe bulk`, `bwe check` and `bwe levels` write.
//!
//! The replies of `line_answers` are made by `bulk_text`, `check_text` and `levels_text`, whose
//! clauses are the whole texts ("Bulk text", "Check text" and "Levels text", docs/FORMAT.md). Each
//! is made whole before anything is written, as a table's is (`table_text`).
#![tactic(auto)]

mod bulk;
mod check;
mod levels;

pub use bulk::bulk_text;
pub use check::check_text;
pub use levels::levels_text;
