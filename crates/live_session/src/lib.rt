//! An accepted document followed line by line: what `bwe-live` writes first, and what it answers to
//! each line behind it.
//!
//! The program follows by a `LiveSession`: `Following` of `bwe_live`, the follower that it runs,
//! holds one. Its two calls answer by definitions over the bytes of the document and the lines
//! (`specs/Answers.antt`): the table text, or the line of a refusal, and then the answer of each
//! line. The laws of `specs/Laws.antt` are contracts of functions here: tables that are kept by
//! changes, and so are table texts, byte for byte; counts that never fall; refused lines that count
//! for nothing; and the promise of a snapshot, also of its printed bytes. Nothing is promised of
//! time, nor once memory has run out.
#![tactic(auto)]

mod answer;
mod laws;
mod session;

pub use laws::{
    empty_script_is_accepted, followed_texts, kept_tables, kept_texts, never_back, posts_alone,
    printed_snapshot, refused_lines_are_no_reports, snapshot_promise,
};
pub use session::{LiveSession, OpenedSession};
