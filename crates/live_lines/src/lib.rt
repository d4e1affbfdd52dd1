//! The lines that `bwe-live` reads: lines out of pieces of bytes, and what a line means.
//!
//! The service holds a `LineCutter`, feeds it the bytes as they come and asks `Known::meaning` of
//! each line. `exact` says which meaning comes, or which cause is the first ("What it reads",
//! docs/FORMAT.md); `fit` and `owned` are the conditions of the calls that take reports.
//! `pieces_do_not_matter` and `lines_are_of_the_text` are the laws of the cutter. A line costs a
//! hash for each of its names and no walk over names. A cutter holds 255 bytes, whatever comes; a
//! `Known` has the names and one copy of each in an index. Nothing is promised of time.
#![tactic(auto)]

mod cutter;
mod known;
mod laws;
mod line;

pub use cutter::LineCutter;
pub use known::Known;
pub use laws::{a_line_has_at_most_255_bytes, lines_are_of_the_text, pieces_do_not_matter};
pub use line::{LineCause, LineMeaning};
