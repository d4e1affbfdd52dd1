//! The text of a table of limits: the bytes that `bwe solve` writes.
//!
//! The top call uses `table_text`, whose clause is the whole text ("Table text", docs/FORMAT.md).
//! `name_of` is the name that a text prints for a number. Texts that share lines with a table's put
//! them by `push_closings` and `push_limits`, and single lines by `push_value` and its like. Texts
//! are made whole before anything is written, so memory runs out before the first byte is written,
//! or not at all.
#![tactic(auto)]

mod line;
mod table;

pub use line::{end_with_number, name_of, push_number};
pub use table::{push_closings, push_group, push_limits, push_value, push_values, table_text};
