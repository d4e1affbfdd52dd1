//! Tables of limits.
//!
//! A table says which reports it covers, each task's limit, what each group gets on each of its
//! path groups, each link's load, and where links closed. Nothing is said here of which limits a
//! table has: that is said of its maker. What is published of a table, and the changes that lead
//! from one to a later one, stand in `demand_book`.
#![tactic(auto)]

mod line;
mod table;

pub use line::{GroupLine, PlaceLine};
pub use table::{LimitTable, total_in};
