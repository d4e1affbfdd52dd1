//! What a maker of tables of reports has to be, and what leads from one table of limits to another.
//!
//! `Maker` and `Posted` are for code that is generic in the allocator: the core, the board, a run
//! and its audit know of it what these two traits say. Nothing is promised of which limits a table
//! has: that is said of the maker, by its `table_of`.
//!
//! `LimitTable` is `Posted`: the layers above read it, copy it, and bring it up to date by changes.
//!
//! The makers are `allocator`'s and, for tests, that of `report_book`, which also has the book that
//! keeps reports.
#![tactic(auto)]

mod change;
mod line;
mod maker;
mod posted;
mod table;

pub use bwe_specs::{Report, Target};
pub use change::TableChange;
pub use line::is_equal_line;
pub use maker::Maker;
pub use posted::Posted;
pub use table::TableFrame;
