//! The table of limits of a tree, a network and path groups, made from nothing.
//!
//! `table_after` makes the table of a whole script, in one thread: the layer above calls it where
//! one table is all that is wanted. It takes in the reports, fills the network with the tree's
//! values (`PlainValues`), and hands the filling to `table_of_filling`, which makes the rows of the
//! groups (`group_lines`) and the tasks' limits (`limits_of`). The allocator, which goes on from
//! table to table, makes its own fillings and limits, and calls the steps behind them.
//!
//! Nothing is promised of time.
#![tactic(auto)]

mod firsts;
mod limits;
mod line;
mod script;
mod table;
mod values;

pub use firsts::FirstClosings;
pub use limits::{amounts_of, limits_of};
pub use line::{group_line, group_lines};
pub use table::{table_after, table_of_filling, table_of_limits};
pub use values::PlainValues;
