//! The allocator: tables of limits, made of the reports that it has taken in.
//!
//! `Allocator` is the `Maker` that the board and the top call use: its table is the allocation of
//! the plan and of all reports taken in, whatever they are. It calls `make_table`, whose clauses
//! are the laws of every table: no link is over; a group that gets less than it could use has a
//! closed link on each of its path groups; the limits of a group's tasks add up to its amount; no
//! task gets more than it asked for; groups that meet at a closing have one share; nothing is
//! wasted; where each group has one path group, the table is max-min fair up to one unit of share;
//! groups in another order get the same; and two tables with one text are equal.
//!
//! `make_table_by_looks` has clauses on how many load probes, turns, plays and moves a table takes.
//! `Reported` keeps a tree and a network as they stand after reports. What makes a table of a filling
//! stands below, in `plain_table`. After `keep` the tree of an allocator keeps values and limits
//! from one table to the next (`kept_tree`), so that a table after few reports costs what has
//! changed. It is the same table, by the clause of `table`; so is that of `table_on_threads`, whose
//! values and limits are worked out on threads. Nothing is promised of time.
#![tactic(auto)]

mod allocator;
mod history;
mod kept;
mod reported;
mod table;
mod tops;

pub use allocator::{Allocator, AllocatorPlan};
pub use history::after_script;
pub use kept::fill_kept;
pub use reported::{Reported, capacities_of};
pub use table::{make_table, make_table_by_looks};
