//! The filling of a network by jumps: one search for each closing.
//!
//! `solve` answers what `fill_by_steps` of `step_filling` answers, for every top share, and from
//! any hints. `plain_table` fills by `solve_by_jumps`, the same without hints and without a
//! counter, which takes far less code than `link_solver`; that asks for fewer values, and the
//! allocator fills by it. `solve` counts its tests on a `Steps`: a test is whether every link fits
//! at one share. The look at the share after, which names the link to close, is not counted: it is
//! known that not every link fits there. `solve` can also answer `OutOfMemory`, which no clause
//! ties to a cause; with ample memory tests show that it does not. Hints that are the closings of
//! the answer, as those of the last table mostly are, make two tests a closing. Without hints some
//! two tests a closing do as well, by the shares at which single links are over: that is measured
//! in `network_cases`, and only the bound of 62 is proved. Nothing is promised of the time that a
//! test takes.
#![tactic(auto)]

mod jumps;
mod rise;

pub use jumps::{solve, solve_by_jumps};
pub use mpfa_fill::{Closing, Filling};
