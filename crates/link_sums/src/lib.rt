//! The load of each link under the amounts of all path groups, kept up to date as amounts change.
//!
//! The solvers above call `raise`, `lower` and `first_over`. `raise` and `lower` cost by the links
//! of one path group, `first_over` stops at the first link that is over. None takes memory. At the
//! end of a filling `into_loads` hands out the loads. Nothing is promised of which amounts are
//! fair: that is `mpfa_fill`.
#![tactic(auto)]

mod amounts;
mod loads;
mod sums;

pub use sums::LinkSums;
