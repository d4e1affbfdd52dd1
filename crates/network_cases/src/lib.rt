//! Functions, searches, trees, what is handed down, and networks, as tests, for what no clause of
//! the crates from `mono_search` to `bottleneck_cert` can say: that calls succeed, how many looks a
//! hint saves, and how often the solver by jumps tests. The numbers are those of the worked cases.
//!
//! The filling by steps, both solvers and the check of closings are run on the same networks. A
//! made network follows from one number, so that each run makes the same. Of a `Case` no clause
//! says more than that it can be filled. What one run of the program shows is in `cases/`.
//!
//! Nothing stands on this crate. It is one of its own, since a crate with tests is proved twice.
#![tactic(auto)]

mod case;
mod made;
mod numbers;
mod slopes;
#[cfg(test)]
mod tests;

pub use case::{Case, case_of};
pub use made::{Size, from_to, link, made_groups, made_links, made_slopes, one_path, path};
pub use numbers::Numbers;
pub use slopes::{Slope, Slopes};
