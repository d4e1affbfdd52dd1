//! What each command writes for its input, but for `audit` (`audit_answer`) and `run` (`bwe_cli`);
//! of `solve` what it writes in one thread (`solve_answer` has it on threads).
//!
//! The top call makes a whole answer by one of these, and then writes it. The contract of each says
//! the one reply that an input has, also of those that work on threads. Nothing is promised of
//! time, nor that memory is there.
#![tactic(auto)]

mod check_line;
mod enforce_line;
mod estimate_line;
mod levels_line;
mod made;
mod solve_line;
mod tiers_line;

pub use check_line::{check, check_on_threads};
pub use enforce_line::enforce;
pub use estimate_line::estimate;
pub use levels_line::{levels, levels_on_threads};
pub use made::{bulk, bulk_on_threads, make};
pub use solve_line::solve;
pub use tiers_line::{tiers, tiers_on_threads};
