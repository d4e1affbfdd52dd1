//! The command `solve` on threads.
//!
//! `solve_once` is the whole call that serves the command, by which `bwe_cli` does. Its clause is
//! that of the call of the same name in the program `bwe_solve`, which does it in one thread;
//! `top_call` has the law that it ends as the command does. The clauses say the one reply that an
//! input has, however many threads there are. Nothing is promised of time, nor that memory is
//! there.
#![tactic(auto)]

mod long_input;
mod solve_call;
mod solve_line;

pub use solve_call::solve_once;
