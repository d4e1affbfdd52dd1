//! The program `bwe-solve`: the command `solve` of `bwe` alone, over the standard streams.
//!
//! It takes no arguments. The launcher `./bwe` builds and calls it for `solve` where `bwe` itself
//! is not built yet. So it stands on as little as can be: the document is read by the tree of its
//! JSON value, and its table is made from nothing, in one thread. `solve_once` is the whole call.
//! `solve_answer` has the same over threads and a reading without a tree, with the same clause
//! (`IsSolved` of `solve_reply`). Nothing is promised of time, nor that memory is there.
#![tactic(auto)]

mod solve_call;
mod solve_input;

use bwe_io::{StdSink, StdSource};
use solve_call::solve_once;
use std::process::ExitCode;

fn main(rt: HostRuntime) -> ExitCode {
    let mut source = StdSource::new(rt.stdin());
    let mut sink = StdSink::new(rt.stdout());
    ExitCode::from(solve_once(rt.alloc(), &mut source, &mut sink))
}
