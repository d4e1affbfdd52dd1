//! The program `bwe-protocol`: events of the control plane, a line each, and the state after each.
//!
//! It takes no arguments. `control/` is tested against what it prints, which is what the steps of
//! `control_core` leave; its tables are those in which each task may send what it last asked for.
#![tactic(auto)]

mod echo;
mod line;
mod play;
mod text;

use bwe_io::{StdSink, StdSource};
use play::play_once;
use std::process::ExitCode;

fn main(rt: HostRuntime) -> ExitCode {
    let mut source = StdSource::new(rt.stdin());
    let mut sink = StdSink::new(rt.stdout());
    ExitCode::from(play_once(rt.alloc(), &mut source, &mut sink))
}
