//! The program `bwe`: its arguments and the standard streams, handed to the top call.
#![tactic(auto)]

use bwe_cli::bwe;
use bwe_io::{StdSink, StdSource};
use crew_actors::OpenGate;
use program_words::words_of;
use std::process::ExitCode;

fn main(rt: HostRuntime) -> ExitCode {
    let words = match words_of(&rt) {
        Ok(words) => words,
        Err(status) => return ExitCode::from(status),
    };
    let mut source = StdSource::new(rt.stdin());
    let mut sink = StdSink::new(rt.stdout());
    ExitCode::from(bwe(&rt, rt.alloc(), &words, &mut source, &mut sink, &OpenGate))
}
