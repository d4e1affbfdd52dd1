//! The program `bwe-live`: its arguments and the standard streams, handed to the service.
//!
//! `bwe_live` is the call that it makes: `serve` of `live_run` over a `LiveSession`. Its contract
//! says what is written for the bytes read, and that nothing is late; what the standard streams
//! give and take, no contract says.
#![tactic(auto)]

mod following;

use following::bwe_live;
use live_stream::StdStream;
use program_words::words_of;
use std::process::ExitCode;

fn main(rt: HostRuntime) -> ExitCode {
    let words = match words_of(&rt) {
        Ok(words) => words,
        Err(status) => return ExitCode::from(status),
    };
    let mut stream = StdStream::new(rt.stdin(), rt.stdout());
    ExitCode::from(bwe_live(rt.alloc(), &words, &mut stream))
}
