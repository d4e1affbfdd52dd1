//! Two calls beside each other.

use std::thread::{Threads, join};

/// Makes the call, so that each thread that it starts begins on another processor than this one.
pub fn apart<R: Threads, F: FnOnce() -> A, A>(rt: &R, call: F) -> A
    requires { F.pre call }
    ensures { F.post call result }
{
    let (_, answer) = join(rt, wait_in_line, call);
    answer
}

/// Calls `first` in a new thread, and `second` in this one. Both end before it answers. Where no
/// thread can be started, this one calls both.
pub fn join_apart<R: Threads, F: FnOnce() -> A + Send, G: FnOnce() -> B, A: Send, B>(
    rt: &R,
    first: F,
    second: G,
) -> (A, B)
    requires { F.pre first × G.pre second }
    ensures first { F.post first result.0 }
    ensures second { G.post second result.1 }
{
    let both = move || -> (A, B)
        requires { F.pre first × G.pre second }
        ensures { F.post first result.0 × G.post second result.1 }
    { join(rt, first, second) };
    apart(rt, both)
}

// What the thread does that waits on the starter's processor.
fn wait_in_line() {}
