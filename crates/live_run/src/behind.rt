//! The lines behind a document, to the end of input.

ghost use Rattle.std.specs.Prelude.{◌≡◌, ◌<◌, false, length};
ghost use Rattle.live_stream.specs.Talk.{IsOver, NeverFall};
ghost use Rattle.live_run.specs.Answers.{IsAtEnd, IsUpTo};
ghost use Rattle.live_run.specs.Following.{GoesBehind};

use crate::line::{answer_line, answer_piece};
use crate::{Follower, Stop};
use live_lines::LineCutter;
use live_stream::Stream;
use std::alloc::Global;

/// Answers each line as it ends, until the input ends; a half line at its end is one line.
pub(crate) fn follow_lines<F: Follower, S: Stream>(
    alloc: Global,
    follower: &mut F,
    cutter: &mut LineCutter,
    buffer: &mut [u8],
    stream: &mut S,
) -> Result<(), Stop>
    requires { 0 < length buffer.old }
    ensures { GoesBehind F.follow F.has_followed follower.old cutter.old (S.talk stream.old)
        (S.talk stream.new) (S.faults stream.old) (S.faults stream.new)
        (λ front document after _. IsOver (S.talk stream.new) × IsAtEnd F.follow front after)
        result }
{
    'pieces: for _ in 0..u64::MAX {
        match next_lines(alloc, follower, cutter, buffer, stream) {
            Ok(true) => {}
            Ok(false) => return last_line(alloc, follower, cutter, stream),
            Err(stop) => return Err(stop),
        }
    }
    Err(Stop::OutOfMemory)
}

// Reads a piece and answers the lines that it ends; `false` at the end of input.
fn next_lines<F: Follower, S: Stream>(
    alloc: Global,
    follower: &mut F,
    cutter: &mut LineCutter,
    buffer: &mut [u8],
    stream: &mut S,
) -> Result<bool, Stop>
    requires { 0 < length buffer.old }
    ensures passed { GoesBehind F.follow F.has_followed follower.old cutter.old (S.talk stream.old)
        (S.talk stream.new) (S.faults stream.old) (S.faults stream.new)
        (λ front document after more. (more ≡ false → IsOver (S.talk stream.new))
        × IsUpTo F.follow F.has_followed front document follower.new cutter.new after) result }
    ensures counted { NeverFall (S.faults stream.old) (S.faults stream.new) }
{
    let count = match stream.read(buffer) {
        Ok(count) => count,
        Err(_) => return Err(Stop::ReadFault),
    };
    match answer_piece(alloc, follower, cutter, &buffer[..count], stream) {
        Ok(()) => Ok(count > 0),
        Err(stop) => Err(stop),
    }
}

// At the end of input: a line without its line feed is refused for cause 1.
fn last_line<F: Follower, S: Stream>(
    alloc: Global,
    follower: &mut F,
    cutter: &LineCutter,
    stream: &mut S,
) -> Result<(), Stop>
    ensures { GoesBehind F.follow F.has_followed follower.old cutter.now (S.talk stream.old)
        (S.talk stream.new) (S.faults stream.old) (S.faults stream.new)
        (λ front document after _. (IsOver (S.talk stream.old) → IsOver (S.talk stream.new))
        × IsAtEnd F.follow front after) result }
{
    if cutter.is_empty() {
        return Ok(());
    }
    match answer_line(alloc, follower, None, stream) {
        Ok(()) => Ok(()),
        Err(stop) => Err(stop),
    }
}
