//! A call that serves the command `solve` alone.

ghost use Rattle.solve_reply.specs.SolveCall.{IsSolved};

use crate::long_input::solve_unless_too_long;
use bwe_io::{Sink, Source};
use bwe_specs::OutOfMemory;
use one_run::{InputError, finish, read_input, refuse_input};
use std::alloc::Global;
use std::thread::Threads;

/// Reads a document, writes its table of limits or the row of its refusal, and answers the exit
/// status ("Exit statuses", docs/FORMAT.md), as `bwe solve` does.
///
/// The whole text is made before its first byte is written. Threads share the reading of names and
/// functions, and the groups' values and limits; the table is the same however many there are. It
/// waits for nobody but them, and returns provided that the source and the sink return.
pub fn solve_once<S: Source, K: Sink, R: Threads + Sync>(
    rt: &R,
    alloc: Global,
    source: &mut S,
    sink: &mut K,
) -> u8
    // Source and sink went from here to there as an ending of `solve` with this exit status allows.
    // The table is "the one that raising every group's fair share by one at a time gives".
    ensures { IsSolved (record {
      source = source.old;
      source_after = source.new;
      left = S.left;
      read_faults = S.faults;
      sink = sink.old;
      sink_after = sink.new;
      written = K.written;
      write_faults = K.faults;
    }) result }
{
    let input = match read_input(alloc, true, source) {
        Ok(input) => input,
        Err(error) => return refuse_input(sink, error),
    };
    match solve_unless_too_long(rt, alloc, input) {
        Ok(Some(answer)) => finish(sink, Ok(answer)),
        Ok(None) => refuse_input(sink, InputError::TooLong),
        Err(OutOfMemory) => refuse_input(sink, InputError::OutOfMemory),
    }
}
