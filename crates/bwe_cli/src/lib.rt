//! The top call: one command, from its arguments and the bytes of its input to the bytes of its
//! answer and an exit status, on threads where that pays.
//!
//! The program calls `bwe` with the standard streams. The arguments are read once. Its contract is
//! one sentence: for the command that the arguments are, source and sink went from here to there as
//! an ending with this exit status allows. What each command may get for its input, and the laws of
//! that, stand in `top_call`, with `bwe_once`, the same for every command that needs no threads.
//! Nothing is promised of time, nor that memory is there.
#![tactic(auto)]

ghost use Rattle.std.specs.Prelude.{◌≡◌, false, Some};
ghost use Rattle.command_line.specs.Lines.{command_line_of, texts_of};
ghost use Rattle.command_line.specs.Ranges.{IsInRange};
ghost use Rattle.top_call.specs.TopCall.{IsServed, needs_threads};

mod answers;
mod run;

use answers::answer_in_time;
use bwe_io::{Sink, Source};
use bwe_specs::OutOfMemory;
use command_line::{CommandLine, command_line_of_words};
use crew_actors::Gate;
use one_run::{finish, refuse_input};
use program_words::write_usage;
use run::serve_run;
use solve_answer::solve_once;
use std::alloc::Global;
use std::sync::Wait;
use std::thread::Threads;
use top_call::read_input_of;

/// Serves one command of the program, and answers the exit status ("Exit statuses",
/// docs/FORMAT.md).
///
/// `words` are the arguments after the program's name. `run` puts a reporter for each of the
/// document's reporters, the allocator and the readers on threads; `gate` is called round each of
/// their calls. `solve`, `check`, `levels`, `tiers` and `bulk` read a document on threads, and what
/// they write is the same however many there are. The whole text is made before its first byte is
/// written. `run` alone may wait; every other command goes to `serve_in_time`, which returns.
pub fn bwe<S: Source, K: Sink, G: Gate + Sync, R: Threads + Wait + Sync>(
    rt: &R,
    alloc: Global,
    words: &[String],
    source: &mut S,
    sink: &mut K,
    gate: &G,
) -> u8
    // For the command that the arguments are, source and sink went from here to there as an ending
    // with this exit status allows. The headline's two halves are in what the commands may get:
    // `replies Solve`, that a table is "the one that raising every group's fair share by one at a
    // time gives", and `replies Run`, that what readers saw is of "prefixes of one history" that
    // "never fall".
    ensures { IsServed (command_line_of (texts_of words.now)) (record {
      source = source.old;
      source_after = source.new;
      left = S.left;
      read_faults = S.faults;
      sink = sink.old;
      sink_after = sink.new;
      written = K.written;
      write_faults = K.faults;
    }) result }
{
    match command_line_of_words(alloc, words) {
        Ok(Some(CommandLine::Run { readers, reads })) => {
            serve_run(rt, alloc, readers, reads, source, sink, gate)
        }
        Ok(Some(line)) => serve_in_time(rt, alloc, line, source, sink),
        Ok(None) => write_usage(sink),
        Err(OutOfMemory) => 6,
    }
}

/// Serves a command other than `run`, and answers the exit status. It waits for nobody: it has no
/// bound `Wait`, so the language itself says that it returns, provided that the source and the sink
/// return.
pub fn serve_in_time<S: Source, K: Sink, R: Threads + Sync>(
    rt: &R,
    alloc: Global,
    line: CommandLine,
    source: &mut S,
    sink: &mut K,
) -> u8
    requires range { IsInRange line }
    requires waits_for_nobody { needs_threads line ≡ false }
    ensures { IsServed (Some line) (record {
      source = source.old;
      source_after = source.new;
      left = S.left;
      read_faults = S.faults;
      sink = sink.old;
      sink_after = sink.new;
      written = K.written;
      write_faults = K.faults;
    }) result }
{
    if let CommandLine::Solve = line {
        return solve_once(rt, alloc, source, sink);
    }
    match read_input_of(alloc, line, source) {
        Ok(input) => finish(sink, answer_in_time(rt, alloc, line, &input)),
        Err(error) => refuse_input(sink, error),
    }
}
