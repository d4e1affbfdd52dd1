//! The top call of one thread: one command, from its arguments and the bytes of its input to the
//! bytes of its answer and an exit status.
//!
//! `specs/TopCall.antt` has what each command may get for its input, and `Ending` of `one_run` how
//! a call may end. `bwe_once` serves every command that needs no threads; its contract is one
//! sentence: for the command that the arguments are, source and sink went from here to there as an
//! ending with this exit status allows. `bwe_cli` above says the same of every command, by
//! `read_input_of` and `answer_in_turn`. The laws of exit statuses, and of a run that is audited,
//! stand here too. Nothing is promised of time, nor that memory is there.
#![tactic(auto)]

ghost use Rattle.std.specs.Prelude.{◌≡◌, false, IfSome};
ghost use Rattle.command_line.specs.Lines.{command_line_of, texts_of};
ghost use Rattle.command_line.specs.Ranges.{IsInRange};
ghost use Rattle.top_call.specs.TopCall.{IsServed, needs_threads, of_one_thread};

mod answers;
mod laws;
mod reading;

pub use answers::answer_in_turn;
use bwe_io::{Sink, Source};
use bwe_specs::OutOfMemory;
use command_line::{CommandLine, command_line_of_words};
pub use laws::{
    accepted_is_answered, an_answer_is_whole, limits_are_those_of_the_format,
    limits_by_version_are_those_of_the_format, nothing_is_written, runs_are_legal,
    solved_is_served, what_ran_is_found_legal,
};
use one_run::{finish, refuse_input};
use program_words::write_usage;
pub use reading::read_input_of;
use std::alloc::Global;

/// Serves one command that needs no threads, and answers the exit status ("Exit statuses",
/// docs/FORMAT.md). The command `run` is left out here.
///
/// `words` are the arguments after the program's name. The whole text is made before its first byte
/// is written. It waits for nobody, and returns provided that the source and the sink return.
pub fn bwe_once<S: Source, K: Sink>(
    alloc: Global,
    words: &[String],
    source: &mut S,
    sink: &mut K,
) -> u8
    // For the command that the arguments are, if it needs no threads, source and sink went from
    // here to there as an ending with this exit status allows. By `replies Solve` the table is "the
    // one that raising every group's fair share by one at a time gives".
    ensures { IsServed (of_one_thread (command_line_of (texts_of words.now))) (record {
      source = source.old;
      source_after = source.new;
      left = S.left;
      read_faults = S.faults;
      sink = sink.old;
      sink_after = sink.new;
      written = K.written;
      write_faults = K.faults;
    }) result }
{
    let line = match command_line_of_words(alloc, words) {
        Ok(line) => in_one_thread(line),
        Err(OutOfMemory) => return 6,
    };
    let Some(line) = line else {
        return write_usage(sink);
    };
    match read_input_of(alloc, line, source) {
        Ok(input) => finish(sink, answer_in_turn(alloc, line, &input)),
        Err(error) => refuse_input(sink, error),
    }
}

// The command, where it needs no threads.
fn in_one_thread(line: Option<CommandLine>) -> Option<CommandLine>
    requires range { IfSome line IsInRange }
    ensures line { result ≡ of_one_thread line }
    ensures range { IfSome result (λ line. IsInRange line × (needs_threads line ≡ false)) }
{
    match line {
        Some(CommandLine::Run { .. }) => None,
        other => other,
    }
}
