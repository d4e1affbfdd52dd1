//! The arguments of a program, and the row for those that are no command.
//!
//! A program has its arguments by `words_of`, and ends with the exit status that this gives where
//! they cannot be read. The top call ends by `write_usage` where they are no command; `one_run` has
//! how it ends for a command. Nothing is promised of which arguments there are.
#![tactic(auto)]

ghost use Rattle.one_run.specs.Endings.{Writes, usage_line};

use bwe_io::Sink;
use one_run::write_text;

mod words;

pub use words::words_of;

/// The row for arguments that are no command.
pub const USAGE: &str =
    "usage: bwe solve | check | run [--readers N] [--reads N] | make SEED GROUPS TASKS | bulk SEED GROUPS TASKS | audit | tiers | enforce | estimate WINDOW HEADROOM | levels SHARE\n";

/// Writes the usage line, and answers 2, or 5 where the sink fails.
pub fn write_usage<K: Sink>(sink: &mut K) -> u8
    ensures { Writes 2 usage_line (K.written sink.old) (K.written sink.new)
        (K.faults sink.old) (K.faults sink.new) result }
{
    write_text(sink, USAGE.as_bytes(), 2)
}
