//! A whole run of a board: reporters, readers and an allocator, each in a thread of its own, and
//! the log of what they did.
//!
//! The program's line `run` calls `run_crew`. Its contract is that of the run's log: it is a legal
//! crew log ("Legal crew log", docs/DEFINITIONS.md), and a closed one: no reader's final log is
//! longer than the history. `drive` does the same over a board and passes that it is lent. There
//! the log is tied to what each reader's pass has seen, how often each pass has read, and how many
//! rounds the allocator's has made. The history and the table are those of the board's `finish`; a
//! reader's lines are those of its reads. No call can be refused a thread: where none can be made,
//! an actor runs after another. Nothing is promised of waiting, of the order of actors that told
//! each other nothing, or that any two ran at once.
//!
//! Each line of the log is what the run's own gate was shown, as that read of that reader. No clause
//! has the order of a reader's looks and reads, nor that the gate is told of each report and round:
//! the test `a_held_reader_is_told_what_was_settled` of `service_cases` refuses bodies without.
#![tactic(auto)]

mod driving;
mod running;

pub use driving::drive;
pub use running::run_crew;
