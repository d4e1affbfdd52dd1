//! Boards, runs, texts, devices and whole calls, as tests, for what no clause can say and no
//! end-to-end case shows. Nothing stands on this crate. It is one of its own, since a crate with
//! tests is proved twice, and boards and runs are among the dearest.
//!
//! - `core_steps`, `logs`: the board as one list, and the log and roll by themselves.
//! - `played`: a board that is opened, on which one case is played, and that is ended and closed.
//! - `told`, `rounds`, `full_log`, `memory`: what is played, in one thread.
//! - `beside`: a report that is answered while another thread's table is made.
//! - `runs`: whole runs by `run_crew`, two of them under gates that hold a reader (`held_gate`).
//! - `books`, `printed`, `words`, `tokens`, `followed`, `streams`: calls that the program does not
//!   make, rows that no document gets, and reads and writes that fail by themselves.
//! - `devices`: a source or a sink that fails, a source that stays as it was, `bwe_once`.
//! - `held`: the case "Three holds". It refuses what no clause can. Two of its holds need two calls
//!   that are both under way, so a run that does all its work on one thread runs out of turns; and
//!   each printed line is compared with the view that the gate was shown, so a run that shows the
//!   gate one thing and prints the replay of another fails. Both wrong bodies were tried by hand.
//!
//! Some bodies meet every clause and are wrong. Each was tried by hand, and a test refuses it:
//! - a `read` that enters no published copy and shows what the last `learn` brought:
//!   `a_told_reader_and_an_untold_one_see_the_report`, by its second reader;
//! - a `read` that stops entering one after three reads, and a `round` that posts nothing and answers
//!   what is posted: `an_untold_reader_sees_the_table_of_each_round`;
//! - a `settle` that posts nothing, and any call that always answers `OutOfMemory`: the test of
//!   the told reader, which makes each call;
//! - a solve under the log lock: `a_report_is_answered_while_a_table_is_made`, whose turns run out;
//! - a report or a round that the gate is not told of: the calls that
//!   `a_held_reader_is_told_what_was_settled` counts.
//!
//! No clause has the order of a reader's looks and reads. By the floors of their expected lines that
//! test, and with two readers and two reporters `both_readers_are_told_of_the_later_settle`, have
//! each look before its read.
//!
//! A helper answers whether all went as it has to, or compares for itself: the fewer values that
//! own memory are alive where a function can be left, the cheaper is its proof.
#![tactic(auto)]

#[cfg(test)]
mod tests;
