//! What a reader of a run does: its reads, and the last one once the log has ended.
//!
//! `crew` rests on these contracts. `read_lines` gives lines of tables of one growing log, which
//! never go back; and `end_all` makes of them, with the acknowledgement of the end, each reader's
//! log as a legal crew log has it ("Legal crew log", docs/DEFINITIONS.md). A gate is called round
//! each call of an actor, of the reporters and of the allocator too. By it a caller can watch a
//! run, or hold it up. It stands on `board_pair` alone, and knows nothing of who posts. Nothing is
//! promised of waiting.
#![tactic(auto)]

mod actor;
mod ending;
mod reading;

pub use actor::{Actor, Gate, OpenGate};
pub use board_pair::NewestAck;
pub use ending::end_all;
pub use reading::{read_lines, read_to_the_end};
