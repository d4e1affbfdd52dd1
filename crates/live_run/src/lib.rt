//! The service of `bwe-live`: a document, and answers to lines as they come.
//!
//! The program calls `serve` with its arguments and the standard streams, over a `Follower`, which
//! makes the texts. The contract of `serve` is one sentence: the stream went from here to there as
//! a conversation that was live all the way, and that ended as its exit status says. Live: whenever
//! more input was asked for, all that the bytes so far call for had been written
//! (`specs/Conversation.antt`). Exit status 0: what was written is the follow text of the bytes
//! read (`specs/Follow.antt`). It holds the document, then a piece of the input, a line and an
//! answer. Nothing is promised of which answer a line has, of time, nor that memory is there.
#![tactic(auto)]

mod behind;
mod ending;
mod follower;
mod front;
mod line;
mod served;

pub use ending::Stop;
pub use follower::{Follower, OpenedFollower};
pub use served::serve;
