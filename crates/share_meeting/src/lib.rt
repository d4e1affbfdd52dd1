//! Where a parent's share meets its children's sum: the inner share at which a node's children have
//! together what the node's configured function gives ("Node rule", docs/DEFINITIONS.md).
//!
//! The tree calls `meeting_of` for the greatest share at which a sum is at most an amount, and
//! `look_by` for the sum at the inner share with guesses of what comes after. Both need the
//! configured function alone. `share_transform` calls `met_at` where the sum tells the share, and
//! else `meet`, with a pair and a `Line` of its own to begin with; their answer is the low one of
//! the `Ends`. The looks at the children's sum are counted on the `Steps`. Nothing takes memory.
//! Nothing is promised of where a search looks first, nor of the guesses.
//!
//! Where the sum tells the last share at which it is at most an amount, as a job does, or a single
//! child with a configured function, there is no search here. Else the first look goes where the
//! sum's stretch meets the amount: the points beside it of the outline that the children drew. Each
//! look says up to which share the sum stays and about what it is then. After a look below the
//! amount the next one goes past the end of the stretch on which the sum stays, if the sum is
//! guessed to be above the amount there, and else along the line through both ends, the other one
//! counting half where one end moves twice (the Illinois rule). No guess is the answer: a search
//! ends with a share that fits and the next one that doesn't, both looked at, and after 28 looks by
//! the line the others halve what is between.
#![tactic(auto)]

mod ends;
mod line;
mod look;
mod meeting;

pub use ends::Ends;
pub use line::Line;
pub use look::look_by;
pub use meeting::{Meeting, meet, meeting_of, met_at};
