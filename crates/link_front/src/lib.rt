//! The groups of a filling under the closings so far, where those that use each link are known.
//!
//! `GroupsByLink` lists the groups of each link once, so that neither a look at a link nor a
//! closing walks over all groups. `Front` is a growth of `mpfa_fill` beside it. How often groups
//! still come to path groups and leave them is in `specs/Moves.antt`: each path group is come to
//! and left at most once, so that what is looked at again where a group moves can be bounded by the
//! paths alone. No share is searched here.
#![tactic(auto)]

mod by_link;
mod front;

pub use by_link::GroupsByLink;
pub use front::Front;
