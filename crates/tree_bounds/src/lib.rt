//! Bounds of what the groups of a tree may have at a share, found without a search for a share.
//!
//! Where functions are configured, a value takes a search, and a solver asks for many. The layers
//! above answer it first by `group_ceiling` and `group_floor`, between which the value lies, and by
//! `is_full`, which tells that a group has all that it may have. They ask a configured function,
//! and where there is none the children. A floor is what the function gives, less what the children
//! rise at most from one share to the next, and no more than they have at the top. Where a group
//! has no configured function nothing is told. `group_last_share_within` turns the values round,
//! where a node's children are one, or under a function by one search among them. `is_searched`
//! tells whether a function is configured. Nothing is promised of how near the bounds are, nor of
//! time.
#![tactic(auto)]

mod ceiling;
mod cluster;
mod floor;
mod groups;

pub use groups::{group_ceiling, group_floor, group_last_share_within, is_full, is_searched};
