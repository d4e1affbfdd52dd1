//! Values of groups that are kept once they were asked for.
//!
//! A search over shares asks for one group's value at the same share for link after link.
//! `KeptValues` stands between it and the values: it answers what they answer, and asks them for no
//! value that it has. It keeps those that take a search. Fillings of tables and of tiers and the
//! closings of a check go through it. `Answers` are what it keeps, by group; a tree that keeps
//! values from one filling to the next (`kept_tree`) lists by them what a filling asked. Each is
//! the value of its group at its share. Out of memory less is kept, and the answers are the same.
//! Nothing is promised of time.
#![tactic(auto)]

mod answers;
mod kept;

pub use answers::{Answer, Answers, Meant};
pub use kept::KeptValues;
