//! A tree that keeps what it was asked, for tables that are made again and again.
//!
//! After one changed demand nearly all values and limits are as before. `KeptTree` is a
//! `PolicyTree` to all contracts; beside it, where `keep` was called, it keeps for each group the
//! values that its last fillings asked for, and the limits of its tasks under the amount that it
//! had last. A demand drops what is kept of its task's group and of no other. `fill` fills a
//! network with the groups' values and looks up those that are kept; `limits` hands amounts down
//! and goes into those groups alone whose amount or demands have changed. Both answer what the
//! tree by itself answers: what is kept is right, or it is dropped. The next filling looks at links
//! first where the last one found them due (`Guesses` of `link_solver`), and outlines are drawn
//! anew only once many demands have changed. Out of memory, less is kept, and the answers are the
//! same. Nothing is promised of time.
#![tactic(auto)]

mod fill;
mod group;
mod limits;
mod owner;
mod tree;

pub use tree::KeptTree;
