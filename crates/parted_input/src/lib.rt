//! An input of two parts: a document, and what stands behind it.
//!
//! `read_parts` finds the parts and reads the document, or writes what a refused input gets;
//! `parts_are_too_long` tells whether such an input has more bytes than it may. The commands that
//! take a second part use their contracts: what was read are the parts that the input has, and a
//! document is refused as it is where it stands alone. Nothing is promised of memory.
#![tactic(auto)]

mod lengths;
mod parted;

pub use lengths::parts_are_too_long;
pub use parted::{Parted, read_parts, read_parts_on_threads};
