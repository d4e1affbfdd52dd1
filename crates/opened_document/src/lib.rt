//! The document of an input, opened for the commands of the program.
//!
//! `open` makes an allocator of a document's plan, and `open_after_script` lets it take in the
//! script. The crates above use their contracts: what was opened is the document's. Nothing is
//! promised of memory.
#![tactic(auto)]

mod opened;

pub use opened::{OpenedDocument, open, open_after_script};
