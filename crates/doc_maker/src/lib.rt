//! Large valid documents from three numbers: the command `make`, and what the command `bulk`
//! solves.
//!
//! The top call uses `make_document`, whose clause is the whole document ("The made document",
//! docs/FORMAT.md). The text is written into one buffer, token by token, with no tree of values. It
//! costs by the length of the text: the tasks of a group are met by steps, so nothing is looked at
//! twice.
#![tactic(auto)]

mod document;
mod laws;
mod network;
mod size;
mod tree;

pub use document::make_document;
pub use laws::{made_documents_are_accepted, made_documents_have_their_counts};
