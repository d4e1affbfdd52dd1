//! The numbers of a raw document by several threads.
//!
//! `document_reader` calls `document_numbers_on_threads` of a long document that it reads on threads.
//! It answers the same as `document_numbers` of `doc_passes`, whose passes it calls of halves: each
//! half tells its faults from the list of all, and the first fault of the first half that has one is
//! that of the whole. Nothing is promised of what the threads gain.
#![tactic(auto)]

mod groups;
mod numbers;
mod script;
mod walk;

pub use numbers::document_numbers_on_threads;
