//! The first fault of a document's shape, by one walk over its tokens.
//!
//! `plan_doc` above asks `find_fault` where `raw_reader` has no answer. What it tells is the fault
//! of the definition (`specs/` of `raw_document`): the first one in the order of the table of keys,
//! not of the text. So each object has a place for each key of its table, and is judged where it
//! ends. A walk keeps these places alone: no value, and no list. Where it tells nothing, which is
//! promised of no text, the tree of the value is read (`raw_shape`). Nothing is promised of time.
#![tactic(auto)]

mod document;
mod found;
mod items;
mod kinds;
mod seen;
mod tables;
mod walk;

pub use document::find_fault;
