//! The reading of a document straight from the tokens of its text, by one thread or by several.
//!
//! The layers above call `read_document`, or `read_document_on_threads` where they have threads.
//! They rely on two clauses, the same of both: `exact`, by which the answer is that of the
//! definition in `doc_parts`, and `usable`, by which an accepted document meets the conditions of
//! the calls that take its parts.
//!
//! A reading takes the bytes once, token by token, into the raw document, whose names the text
//! lends (`raw_reader`). What `doc_parts` gathers of it is gathered here by threads too
//! (`gathered`). It is freed, and then plan and tree are built (`document`). Only a text that is not
//! of the shape of a document is read again, by a walk over the tokens that finds the first fault
//! (`fault_scan`), and by the tree of its JSON value, as `plan_doc` reads, where that finds none.
//!
//! Nothing is promised of time, of how much memory is taken, nor of what more threads gain, and
//! nothing of which growth is refused where memory runs out.
#![tactic(auto)]

mod document;
mod gathered;
mod refusal;

pub use document::{read_document, read_document_on_threads};
