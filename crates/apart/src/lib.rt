//! Calls beside each other, each on a processor of its own from its begin.
//!
//! `document_reader` and `threaded_passes` share their work by `join_apart`, and `raw_reader` by
//! `map_apart`. Their clauses are those of the kit's `join` and `map_vec`. A new thread mostly
//! begins on the processor of its starter where a program has not run for long, and waits there
//! until the starter waits; but not where another thread waits there already. So one that has
//! nothing to do is started first. Nothing is promised of time, nor that any two calls ran at once.
#![tactic(auto)]

mod jobs;
mod pair;

pub use jobs::map_apart;
pub use pair::{apart, join_apart};
