//! The tokens of a text that is cut at a comma.
//!
//! A reader of a long text may take it in parts. `specs/Parts.antt` says what a first part is, and
//! `specs/Laws.antt` states that the tokens of a text are those of its parts, one after the other.
//! The law is the contract of a function that does nothing.
#![tactic(auto)]

mod laws;

pub use laws::cut_at_a_comma;
