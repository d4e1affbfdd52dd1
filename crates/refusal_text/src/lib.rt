//! The row that is printed for a refused document.
//!
//! The layers above have a `DocError`, and ask for its row by `refusal_line`.
//! `specs/RefusalLines.antt` has the row of each refusal, byte for byte: its number, a word, and
//! what it names, each place as a path of keys and numbers. No reading of a document waits for
//! this.
#![tactic(auto)]

mod text;

pub use text::refusal_line;
