//! Why a document is refused.
//!
//! The layers above answer a `DocError`. `specs/Refusals.antt` has the refusals in the order of
//! their numbers, and says which one an error is. The `BuildError` that tells the function that is
//! refused is from `cluster_parts`. When a document is refused is not said here: the definition is
//! in `doc_parts`, and the row that is printed in `refusal_text`.
#![tactic(auto)]

mod doc_error;

pub use doc_error::DocError;
