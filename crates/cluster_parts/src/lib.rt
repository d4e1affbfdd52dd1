//! The clusters of a document, as its tree is built of them, or the first function that is refused.
//!
//! `doc_parts` above calls `cluster_specs`, which builds each function once (refusal 7), and asks
//! `has_childless` whether a node has no child. `specs/Functions.antt` says which function is the
//! first that is refused, `specs/TreeParts.antt` what a tree is built of, and `specs/Building.antt`
//! what of both the code answers: the clusters, or a `BuildError`.
//!
//! Nothing here needs the passes over a raw document (`doc_passes`), so neither crate waits for the
//! other.
#![tactic(auto)]

mod build_error;
mod childless;
mod functions;

pub use build_error::BuildError;
pub use childless::has_childless;
pub use functions::cluster_specs;
