//! A document's JSON and its shape, by the tree of the JSON value: the first two passes of reading
//! it.
//!
//! `doc_parts` above calls `read_json` and then `read_shape` where neither `raw_reader` nor
//! `fault_scan` has an answer. No tree is made of what is no JSON: one pass over the tokens finds
//! that (`version_scan`). What a reader answers is its definition's answer (`specs/` of
//! `raw_document`): the value, or the path of the first fault in the order of the walk. Names are
//! lent by the JSON value and not copied.
#![tactic(auto)]

mod json;
mod shape;

pub use json::{JsonError, read_json};
pub use shape::forms::read_shape;
