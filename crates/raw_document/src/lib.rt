//! A document with its shape found, as data: its keys, and the paths of its places.
//!
//! `specs/` says what JSON is, which values have the shape of a document, and what is read of them.
//! `raw_shape` reads so by the tree of the JSON value, `raw_reader` straight from the tokens, and
//! the passes behind tell faults by `under`. Names are lent by the text. Nothing is promised of
//! ranges, limits, or names that refer to others.
#![tactic(auto)]

mod doc_path;
mod key;
mod raw;
mod walk;

pub use doc_path::{DocPath, Fault, PathStep};
pub use key::DocKey;
pub use raw::{
    RawClosing, RawDocument, RawGroup, RawJob, RawLink, RawPath, RawReport, RawTarget, RawTask,
    RawUser,
};
pub use walk::under;
