//! The reading of a document: the parts that the allocator is made of, or the one refusal of the
//! lowest number.
//!
//! The layers above call `read_document_by_tree`, or a reading of `document_reader`. They rely on
//! two clauses, the same of all readings: `exact`, by which the answer is that of the definition
//! (`Document.antt` in `specs/` of `doc_parts`), and `usable`, by which an accepted document meets
//! the conditions of the calls that take its parts (`specs/Conditions.antt`). The row of a refusal
//! is in `refusal_text`, which is proved beside this crate.
//!
//! `doc_parts` gathers names, numbers, clusters and topology of the raw document, and lets that go.
//! Then plan and tree are built of what was gathered (`document`); `specs/Gathering.antt` of
//! `doc_parts` has what is known in between. `document_reader` does the same straight from the
//! tokens and on threads, by the steps that are public here and there.
//!
//! Nothing is promised of time, of how much memory is taken, and nothing of which growth is refused
//! where memory runs out.
#![tactic(auto)]

mod document;

pub use doc_names::Names;
pub use doc_parts::{
    Built, Gathered, Named, Tables, TreeParts, build_parts, check_counts, check_each_range, gather,
    names_of, read_names,
};
pub use doc_passes::What;
pub use doc_refusals::DocError;
pub use document::{Document, build_plan, build_tree, check_owners, finish, read_document_by_tree};
pub use raw_document::{DocKey, DocPath, PathStep};
