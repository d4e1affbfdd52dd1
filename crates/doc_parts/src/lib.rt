//! What is gathered of a document while its raw form stands: its names and numbers, the clusters
//! that its tree is built of, and its topology, or the first of the refusals 1 to 8.
//!
//! `specs/Document.antt` has the definition of a document, all refusals in the order of their
//! numbers; each is a pass of its own, and those before the builders' own are in `doc_passes`.
//! `plan_doc` makes plan and tree of what is gathered here, and `document_reader` gathers the same
//! straight from the tokens and on threads, by the steps that are public here. Both rely on one
//! clause: what is gathered is of a raw document of which the definition answers the same, unless
//! there is a refusal (`Gathers` in `specs/Gathering.antt`).
//!
//! What is read is the tree of the text's JSON value (`raw_shape`), and of it the raw document,
//! whose names the text lends. Names, numbers, clusters (`cluster_parts`) and topology are gathered
//! of it, and then it is let go. Nothing of the built tree is needed for that, only what one is
//! built of (`tree_spec`).
//!
//! Each name is hashed once where it stands, and once where it is referred to unless it is found
//! where it is likely; no name is looked for in a list. Each pass is linear. Nothing is promised of
//! time, of how much memory is taken, and nothing of which growth is refused where memory runs out.
#![tactic(auto)]

mod gathered;
mod names;
mod nodes;

pub use gathered::{
    Built, Gathered, Named, TreeParts, build_parts, check_counts, check_each_range, gather,
    gathered_by_tree, read_names,
};
pub use names::{Tables, names_of};
