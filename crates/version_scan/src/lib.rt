//! Whether bytes are JSON, and whether they are a document of version 4, each found in one pass
//! over the tokens.
//!
//! `one_run` asks for version 4 where a document is longer than one of versions 1 to 3 may
//! be. The answer is exact (`specs/Version.antt`): the bytes are a JSON object, and its last member
//! `version` is the whole number 4. `raw_shape` asks whether bytes are JSON before it makes a tree
//! of them. `fault_scan` passes over values by `pass` and reads numbers by `number`, `raw_reader`
//! reads numbers of digits alone by `whole_number`. A pass keeps nothing of the document: beside the
//! bytes it takes as many for the strings that are written with escapes. Nothing is promised of
//! time.
#![tactic(auto)]

mod numbers;
mod passing;
mod version;
mod whole;

pub use numbers::{number, whole_number};
pub use passing::pass;
pub use version::is_of_version_4;
pub use whole::is_json;
