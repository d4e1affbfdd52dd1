//! Lines, words, names and numbers out of bytes.
//!
//! The crates that read lines take from here what all of them read alike: `number_of` where leading
//! zeros are allowed, `printed_number_of` where they are not, `amount_in_range` for amounts,
//! `cut_at` and `Words` for the parts of a line, `Lines` for the lines of a text, `NameIndex` for
//! the number of a name. Each answer is that of a definition in `specs/`; `specs/Items.antt` says
//! of all lines of a text what a definition says of one. Nothing is promised of time, but that a
//! name costs a hash and no walk over the names. Only `NameIndex` takes memory.
#![tactic(auto)]

mod cut;
mod lines;
mod names;
mod numbers;
mod words;

pub use cut::{Cut, cut_at};
pub use lines::Lines;
pub use names::NameIndex;
pub use numbers::{amount_in_range, is_number, number_of, printed_number_of};
pub use words::Words;
