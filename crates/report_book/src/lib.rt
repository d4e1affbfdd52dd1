//! Reports of demands and capacities, kept without an allocator: each of them, or their sum alone.
//!
//! A `DemandBook` keeps each report, and answers demands and capacities after any prefix of them:
//! the maker of `bwe_protocol` stands on it. A `SmallMaker` keeps a count and a sum. It is the least
//! maker of tables, for tests of code that is generic in the maker.
#![tactic(auto)]

mod book;
mod small;
mod told;

pub use book::{BookError, DemandBook};
pub use small::{SmallMaker, SmallTable};
