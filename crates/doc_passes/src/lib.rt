//! The passes over a raw document before any builder: counts above their limits, ranges, repeated
//! names, unknown names.
//!
//! `doc_parts` calls them in this order, which is that of the refusals' numbers, and hands on what
//! they leave. Each answers what its definition says (`Limits`, `Ranges`, `Names` and `Numbers` of
//! `specs/`): nothing, the names in their order, numbers in place of names, or the
//! place of the first fault in the walk. Nothing is promised of time. Each name is hashed at most
//! once where it stands and at most once where it is referred to.
//!
//! `threaded_passes` finds the numbers by parts, and calls what `document_numbers` calls.
#![tactic(auto)]

mod few_names;
mod groups;
mod limit;
mod name_table;
mod numbered;
mod numbers;
mod range;
mod repeats;
mod script;
mod walk;

pub use groups::{GroupNumbers, GroupTables, group_numbers};
pub use limit::{Overrun, What, find_overrun};
pub use name_table::NameTable;
pub use numbers::{DocumentNumbers, closings_numbers, document_numbers, link_owners};
pub use range::check_ranges;
pub use repeats::fill_tables;
pub use script::{each_report_from, script_numbers};
pub use walk::Walked;
