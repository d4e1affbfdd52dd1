//! The laws of a table that an operator asks for first.
//!
//! `specs/Laws.antt` states the laws over the definitions of `bwe_specs`; each is the contract of a
//! function of its name here, and those functions do nothing. The makers of tables carry them as
//! clauses.
#![tactic(auto)]

mod laws;

pub use laws::{
    kept_by_changes, no_more_than_asked, no_place_matters, no_waste, one_text_one_table,
    the_same_share,
};
