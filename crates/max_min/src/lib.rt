//! Max-min fairness of the filling.
//!
//! `specs/Laws.antt` states the laws over the definitions of `bwe_specs`; each is the contract of a
//! function of its name here, and those functions do nothing.
#![tactic(auto)]

mod laws;

pub use laws::{last_path_group_law, level_law, max_min_law, pushing_out_law, worst_off_law};
