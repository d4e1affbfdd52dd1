//! The laws that hold of the definitions of `bwe_specs`.
//!
//! `specs/Laws.antt` states them for every network and all values that never fall; each is the
//! contract of a function of its name here, and those functions do nothing. `proofs/Cases.antt` has
//! the definitions computed on the worked cases.
#![tactic(auto)]

mod laws;

pub use laws::{
    bottleneck_law, certificate_law, common_share_law, conservation_law, distribution_adds_up,
    distribution_lies_between, feasibility_law, filling_reaches_top, interleaving_law,
    no_link_is_ever_over, plan_values_never_fall, right_amounts_law, verdict_law,
};
