//! Strict tiers of groups: each tier is filled over what the tiers below it left free.
//!
//! The text of tiers and the top call use `fill_tiers` and `TierTable`. `fill_tiers` answers the
//! Tiered allocation, and no link's load exceeds its capacity. `tier_promise` is the law that no
//! demand of a higher tier matters to a lower one. Nothing is promised of time: it is that of one
//! filling for each tier.
#![tactic(auto)]

mod fill;
mod fillings;
mod laws;
mod table;
mod values;

pub use fill::fill_tiers;
pub use laws::tier_promise;
pub use table::TierTable;
