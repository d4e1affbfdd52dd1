//! Tiers as bytes: the part of an input that gives each group its tier, and the text of a table of
//! tiers.
//!
//! The command `tiers` of the top call uses `read_tiers`, whose clauses say which part is refused
//! and at which byte, `refused_tiers`, the row that it then prints, and `tier_text`, whose clause
//! is the whole text ("Tiers" and "Tier text", docs/FORMAT.md). Texts are made whole before
//! anything is written.
#![tactic(auto)]

mod part;
mod text;

pub use part::{TiersError, read_tiers, refused_tiers};
pub use text::tier_text;
