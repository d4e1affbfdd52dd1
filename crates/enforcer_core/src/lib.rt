//! Regions that keep to posted tables of limits, over a network that may lose, repeat and reorder
//! any message.
//!
//! `World::step` is one event of the definition World ("World", docs/DEFINITIONS.md), for any kind
//! of table; `bwe enforce` above makes one step a line. `world_law` is the law on all runs of that
//! definition: what is in force in a region is of a table that was posted, the prefixes in force
//! along a region never fall, and nothing below what is settled is put in force any more.
//! `enforcement_settles` is the law on regions that have all taken the posted table. Not promised:
//! that a message arrives, and when; nor which limits a table has.
#![tactic(auto)]

mod centre;
mod event;
mod law;
mod region;
mod world;

pub use event::{WorldAnswer, WorldEvent};
pub use law::{enforcement_settles, world_law};
pub use world::World;
