//! A module for each topic.

mod capped;
mod fillings;
mod functions;
mod groups;
mod made;
mod pushed;
mod search;
mod sums;
mod transforms;
mod trees;
mod walked;
