//! Nodes of a tree by their numbers: of which kind each is, its children, and what it may have.
//!
//! Whoever has a `PolicyTree` and uses the trait `NodeNumbers` asks the tree itself, as in
//! `tree.children(alloc, node)`. Contracts number nodes and tasks as the definitions do ("Numbering
//! rule", docs/DEFINITIONS.md): children are told by `child_numbers` (`Children.antt` in `specs/`),
//! kinds and values by `kind_of` and `value_of` (`Seen.antt`). A node is looked up by its number in
//! the order of the numbers, so it takes time. Nothing is promised of that.
#![tactic(auto)]

mod kind;
mod nodes;
mod walked;

pub use kind::Kind;
pub use nodes::NodeNumbers;
