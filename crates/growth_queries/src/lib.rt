//! What is asked of a growth of `mpfa_fill`, and done to it, where the groups of a link are known.
//!
//! The program `bwe_solve` needs none of it: these are the calls of the solvers that go link by
//! link. A group that grows over a link is brought up (`bring_up_over`), found (`place_over`,
//! `next_place`) and made a term of the link's load (`term_of_use`), by `link_front` and
//! `closing_walk`. What one group puts on a link (`load_now`, `load_then`), a load that bounds of
//! the groups' values tell (`load_within`), and the last share at which a link fits over which one
//! group grows (`last_fit`) are for `link_solver`.
#![tactic(auto)]

mod fits;
mod groups;
mod loads;

pub use fits::last_fit;
pub use groups::{bring_up_over, next_place, place_over, term_of_use};
pub use loads::{load_now, load_then, load_within};
