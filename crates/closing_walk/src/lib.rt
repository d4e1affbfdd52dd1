//! Closings that are seen to be right with few looks, without the solver.
//!
//! `seen_right` walks over a list of closings once. Between two closings that change which groups
//! grow over a link, its load rises with the share alone, and so one look is enough: at the
//! greatest share at which the list says that it fits. With each link stands the place of the list
//! from which on it was not looked at; it is looked at where a group leaves it. So a list is seen
//! exactly where it is right, and no share is searched. Most looks are not even made: the list is
//! walked over once before, without a look, for the load that each link has in the end, and no link
//! has more on the way there but for what the groups that leave a link would put on it with one
//! share more (`ends`). Why a list is not right is for `bottleneck_cert`. Nothing is promised of
//! time.
#![tactic(auto)]

mod ends;
mod known;
mod walk;

pub use walk::seen_right;
