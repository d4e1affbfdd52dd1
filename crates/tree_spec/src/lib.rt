//! What a tree is built of, and why it is refused.
//!
//! The layers above make a `TreeSpec` of clusters, users and jobs; `policy_tree` builds it, or
//! tells a `TreeFault`. `specs/` has what contracts see of both: the tasks of a job and the sum of
//! their values (`specs/Tasks.antt`), the nodes as the code keeps them (`specs/States.antt`), the
//! clusters of the definitions, with numbered tasks, that they are (`specs/Numbering.antt`,
//! `specs/Trees.antt`), the walk of the nodes, and the fault as one function of the clusters
//! (`specs/Walk.antt`). Nothing here adds values up or builds a tree, so what only gathers one need
//! not wait for either.
#![tactic(auto)]

mod fault;
mod spec;
mod task;

pub use fault::{TreeError, TreeFault};
pub use spec::{ClusterSpec, JobSpec, TreeSpec, UserSpec};
pub use task::Task;
