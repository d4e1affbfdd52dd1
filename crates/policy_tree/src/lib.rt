//! The tree of all groups: clusters, users, jobs and tasks, and what each may have at a share.
//!
//! The layers above build a `PolicyTree`, set what tasks ask for, and ask for the values of the
//! groups; `push_down` goes down the nodes of one group. Contracts see a tree as its clusters in
//! the words of the definitions, with numbered tasks, and a list of demands (`Trees.antt` in
//! `specs/` of `tree_spec`); why a tree is refused is one function of its clusters (`Walk.antt`
//! there). `PolicyTree::top` says what is true of every tree: the groups' values are 0 at share 0,
//! never fall, and add up to at most `MAX_TOTAL` at the top.
//!
//! What a value costs: without configured functions one sum a job, each a search in the job's order
//! of demands. A node with a configured function looks its inner share up. A job tells it without a
//! search, by its order of demands turned round, and so does a chain of single children over one
//! job. So does a single child with a configured function, by at most one search among its own
//! children. Another node searches, and each look is a look at each of its children, so with
//! functions on all three levels the looks of the levels multiply. They are few: `rematch` draws of
//! each node's children an outline (`function_sum::Outline`), whose points are at the shares where
//! the children's functions have theirs and where a child has all that it may have. A search begins
//! where the outline meets the amount, and a look comes with guesses of the last share at which the
//! value stays the same and of what it is after that. It never takes more than 62 looks. A
//! `rematch` itself takes no search: some values of functions for each point, at most 64 points a
//! node, and a sort of the demands of each job that was told a new one; docs/PERFORMANCE.md counts
//! them. A changed demand makes the sum of its own job slow until the next `rematch`, and no other.
//! `rematch_on_threads` shares the clusters out among threads, one for each processor.
//! `tree_bounds` tells bounds of the groups' values without a search, by the nodes' `function` and
//! `siblings`; `tree_nodes` tells of each node by its number. Nothing is promised of that cost in a
//! contract, nor of how values are kept.
#![tactic(auto)]

mod childless;
mod cluster;
mod configured;
mod home;
mod job;
mod level;
mod siblings;
mod tree;
mod user;
mod value;

pub use cluster::ClusterNode;
pub use job::JobNode;
pub use siblings::Siblings;
pub use tree::PolicyTree;
pub use tree_spec::{ClusterSpec, JobSpec, TreeError, TreeFault, TreeSpec, UserSpec};
pub use user::UserNode;
