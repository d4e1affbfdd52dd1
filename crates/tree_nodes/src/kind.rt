//! What kinds of nodes there are.

/// The kind of a node: a cluster has users, a user jobs, and a job tasks.
#[derive(Clone, Copy, Debug, PartialEq, Eq, Drop)]
pub enum Kind {
    Cluster,
    User,
    Job,
}
