//! What a tree is built of.

use bw_function::BwFunction;

/// A job: its configured function if it has one, its tasks' function, and a weight from 1 to
/// 1,000 for each task.
#[derive(Drop)]
pub struct JobSpec {
    pub function: Option<BwFunction>,
    pub task: BwFunction,
    pub weights: Vec<u64>,
}

/// A user: its configured function if it has one, and its jobs.
#[derive(Drop)]
pub struct UserSpec {
    pub function: Option<BwFunction>,
    pub jobs: Vec<JobSpec>,
}

/// A cluster: its configured function if it has one, and its users.
#[derive(Drop)]
pub struct ClusterSpec {
    pub function: Option<BwFunction>,
    pub users: Vec<UserSpec>,
}

/// A tree: the greatest share, from 1 to 1,000,000,000, and a cluster for each group.
#[derive(Drop)]
pub struct TreeSpec {
    pub top: u64,
    pub clusters: Vec<ClusterSpec>,
}
