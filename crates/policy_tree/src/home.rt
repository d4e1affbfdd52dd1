//! Where a task is in the tree.

ghost use Rattle.std.specs.Prelude.{◌≡◌, ℕ, ◌+◌, ◌^◌, ◌<◌, length, IfOk};
ghost use Rattle.policy_tree.specs.Kept.{counts_of, AreHomes};
ghost use Rattle.policy_tree.specs.Numbering.{numbered_clusters};
ghost use Rattle.policy_tree.specs.Walk.{walk};

use crate::cluster::ClusterNode;
use bwe_specs::OutOfMemory;
use std::alloc::Global;

/// The places of a task's cluster, user and job, and its own place in the job.
#[derive(Clone, Copy, Drop)]
pub(crate) struct Home {
    pub(crate) cluster: u32,
    pub(crate) user: u32,
    pub(crate) job: u32,
    pub(crate) task: u32,
}

/// Where each task is, by its number.
pub(crate) fn homes_of(alloc: Global, clusters: &[ClusterNode]) -> Result<Vec<Home>, OutOfMemory>
    requires { length (walk (numbered_clusters clusters.now)) < 2 ^ 32 }
    ensures { IfOk result (λ homes. AreHomes (counts_of clusters.now) homes.items) }
{
    let mut homes = Vec::new(alloc);
    for (cluster, cluster_node) in clusters.iter().enumerate() {
        for (user, user_node) in cluster_node.users().iter().enumerate() {
            for (job, job_node) in user_node.jobs().iter().enumerate() {
                for task in 0..job_node.tasks() {
                    let home = Home {
                        cluster: cluster as u32,
                        user: user as u32,
                        job: job as u32,
                        task,
                    };
                    homes.push(home)?;
                }
            }
        }
    }
    Ok(homes)
}
