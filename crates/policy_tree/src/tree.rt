//! The tree of all groups.

ghost use Rattle.std.specs.Prelude.{◌≡◌, ℕ, ◌^◌, ◌<◌, ◌≤◌, length, All, IfOk, IfErr, OnOk, OnErr, None};
ghost use Rattle.bwe_specs.specs.Values.{AreValues};
ghost use Rattle.policy_tree.specs.Trees.{asking, demand_in, value_in, task_numbers, IsTree};
ghost use Rattle.policy_tree.specs.Asked.{HasClusterTop, HasClusterWeights};
ghost use Rattle.policy_tree.specs.Childless.{clusters_of, idle_tree};
ghost use Rattle.policy_tree.specs.Nodes.{first_in, AreClustersOf, IsClusterOf};
ghost use Rattle.policy_tree.specs.TaskValues.{task_value_in, IsJobOf};
ghost use Rattle.policy_tree.specs.Walk.{walk, tree_fault, TellsFault};

use crate::childless::{fault_of, firsts_of};
use crate::cluster::ClusterNode;
use crate::home::{Home, homes_of};
use crate::job::JobNode;
use crate::level::{LevelNode, nodes_of, refresh_all, rematch_all};
use bwe_specs::{MAX_AMOUNT, MAX_SHARE, OutOfMemory};
use function_sum::ShareFunction;
use rayon::prelude::*;
use std::alloc::Global;
use std::marker::Model;
use std::thread::Threads;
use tree_spec::{TreeError, TreeSpec};

/// The clusters of all groups, with their users, jobs and tasks, and what each task asks for.
#[derive(Drop)]
pub struct PolicyTree {
    top: u64,
    clusters: Vec<ClusterNode>,
    homes: Vec<Home>,
    firsts: Vec<u32>,
}

impl Model for PolicyTree {
    ghost use Rattle.policy_tree.specs.Trees.{Tree, tree_of};

    ghost Value = { Tree };

    ghost use Rattle.policy_tree.specs.Kept.{IsKeptTree};

    ghost view = { λ tree. tree_of tree.top tree.clusters.items };

    ghost invariant = { λ tree.
        IsKeptTree tree.top tree.clusters.items tree.homes.items tree.firsts.items };
}

impl PolicyTree {
    /// The tree of a spec, with every demand 0.
    ///
    /// The fault that is told is the first one in the order of `TreeFault`. It costs one step for
    /// each node and each task, and a sort of the matched shares of each configured function. No
    /// clause says when memory runs out.
    pub fn build(alloc: Global, spec: TreeSpec) -> Result<PolicyTree, TreeError>
        requires low { 1 ≤ spec.top }
        requires high { spec.top ≤ MAX_SHARE }
        requires tops { All (HasClusterTop spec.top) spec.clusters.items }
        requires weights { All HasClusterWeights spec.clusters.items }
        requires nodes { length (walk (clusters_of spec.clusters.items)) < 2 ^ 32 }
        requires tasks { length (task_numbers (clusters_of spec.clusters.items)) < 2 ^ 64 }

        ensures built { IfOk result (λ tree. tree ≡ idle_tree spec) }
        ensures accepted { OnOk result (tree_fault (clusters_of spec.clusters.items) ≡ None) }
        ensures refused { IfErr result (TellsFault (tree_fault (clusters_of spec.clusters.items))) }
    {
        let TreeSpec { top, clusters } = spec;
        if let Some(fault) = fault_of(clusters.as_slice()) {
            return Err(TreeError::Refused { fault });
        }
        let firsts = firsts_of(alloc, clusters.as_slice())?;
        let clusters: Vec<ClusterNode> = nodes_of(alloc, clusters, false)?;
        let homes = homes_of(alloc, clusters.as_slice())?;
        Ok(PolicyTree {
            top,
            clusters,
            homes,
            firsts,
        })
    }

    /// Sets what a task asks for, in kilobits per second. It changes one job, and costs the same
    /// for every tree.
    ///
    /// This body takes no memory, so it never answers `OutOfMemory`.
    pub fn set_demand(&mut self, task: u32, demand: u64) -> Result<(), OutOfMemory>
        requires task { task < length self.old.demands }
        requires demand { demand ≤ MAX_AMOUNT }
        ensures ok { OnOk result (self.new ≡ asking self.old task demand) }
        ensures refused { OnErr result (self.new ≡ self.old) }
    {
        let home = self.homes[task as usize];
        self.clusters[home.cluster as usize].set(
            home.user as usize,
            home.job as usize,
            home.task,
            demand,
        )?;
        Ok(())
    }

    /// Makes values cheap again after demands were set. It takes no memory.
    ///
    /// Contracts see no change, as a body that does nothing is right too, and slow.
    pub fn rematch(&mut self)
        ensures { self.new ≡ self.old }
    {
        rematch_all(self.clusters.as_mut_slice(), self.top);
    }

    /// The same on threads, one for each processor, which has a piece of the list of clusters. That
    /// more than one works is promised by no clause, nor is time.
    pub fn rematch_on_threads<R: Threads + Sync>(&mut self, rt: &R)
        ensures { self.new ≡ self.old }
    {
        rematch_clusters(rt, self.clusters.as_mut_slice(), self.top);
    }

    /// The same as `rematch` where few values of a group are asked for before the next demand. It
    /// takes no memory, and less time.
    pub fn refresh(&mut self)
        ensures { self.new ≡ self.old }
    {
        refresh_all(self.clusters.as_mut_slice());
    }

    /// What a task asks for, in kilobits per second. At first it is 0.
    pub fn demand(&self, task: u32) -> u64
        requires { task < length self.now.demands }
        ensures { result ≡ demand_in self.now task }
    {
        let (job, place) = self.job_of(task);
        job.demand(place)
    }

    /// How many groups there are.
    pub fn groups(&self) -> u32
        ensures { result ≡ length self.now.clusters }
    {
        self.clusters.len() as u32
    }

    /// How many tasks there are.
    pub fn tasks(&self) -> u32
        ensures { result ≡ length self.now.demands }
    {
        self.homes.len() as u32
    }

    /// The greatest share.
    pub fn top(&self) -> u64
        ensures top { result ≡ self.now.top }
        ensures tree { IsTree self.now }
        ensures values { AreValues (length self.now.clusters) self.now.top (value_in self.now) }
    {
        self.top
    }

    /// Does nothing. Who calls it knows what holds of each tree: its tasks are numbered in one
    /// walk, 32 bits number its groups, and no group's value falls, nor are all of them together
    /// too much to be added up.
    pub fn what_holds(&self)
        ensures tree { IsTree self.now }
        ensures values { AreValues (length self.now.clusters) self.now.top (value_in self.now) }
        ensures few { length self.now.clusters < 2 ^ 32 }
    {
        let (_top, _groups) = (self.top, self.groups());
    }

    /// The cluster of a group, for those who go down its nodes.
    pub fn cluster(&self, group: u32) -> &ClusterNode
        requires { group < length self.now.clusters }
        ensures { IsClusterOf self.now group result.now }
    {
        &self.clusters[group as usize]
    }

    /// The clusters of all groups, for those who go through all nodes.
    pub fn clusters(&self) -> &[ClusterNode]
        ensures { AreClustersOf self.now result.now }
    {
        self.clusters.as_slice()
    }

    /// The number of a group's first task. The numbers of its tasks go on from there.
    pub fn first_task(&self, group: u32) -> u32
        requires { group < length self.now.clusters }
        ensures { result ≡ first_in self.now group }
    {
        self.firsts[group as usize]
    }

    /// What a task may have at a share, in kilobits per second ("Task rule", docs/DEFINITIONS.md).
    pub fn task_value(&self, task: u32, share: u64) -> u64
        requires { task < length self.now.demands }
        ensures { result ≡ task_value_in self.now task share }
    {
        let (job, place) = self.job_of(task);
        job.task_value(place, share)
    }

    /// What a group may have at a share, in kilobits per second.
    pub fn group_value(&self, group: u32, share: u64) -> u64
        requires { group < length self.now.clusters }
        ensures { result ≡ value_in self.now group share }
    {
        self.clusters[group as usize].value(share)
    }

    /// What a group may have at the greatest share, in kilobits per second.
    pub fn group_top(&self, group: u32) -> u64
        requires { group < length self.now.clusters }
        ensures { result ≡ value_in self.now group self.now.top }
    {
        self.group_value(group, self.top)
    }

    // The job of a task, and the task's place in it.
    fn job_of(&self, task: u32) -> (&JobNode, u32)
        requires { task < length self.now.demands }
        ensures { IsJobOf self.now task result.0.now result.1 }
    {
        let home = self.homes[task as usize];
        let cluster = &self.clusters[home.cluster as usize];
        let user = &cluster.users()[home.user as usize];
        (&user.jobs()[home.job as usize], home.task)
    }
}

// Makes the value of each cluster cheap again, on threads.
fn rematch_clusters<R: Threads + Sync>(rt: &R, clusters: &mut [ClusterNode], top: u64)
    ensures { clusters.new ≡ clusters.old }
{
    par_for_each_mut(
        rt,
        clusters,
        |_place: usize, cluster: &mut ClusterNode|
            ensures { cluster.new ≡ cluster.old }
        {
            cluster.rematch(top);
        },
    );
}
