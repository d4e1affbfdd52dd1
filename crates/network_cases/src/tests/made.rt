//! The trees that more than one topic needs.

ghost use Rattle.std.specs.Prelude.{◌≡◌, ◌<◌, ◌≤◌, length, sum_by, All, IfOk};
ghost use Rattle.policy_tree.specs.Asked.{HasTop, HasJobTop, HasClusterTop, HasJobWeights, HasClusterWeights, job_weights, cluster_weights};
ghost use Rattle.policy_tree.specs.Childless.{cluster_childless};

use bw_function::BwFunction;
use bwe_specs::{MAX_AMOUNT, MAX_SHARE, OutOfMemory};
use policy_tree::{ClusterSpec, JobSpec, PolicyTree, TreeSpec, UserSpec};
use std::alloc::Global;
use std::test::Fail;

// The tree of the case "Configured user", where the user has this function: its two jobs have a
// task each, one that asks for 100 and one for 50.
pub fn two_jobs(alloc: Global, function: Option<BwFunction>) -> Result<PolicyTree, Fail>
    requires { HasTop 10 function }
{
    let first = JobSpec {
        function: None,
        task: BwFunction::new(alloc, &[(0, 0), (10, 100)], 10)?,
        weights: vec![in alloc; 1]?,
    };
    let second = JobSpec {
        function: None,
        task: BwFunction::new(alloc, &[(0, 0), (10, 50)], 10)?,
        weights: vec![in alloc; 1]?,
    };
    let mut tree = built(alloc, 10, function, vec![in alloc; first, second]?)?;
    ask(&mut tree, 0, 100)?;
    ask(&mut tree, 1, 50)?;
    Ok(tree)
}

// The tree of the case "Weights in one job": two tasks, of weights 3 and 1, ask for 1,000 each.
pub fn two_weights(alloc: Global) -> Result<PolicyTree, Fail> {
    let job = JobSpec {
        function: None,
        task: BwFunction::new(alloc, &[(0, 0), (100, 100)], 100)?,
        weights: vec![in alloc; 3, 1]?,
    };
    let mut tree = built(alloc, 100, None, vec![in alloc; job]?)?;
    ask_each(&mut tree, 1_000)?;
    Ok(tree)
}

// The task, where there is one, asks for so much.
pub fn ask(tree: &mut PolicyTree, task: u32, demand: u64) -> Result<(), OutOfMemory>
    requires { demand ≤ MAX_AMOUNT }
{
    if task < tree.tasks() {
        tree.set_demand(task, demand)?;
    }
    Ok(())
}

// Each task asks for so much.
pub fn ask_each(tree: &mut PolicyTree, demand: u64) -> Result<(), OutOfMemory>
    requires { demand ≤ MAX_AMOUNT }
{
    for task in 0..tree.tasks() {
        ask(tree, task, demand)?;
    }
    Ok(())
}

// What the first group may have at a share.
pub fn first_value(tree: &PolicyTree, share: u64) -> u64 {
    if tree.groups() == 0 {
        return 0;
    }
    tree.group_value(0, share)
}

// A cluster of one task of slope 1.
pub fn one_task(alloc: Global, weight: u64) -> Result<ClusterSpec, Fail>
    requires low { 1 ≤ weight }
    requires high { weight ≤ 1_000 }
    ensures top { IfOk result (HasClusterTop 100) }
    ensures weights { IfOk result HasClusterWeights }
    ensures nodes { IfOk result (λ cluster. length (cluster_childless cluster) ≡ 3) }
    ensures tasks { IfOk result (λ cluster. cluster_weights cluster ≡ 1) }
{
    let job = JobSpec {
        function: None,
        task: BwFunction::new(alloc, &[(0, 0), (100, 100)], 100)?,
        weights: vec![in alloc; weight]?,
    };
    let user = UserSpec {
        function: None,
        jobs: vec![in alloc; job]?,
    };
    Ok(ClusterSpec {
        function: None,
        users: vec![in alloc; user]?,
    })
}

// The tree of one cluster with one user, which has the function.
pub fn built(
    alloc: Global,
    top: u64,
    function: Option<BwFunction>,
    jobs: Vec<JobSpec>,
) -> Result<PolicyTree, Fail>
    requires low { 1 ≤ top }
    requires high { top ≤ MAX_SHARE }
    requires function { HasTop top function }
    requires tops { All (HasJobTop top) jobs.items }
    requires weights { All HasJobWeights jobs.items }
    requires few { length jobs.items < 100 }
    requires tasks { sum_by job_weights jobs.items ≤ 20_000 }
{
    let user = UserSpec { function, jobs };
    let cluster = ClusterSpec {
        function: None,
        users: vec![in alloc; user]?,
    };
    let clusters = vec![in alloc; cluster]?;
    Ok(PolicyTree::build(alloc, TreeSpec { top, clusters })?)
}
