//! The worked cases of the tree.

use super::made::{ask, ask_each, first_value, one_task, two_jobs, two_weights};
use bw_function::BwFunction;
use bwe_specs::OutOfMemory;
use policy_tree::{ClusterSpec, PolicyTree, TreeError, TreeFault, TreeSpec};
use std::alloc::Global;
use std::test::Fail;
use tree_nodes::{Kind, NodeNumbers};

// The cases "Configured user" and "Stale pair".
#[test]
fn a_configured_user_meets_its_jobs(rt: HostRuntime) -> Result<(), Fail> {
    let mut tree = configured_user(rt.alloc(), &[(0, 0), (10, 60)])?;
    tree.rematch();
    let matched = answers(&tree);
    ask(&mut tree, 1, 10)?;
    let stale = answers(&tree);
    tree.rematch();
    assert_eq!(rt; (matched, stale), ((60, 60, 50), (60, 60, 10)));
    assert_eq!(rt; answers(&tree), (60, 60, 10));
    Ok(())
}

// What the first group may have at 10 and at most, and what the second task asks for.
fn answers(tree: &PolicyTree) -> (u64, u64, u64) {
    if tree.groups() == 0 || tree.tasks() != 2 {
        return (0, 0, 0);
    }
    (tree.group_value(0, 10), tree.group_top(0), tree.demand(1))
}

// The wrong body "Proportional transformation" would give 61 there.
#[test]
fn an_amount_between_two_shares_is_not_reached(rt: HostRuntime) -> Result<(), Fail> {
    let mut tree = configured_user(rt.alloc(), &[(0, 0), (10, 61)])?;
    tree.rematch();
    assert_eq!(rt; first_value(&tree, 10), 60);
    Ok(())
}

// The nodes and tasks of the case "Configured user", with the jobs' values at the inner share 4.
#[test]
fn nodes_and_tasks_are_known_by_their_numbers(rt: HostRuntime) -> Result<(), Fail> {
    let tree = configured_user(rt.alloc(), &[(0, 0), (10, 60)])?;
    assert!(rt; has_a_cluster_a_user_and_two_jobs(&tree));
    let in_order = has_children_in_order(rt.alloc(), &tree)?;
    assert!(rt; in_order);
    assert!(rt; has_values_of_nodes_and_tasks(&tree));
    Ok(())
}

fn has_a_cluster_a_user_and_two_jobs(tree: &PolicyTree) -> bool {
    if tree.nodes() != 4 || tree.groups() != 1 || tree.group_node(0) != 0 {
        return false;
    }
    (tree.kind(0), tree.kind(1)) == (Kind::Cluster, Kind::User)
        && (tree.kind(2), tree.kind(3)) == (Kind::Job, Kind::Job)
}

fn has_children_in_order(alloc: Global, tree: &PolicyTree) -> Result<bool, OutOfMemory> {
    if tree.nodes() != 4 {
        return Ok(false);
    }
    let users = tree.children(alloc, 0)?;
    let jobs = tree.children(alloc, 1)?;
    let first = tree.children(alloc, 2)?;
    let second = tree.children(alloc, 3)?;
    Ok(
        users.as_slice() == [1].as_slice()
            && jobs.as_slice() == [2, 3].as_slice()
            && first.as_slice() == [0].as_slice()
            && second.as_slice() == [1].as_slice(),
    )
}

fn has_values_of_nodes_and_tasks(tree: &PolicyTree) -> bool {
    if tree.nodes() != 4 || tree.tasks() != 2 {
        return false;
    }
    (tree.node_value(0, 10), tree.node_value(1, 10)) == (60, 60)
        && (tree.node_value(2, 4), tree.node_value(3, 4)) == (40, 20)
        && (tree.task_value(0, 4), tree.task_value(1, 4)) == (40, 20)
}

// The case "Two weighted tasks": a link of 90 closes at 30.
#[test]
fn weights_divide_a_link(rt: HostRuntime) -> Result<(), Fail> {
    let alloc = rt.alloc();
    let clusters = vec![in alloc; one_task(alloc, 2)?, one_task(alloc, 1)?]?;
    let mut tree = PolicyTree::build(alloc, TreeSpec { top: 100, clusters })?;
    ask_each(&mut tree, 1_000)?;
    let below = values_of_two(&tree, 30);
    assert_eq!(rt; (below, values_of_two(&tree, 31)), ((60, 30), (62, 31)));
    Ok(())
}

// What the two groups may have at a share.
fn values_of_two(tree: &PolicyTree, share: u64) -> (u64, u64) {
    if tree.groups() != 2 {
        return (0, 0);
    }
    (tree.group_value(0, share), tree.group_value(1, share))
}

// The case "Weights in one job".
#[test]
fn a_weight_counts_a_task_so_often(rt: HostRuntime) -> Result<(), Fail> {
    let tree = two_weights(rt.alloc())?;
    assert_eq!(rt; first_value(&tree, 25), 100);
    Ok(())
}

// The case "Library refusals".
#[test]
fn a_cluster_without_users_is_refused(rt: HostRuntime) -> Result<(), Fail> {
    let alloc = rt.alloc();
    let cluster = ClusterSpec {
        function: None,
        users: Vec::new(alloc),
    };
    let refused = PolicyTree::build(
        alloc,
        TreeSpec {
            top: 10,
            clusters: vec![in alloc; cluster]?,
        },
    );
    let fault = TreeFault::EmptyNode { node: 0 };
    assert_eq!(rt; refused.err(), Some(TreeError::Refused { fault }));
    Ok(())
}

// The tree of the case "Configured user", where the user's function has these points.
fn configured_user(alloc: Global, points: &[(u64, u64)]) -> Result<PolicyTree, Fail> {
    two_jobs(alloc, Some(BwFunction::new(alloc, points, 10)?))
}
