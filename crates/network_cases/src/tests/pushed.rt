//! The worked cases of distribution.

ghost use Rattle.std.specs.Prelude.{◌≡◌, length, IfOk};
ghost use Rattle.policy_tree.specs.Asked.{AreWeights, HasTop};

use super::made::{ask_each, built, first_value, two_jobs, two_weights};
use bw_function::BwFunction;
use policy_tree::{JobSpec, PolicyTree};
use push_down::{TaskLimit, distribute};
use std::alloc::Global;
use std::test::Fail;

// The case "Distribution with a rest": 55 of the configured user, and 61 without its function.
#[test]
fn a_rest_goes_to_the_children_in_their_order(rt: HostRuntime) -> Result<(), Fail> {
    let alloc = rt.alloc();
    let function = BwFunction::new(alloc, &[(0, 0), (10, 60)], 10)?;
    let limits = limits_of_two_jobs(alloc, Some(function), 55)?;
    assert!(rt; are_limits(&limits, 40, 15));
    let limits = limits_of_two_jobs(alloc, None, 61)?;
    assert!(rt; are_limits(&limits, 41, 20));
    Ok(())
}

// The case "Twenty thousand tasks".
#[test]
fn the_first_of_twenty_thousand_tasks_gets_all(rt: HostRuntime) -> Result<(), Fail> {
    let mut tree = twenty_thousand_tasks(rt.alloc())?;
    ask_each(&mut tree, 1_000_000_000_000)?;
    tree.rematch();
    assert_eq!(rt; first_value(&tree, 1), 20_000_000_000_000_000);
    let limits = limits_of(rt.alloc(), &tree, 1_000_000_000_000)?;
    assert_eq!(rt; limits.len(), 20_000);
    assert!(rt; has_the_first_all(&limits));
    Ok(())
}

// A job of twenty thousand tasks, each of which may have the greatest amount at share 1.
fn twenty_thousand_tasks(alloc: Global) -> Result<PolicyTree, Fail> {
    let job = JobSpec {
        function: None,
        task: BwFunction::new(alloc, &[(0, 0), (1, 1_000_000_000_000)], 1)?,
        weights: ones(alloc, 20_000)?,
    };
    built(alloc, 1, None, vec![in alloc; job]?)
}

fn has_the_first_all(limits: &[TaskLimit]) -> bool {
    for (place, entry) in limits.iter().enumerate() {
        let limit = if place == 0 { 1_000_000_000_000 } else { 0 };
        if entry.task as usize != place || entry.limit != limit {
            return false;
        }
    }
    true
}

// The cases "Weights in one job", which has 100 at share 25, and "Weighted rest".
#[test]
fn a_rest_goes_to_weighted_tasks(rt: HostRuntime) -> Result<(), Fail> {
    let alloc = rt.alloc();
    let tree = two_weights(alloc)?;
    let limits = limits_of(alloc, &tree, 100)?;
    assert!(rt; are_limits(&limits, 75, 25));
    let limits = limits_of(alloc, &tree, 102)?;
    assert!(rt; are_limits(&limits, 77, 25));
    Ok(())
}

// Whether these are the limits of the tasks 0 and 1.
fn are_limits(limits: &[TaskLimit], first: u64, second: u64) -> bool {
    let first = TaskLimit {
        task: 0,
        limit: first,
    };
    let second = TaskLimit {
        task: 1,
        limit: second,
    };
    limits == [first, second].as_slice()
}

// So many weights of 1.
fn ones(alloc: Global, count: u64) -> Result<Vec<u64>, Fail>
    ensures size { IfOk result (λ weights. length weights.items ≡ count) }
    ensures each { IfOk result (λ weights. AreWeights weights.items) }
{
    let mut weights = Vec::new(alloc);
    for _place in 0..count {
        weights.push(1)?;
    }
    Ok(weights)
}

// The limits of the tree of the case "Configured user", where the user has this function.
fn limits_of_two_jobs(
    alloc: Global,
    function: Option<BwFunction>,
    amount: u64,
) -> Result<Vec<TaskLimit>, Fail>
    requires { HasTop 10 function }
{
    let tree = two_jobs(alloc, function)?;
    limits_of(alloc, &tree, amount)
}

// The limits of the first group's tasks at an amount; none where it may not have it.
fn limits_of(alloc: Global, tree: &PolicyTree, amount: u64) -> Result<Vec<TaskLimit>, Fail> {
    if tree.groups() == 0 || tree.group_top(0) < amount {
        return Ok(Vec::new(alloc));
    }
    Ok(distribute(alloc, tree, 0, amount)?)
}
