//! A network filled with the groups' values, of which many are kept.

ghost use Rattle.std.specs.Prelude.{◌≡◌, ◌≤◌, length, IfOk};
ghost use Rattle.mpfa_fill.specs.Filling.{IsFilling};
ghost use Rattle.mpfa_fill.specs.GroupValues.{wan_of};
ghost use Rattle.path_groups.specs.Plan.{IsBuiltOn};
ghost use Rattle.policy_tree.specs.Trees.{value_in};
ghost use Rattle.kept_tree.specs.Known.{AreKnown, values_of};

use crate::group::{KnownGroup, MOST_VALUES};
use bwe_specs::OutOfMemory;
use kept_values::{Answer, Answers, Meant};
use link_solver::{Guesses, solve_by_guesses};
use mpfa_fill::{Filling, GroupValues};
use path_groups::PathPlan;
use policy_tree::PolicyTree;
use std::alloc::Global;
use std::marker::Brand;
use tree_bounds::{group_ceiling, group_floor, group_last_share_within, is_full, is_searched};
use wan_topology::Topology;

/// The groups of a tree with what is kept of them. What else is asked for is listed by group, and
/// asked for once. It is steady where few groups have changed since the last filling, which asked
/// nearly the same.
#[derive(Drop)]
struct KnownValues<'a, K: Meant> {
    tree: &'a PolicyTree,
    known: &'a [KnownGroup],
    is_steady: bool,
    answers: Answers<K>,
    ghost are: { AreKnown tree.now known.now },
    ghost meant: { K.value ≡ value_in tree.now },
}

impl<K: Meant> KnownValues<'_, K> {
    // Up to which share a value that is kept is a ceiling of that at the share. A value that is
    // kept far above is a loose one, so that the values themselves have to be asked for; where much
    // the same is asked again, that pays, since they are kept from then on.
    fn farthest(&self, share: u64) -> u64
        requires { share ≤ self.now.tree.now.top }
        ensures from { share ≤ result }
        ensures within { result ≤ self.now.tree.now.top }
    {
        if self.is_steady {
            self.tree.top()
        } else {
            share
        }
    }
}

impl<K: Meant> GroupValues for KnownValues<'_, K> {
    ghost meaning = { λ values. values_of values.tree.now };

    fn groups(&self) -> u32 {
        self.tree.groups()
    }

    fn top(&self) -> u64 {
        self.tree.top()
    }

    fn value(&self, group: u32, share: u64) -> u64 {
        if let Some(value) = self.known[group as usize].value(share) {
            return value;
        }
        if let Some(value) = self.answers.value(group, share) {
            return value;
        }
        let value = self.tree.group_value(group, share);
        self.answers.list(group, share, value);
        value
    }

    // Values never fall, so one that is kept at a higher share is a ceiling.
    fn ceiling(&self, group: u32, share: u64) -> Option<u64> {
        self.tree.what_holds();
        let most = self.farthest(share);
        if let Some(value) = self.known[group as usize].value_between(share, most) {
            return Some(value);
        }
        group_ceiling(self.tree, group, share)
    }

    fn floor(&self, group: u32, share: u64, most: u64) -> Option<u64> {
        if let Some(value) = self.known[group as usize].value(share) {
            return Some(value);
        }
        group_floor(self.tree, group, share, most)
    }

    fn is_full(&self, group: u32, share: u64, most: u64) -> bool {
        is_full(self.tree, group, share, most)
    }

    // Under a configured function that takes a search, and values that are kept take none.
    fn last_share_within(&self, group: u32, amount: u64) -> Option<u64> {
        if is_searched(self.tree, group) {
            return None;
        }
        group_last_share_within(self.tree, group, amount)
    }

    fn is_searched(&self, group: u32) -> bool {
        is_searched(self.tree, group)
    }
}

/// The filling with the values of the tree. Values that it asks for are kept from now on.
pub(crate) fn filled(
    alloc: Global,
    tree: &PolicyTree,
    known: &mut [KnownGroup],
    topology: &Topology,
    plan: &PathPlan,
    guesses: &mut Guesses,
    is_steady: bool,
) -> Result<Filling, OutOfMemory>
    requires built_on { IsBuiltOn topology.now plan.now }
    requires groups { length tree.now.clusters ≡ length plan.now }
    requires known { AreKnown tree.now known.old }
    ensures filling { IfOk result
        (IsFilling (wan_of (values_of tree.now) plan.now topology.now.capacities)) }
    ensures known { AreKnown tree.now known.new }
{
    filled_by::<Brand>(alloc, tree, known, topology, plan, guesses, is_steady)
}

// The same, where the values are told apart by their meaning.
fn filled_by<K: Meant>(
    alloc: Global,
    tree: &PolicyTree,
    known: &mut [KnownGroup],
    topology: &Topology,
    plan: &PathPlan,
    guesses: &mut Guesses,
    is_steady: bool,
) -> Result<Filling, OutOfMemory>
    requires meant { K.value ≡ value_in tree.now }
    requires built_on { IsBuiltOn topology.now plan.now }
    requires groups { length tree.now.clusters ≡ length plan.now }
    requires known { AreKnown tree.now known.old }
    ensures filling { IfOk result
        (IsFilling (wan_of (values_of tree.now) plan.now topology.now.capacities)) }
    ensures known { AreKnown tree.now known.new }
{
    let answers = Answers::new(alloc, tree.groups(), MOST_VALUES)?;
    let values: KnownValues<K> = KnownValues {
        tree,
        known: &*known,
        is_steady,
        answers,
    };
    let filling = solve_by_guesses(alloc, &values, topology, plan, guesses);
    let KnownValues { answers, .. } = values;
    add_all_answers(tree, known, &answers.into_lists());
    filling
}

// Keeps the values that were listed of all groups.
fn add_all_answers<K: Meant>(
    tree: &PolicyTree,
    known: &mut [KnownGroup],
    answers: &[Vec<Answer<K>>],
)
    requires meant { K.value ≡ value_in tree.now }
    requires known { AreKnown tree.now known.old }
    ensures { AreKnown tree.now known.new }
{
    for list in answers {
        add_answers(tree, known, list);
    }
}

// Keeps these values.
fn add_answers<K: Meant>(tree: &PolicyTree, known: &mut [KnownGroup], answers: &[Answer<K>])
    requires meant { K.value ≡ value_in tree.now }
    requires known { AreKnown tree.now known.old }
    ensures { AreKnown tree.now known.new }
{
    for answer in answers {
        if answer.group < tree.groups() {
            known[answer.group as usize].add_value(answer.share, answer.value);
        }
    }
}
