//! The tree, and what it keeps.

ghost use Rattle.std.specs.Prelude.{◌≡◌, ◌<◌, ◌≤◌, ℕ, IfOk, OnErr, OnOk, flat_map, length, slice_index, zip};
ghost use Rattle.bwe_specs.specs.Tree.{cluster_limits};
ghost use Rattle.mpfa_fill.specs.Filling.{IsFilling};
ghost use Rattle.mpfa_fill.specs.GroupValues.{wan_of};
ghost use Rattle.path_groups.specs.Plan.{IsBuiltOn};
ghost use Rattle.policy_tree.specs.Trees.{asking, demand_in, value_in};
ghost use Rattle.kept_tree.specs.Known.{AreKept, AreKnown, values_of};

use crate::fill::filled;
use crate::group::KnownGroup;
use crate::limits::known_limits;
use crate::owner::forget_owner;
use bwe_specs::{MAX_AMOUNT, OutOfMemory};
use link_solver::Guesses;
use mpfa_fill::Filling;
use path_groups::PathPlan;
use policy_tree::PolicyTree;
use push_down::all_limits;
use std::alloc::Global;
use std::marker::Model;
use std::thread::Threads;
use wan_topology::Topology;

// Outlines are drawn anew once as many demands have changed as this part of the tasks.
const MOST_PART: u64 = 16;

// A filling is steady where fewer demands have changed than this part of the groups.
const FEW: u64 = 64;

/// A tree, and what is kept of each group. What its fillings found of links are guesses for the
/// next one. `changed` counts the demands that were set since outlines were drawn, `unfilled` those
/// since the last filling.
#[derive(Drop)]
pub struct KeptTree {
    tree: PolicyTree,
    known: Option<Vec<KnownGroup>>,
    guesses: Option<Guesses>,
    changed: u64,
    unfilled: u64,
}

impl Model for KeptTree {
    ghost use Rattle.policy_tree.specs.Trees.{Tree};
    ghost use Rattle.kept_tree.specs.Known.{AreKept};

    ghost Value = { Tree };

    ghost view = { λ kept. kept.tree };

    ghost invariant = { λ kept. AreKept kept.tree kept.known };
}

impl KeptTree {
    /// The tree, of which nothing is kept.
    pub fn new(tree: PolicyTree) -> KeptTree
        ensures { result ≡ tree }
    {
        KeptTree {
            tree,
            known: None,
            guesses: None,
            changed: u64::MAX,
            unfilled: u64::MAX,
        }
    }

    /// From now on it keeps what it is asked.
    pub fn keep(&mut self, alloc: Global) -> Result<(), OutOfMemory>
        ensures { self.new ≡ self.old }
    {
        let known = nothing(alloc, &self.tree)?;
        self.known = Some(known);
        Ok(())
    }

    /// Whether it keeps what it is asked.
    pub fn keeps(&self) -> bool {
        self.known.is_some()
    }

    /// The tree by itself.
    pub fn tree(&self) -> &PolicyTree
        ensures { result.now ≡ self.now }
    {
        &self.tree
    }

    /// The tree, without what was kept.
    pub fn into_tree(self) -> PolicyTree
        ensures { result ≡ self }
    {
        let KeptTree { tree, .. } = self;
        tree
    }

    /// Makes values cheap again after demands were set. Nothing changes.
    ///
    /// Where values are kept and few demands have changed since outlines were drawn, none is drawn.
    pub fn rematch(&mut self)
        ensures { self.new ≡ self.old }
    {
        if self.has_outlines() {
            self.tree.refresh();
        } else {
            self.tree.rematch();
            self.changed = 0;
        }
    }

    /// The same on threads, as `PolicyTree::rematch_on_threads`.
    pub fn rematch_on_threads<R: Threads + Sync>(&mut self, rt: &R)
        ensures { self.new ≡ self.old }
    {
        if self.has_outlines() {
            self.tree.refresh();
        } else {
            self.tree.rematch_on_threads(rt);
            self.changed = 0;
        }
    }

    // Whether outlines were drawn, and few demands have changed since.
    fn has_outlines(&self) -> bool {
        self.known.is_some() && self.changed < self.tree.tasks() as u64 / MOST_PART
    }

    /// Sets what a task asks for, in kilobits per second, and drops what is kept of its group.
    pub fn set_demand(&mut self, task: u32, demand: u64) -> Result<(), OutOfMemory>
        requires task { task < length self.old.demands }
        requires demand { demand ≤ MAX_AMOUNT }
        ensures ok { OnOk result (self.new ≡ asking self.old task demand) }
        ensures refused { OnErr result (self.new ≡ self.old) }
    {
        forget(&mut self.known, &self.tree, task);
        self.tree.set_demand(task, demand)?;
        self.changed = self.changed.saturating_add(1);
        self.unfilled = self.unfilled.saturating_add(1);
        Ok(())
    }

    /// The filling of the groups' values over the paths of the plan, between the capacities of the
    /// topology ("Filling", "Stop share", docs/DEFINITIONS.md).
    pub fn fill(
        &mut self,
        alloc: Global,
        topology: &Topology,
        plan: &PathPlan,
    ) -> Result<Filling, OutOfMemory>
        requires built_on { IsBuiltOn topology.now plan.now }
        requires groups { length self.old.clusters ≡ length plan.now }
        ensures same { self.new ≡ self.old }
        ensures filling { IfOk result
            (IsFilling (wan_of (values_of self.old) plan.now topology.now.capacities)) }
    {
        let mut guesses = match self.guesses.take() {
            Some(guesses) => guesses,
            None => Guesses::new(alloc),
        };
        let is_steady = self.unfilled < self.tree.groups() as u64 / FEW;
        match &mut self.known {
            Some(known) => {
                let known = known.as_mut_slice();
                let tree = &self.tree;
                let filling = filled(alloc, tree, known, topology, plan, &mut guesses, is_steady);
                self.guesses = Some(guesses);
                self.unfilled = 0;
                filling
            }
            None => {
                let mut known = nothing(alloc, &self.tree)?;
                let known = known.as_mut_slice();
                filled(
                    alloc,
                    &self.tree,
                    known,
                    topology,
                    plan,
                    &mut guesses,
                    false,
                )
            }
        }
    }

    /// Each task's limit, in the order of their numbers, where the groups have these amounts. All
    /// are kilobits per second.
    pub fn limits(&mut self, alloc: Global, amounts: &[u64]) -> Result<Vec<u64>, OutOfMemory>
        requires amounts { length amounts.now ≡ length self.old.clusters }
        requires within { (group : ℕ) → group < length self.old.clusters
            → slice_index amounts.now group ≤ value_in self.old group self.old.top }
        ensures same { self.new ≡ self.old }
        ensures limits { IfOk result (λ limits. limits.items
            ≡ flat_map (λ given. cluster_limits self.old.top (demand_in self.old) given.0 given.1)
            (zip self.old.clusters amounts.now)) }
    {
        match &mut self.known {
            Some(known) => known_limits(alloc, &self.tree, known.as_mut_slice(), amounts),
            None => all_limits(alloc, &self.tree, amounts),
        }
    }
}

// Nothing of any group.
fn nothing(alloc: Global, tree: &PolicyTree) -> Result<Vec<KnownGroup>, OutOfMemory>
    ensures { IfOk result (λ known. AreKnown tree.now known.items) }
{
    let mut known = Vec::with_capacity(alloc, tree.groups() as usize)?;
    for _ in 0..tree.groups() {
        known.push(KnownGroup::new(alloc))?;
    }
    Ok(known)
}

// Drops what is kept of the group of a task.
fn forget(known: &mut Option<Vec<KnownGroup>>, tree: &PolicyTree, task: u32)
    requires task { task < length tree.now.demands }
    requires known { AreKept tree.now known.old }
    ensures known { AreKept tree.now known.new }
    ensures asking { (demand : ℕ) → AreKept (asking tree.now task demand) known.new }
{
    if let Some(known) = known {
        forget_owner(known.as_mut_slice(), tree, task);
    }
}
