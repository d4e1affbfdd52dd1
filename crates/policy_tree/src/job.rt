//! A job of the tree.

ghost use Rattle.std.specs.Prelude.{◌≡◌, ℕ, ◌<◌, ◌≤◌, length, OnOk, OnErr};
ghost use Rattle.tree_spec.specs.Tasks.{AreInRange, task_at, tasks_value};
ghost use Rattle.function_sum.specs.Meaning.{IsMeaning};
ghost use Rattle.policy_tree.specs.States.{job_meaning, job_tasks, IsJobState, IsKeptFunction};
ghost use Rattle.policy_tree.specs.Asked.{HasJobWeights, job_weights, idle_job};
ghost use Rattle.policy_tree.specs.Changes.{job_with};
ghost use Rattle.policy_tree.specs.TaskValues.{value_at};

use crate::configured::Configured;
use crate::level::LevelNode;
use crate::value::{
    add_bends_of, last_share_at, look_at, near_at, stretch_of, value_at, what_holds,
};
use bw_function::BwFunction;
use bwe_specs::{MAX_AMOUNT, OutOfMemory};
use capped_sum::CappedSum;
use function_sum::{Look, Outline, ShareFunction, Stretch};
use std::alloc::Global;
use std::marker::Model;
use tree_spec::JobSpec;

/// A job: the sum of its tasks, and its configured function.
#[derive(Drop)]
pub struct JobNode {
    function: Option<BwFunction>,
    sum: CappedSum,
}

impl Model for JobNode {
    ghost use Rattle.policy_tree.specs.States.{JobState, IsJobState};

    ghost Value = { JobState };

    ghost view = { λ job. record { configured = job.function; sum = job.sum } };

    ghost invariant = { λ job.
        IsJobState (record { configured = job.function; sum = job.sum }) };
}

impl JobNode {
    /// The configured function, if there is one.
    pub fn function(&self) -> &Option<BwFunction>
        ensures configured { result.now ≡ self.now.configured }
        ensures kept { IsKeptFunction result.now }
    {
        &self.function
    }

    /// The sum of the tasks' values, with their weights and demands.
    pub fn sum(&self) -> &CappedSum
        ensures sum { result.now ≡ self.now.sum }
        ensures in_range { AreInRange result.now.tasks }
        ensures meaning { IsMeaning (tasks_value result.now) }
    {
        &self.sum
    }

    /// How many tasks there are.
    pub(crate) fn tasks(&self) -> u32
        ensures { result ≡ job_tasks self.now }
    {
        self.sum.tasks()
    }

    /// Sets one demand.
    pub(crate) fn set(&mut self, task: u32, demand: u64) -> Result<(), OutOfMemory>
        requires task { task < length self.old.sum.tasks }
        requires demand { demand ≤ MAX_AMOUNT }
        ensures ok { OnOk result (self.new ≡ job_with self.old task demand) }
        ensures refused { OnErr result (self.new ≡ self.old) }
    {
        self.sum.set(task, demand)?;
        Ok(())
    }

    /// The demand of a task.
    pub(crate) fn demand(&self, task: u32) -> u64
        requires { task < length self.now.sum.tasks }
        ensures { result ≡ (task_at self.now.sum.tasks task).demand }
    {
        self.sum.demand(task)
    }

    /// The value of a task: its weight times its function's value, and at most its demand.
    pub(crate) fn task_value(&self, task: u32, share: u64) -> u64
        requires { task < length self.now.sum.tasks }
        ensures { result ≡ value_at self.now task share }
    {
        let most = self.sum.weight(task) as u128 * self.sum.function().value(share) as u128;
        most.min(self.sum.demand(task) as u128) as u64
    }
}

impl LevelNode for JobNode {
    type Spec = JobSpec;

    ghost HasWeights = { HasJobWeights };

    ghost weights = { job_weights };

    ghost idle = { idle_job };

    ghost IsState = { IsJobState };

    fn new(alloc: Global, spec: JobSpec, _is_searched: bool) -> Result<JobNode, OutOfMemory> {
        let JobSpec {
            function,
            task,
            weights,
        } = spec;
        task.what_holds();
        what_holds(&function);
        let sum = CappedSum::new(alloc, task, weights.as_slice())?;
        Ok(JobNode { function, sum })
    }

    // Over a fresh index the sum tells each inner share itself.
    fn rematch(&mut self, _top: u64) {
        self.sum.refresh();
    }

    fn refresh(&mut self) {
        self.sum.refresh();
    }
}

impl ShareFunction for JobNode {
    ghost meaning = { job_meaning };

    fn value(&self, share: u64) -> u64 {
        value_at(&self.function, &self.sum, share)
    }

    fn look(&self, share: u64) -> Look {
        look_at(&self.function, &self.sum, share)
    }

    fn last_share_within(&self, amount: u64, top: u64) -> Option<u64> {
        last_share_at(&self.function, &self.sum, amount, top)
    }

    fn near(&self, share: u64) -> u64 {
        near_at(&self.function, &self.sum, share)
    }

    fn add_bends(&self, outline: &mut Outline) {
        add_bends_of(&self.function, &self.sum, outline);
    }

    fn stretch(&self, amount: u64) -> Option<Stretch> {
        stretch_of(&self.function, &self.sum, amount)
    }
}

impl Configured for JobNode {
    fn is_configured(&self) -> bool {
        self.function.is_some()
    }
}
