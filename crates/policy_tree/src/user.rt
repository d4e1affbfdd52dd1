//! A user of the tree.

ghost use Rattle.std.specs.Prelude.{◌≡◌, ℕ, ◌<◌, ◌≤◌, length, OnOk, OnErr};
ghost use Rattle.function_sum.specs.Meaning.{IsMeaning};
ghost use Rattle.policy_tree.specs.States.{user_meaning, jobs_meaning, job_tasks, IsUserState, IsKeptFunction};
ghost use Rattle.policy_tree.specs.Asked.{HasUserWeights, user_weights, idle_user};
ghost use Rattle.policy_tree.specs.Changes.{job_at, user_with};

use crate::configured::{Configured, is_any_configured};
use crate::job::JobNode;
use crate::level::{LevelNode, nodes_of, outline_of, refresh_all, rematch_all};
use crate::siblings::Siblings;
use crate::value::{
    add_bends_of, last_share_at, look_at, near_at, stretch_of, value_at, what_holds,
};
use bw_function::BwFunction;
use bwe_specs::{MAX_AMOUNT, OutOfMemory};
use function_sum::{Look, Outline, ShareFunction, Stretch};
use std::alloc::Global;
use std::marker::Model;
use tree_spec::UserSpec;

/// A user: its jobs, and its configured function.
#[derive(Drop)]
pub struct UserNode {
    function: Option<BwFunction>,
    jobs: Vec<JobNode>,
    outline: Outline,
    is_outlined: bool,
}

impl Model for UserNode {
    ghost use Rattle.policy_tree.specs.States.{UserState, IsUserState};

    ghost Value = { UserState };

    ghost view = { λ user.
        record { configured = user.function; jobs = user.jobs.items } };

    ghost invariant = { λ user.
        IsUserState
        (record { configured = user.function; jobs = user.jobs.items }) };
}

impl UserNode {
    /// The configured function, if there is one.
    pub fn function(&self) -> &Option<BwFunction>
        ensures configured { result.now ≡ self.now.configured }
        ensures kept { IsKeptFunction result.now }
    {
        &self.function
    }

    /// The jobs, in the order of their numbers.
    pub fn jobs(&self) -> &[JobNode]
        ensures jobs { result.now ≡ self.now.jobs }
        ensures meaning { IsMeaning (jobs_meaning self.now.jobs) }
    {
        self.jobs.as_slice()
    }

    /// Sets the demand of a task of a job.
    pub(crate) fn set(&mut self, job: usize, task: u32, demand: u64) -> Result<(), OutOfMemory>
        requires job { job < length self.old.jobs }
        requires task { task < job_tasks (job_at self.old.jobs job) }
        requires demand { demand ≤ MAX_AMOUNT }
        ensures ok { OnOk result (self.new ≡ user_with self.old job task demand) }
        ensures refused { OnErr result (self.new ≡ self.old) }
    {
        self.jobs[job].set(task, demand)?;
        Ok(())
    }

    /// The jobs as a share function.
    pub fn siblings(&self) -> Siblings<'_, JobNode>
        ensures { result.nodes.now ≡ self.now.jobs }
    {
        Siblings {
            nodes: self.jobs.as_slice(),
            outline: &self.outline,
        }
    }
}

impl LevelNode for UserNode {
    type Spec = UserSpec;

    ghost HasWeights = { HasUserWeights };

    ghost weights = { user_weights };

    ghost idle = { idle_user };

    ghost IsState = { IsUserState };

    fn new(alloc: Global, spec: UserSpec, is_searched: bool) -> Result<UserNode, OutOfMemory> {
        let UserSpec { function, jobs } = spec;
        what_holds(&function);
        let is_searched = is_searched || function.is_some();
        let jobs: Vec<JobNode> = nodes_of(alloc, jobs, is_searched)?;
        let is_outlined = is_searched || is_any_configured(jobs.as_slice());
        let outline = outline_of(alloc, jobs.as_slice(), is_outlined)?;
        Ok(UserNode {
            function,
            jobs,
            outline,
            is_outlined,
        })
    }

    fn rematch(&mut self, top: u64) {
        rematch_all(self.jobs.as_mut_slice(), top);
        if self.is_outlined {
            self.outline.redraw(self.jobs.as_slice(), top);
        }
    }

    fn refresh(&mut self) {
        refresh_all(self.jobs.as_mut_slice());
    }
}

impl ShareFunction for UserNode {
    ghost meaning = { user_meaning };

    fn value(&self, share: u64) -> u64 {
        value_at(&self.function, &self.siblings(), share)
    }

    fn look(&self, share: u64) -> Look {
        look_at(&self.function, &self.siblings(), share)
    }

    fn last_share_within(&self, amount: u64, top: u64) -> Option<u64> {
        last_share_at(&self.function, &self.siblings(), amount, top)
    }

    fn near(&self, share: u64) -> u64 {
        near_at(&self.function, &self.siblings(), share)
    }

    fn add_bends(&self, outline: &mut Outline) {
        add_bends_of(&self.function, &self.siblings(), outline);
    }

    fn stretch(&self, amount: u64) -> Option<Stretch> {
        stretch_of(&self.function, &self.siblings(), amount)
    }
}

impl Configured for UserNode {
    fn is_configured(&self) -> bool {
        self.function.is_some() || is_any_configured(self.jobs.as_slice())
    }
}
