//! A cluster of the tree.

ghost use Rattle.std.specs.Prelude.{◌≡◌, ◌<◌, ◌≤◌, length, OnOk, OnErr};
ghost use Rattle.function_sum.specs.Meaning.{IsMeaning};
ghost use Rattle.policy_tree.specs.States.{cluster_meaning, users_meaning, job_tasks, IsClusterState, IsKeptFunction};
ghost use Rattle.policy_tree.specs.Asked.{HasClusterWeights, cluster_weights, idle_cluster};
ghost use Rattle.policy_tree.specs.Changes.{job_at, user_at, cluster_with};

use crate::configured::is_any_configured;
use crate::level::{LevelNode, nodes_of, outline_of, refresh_all, rematch_all};
use crate::siblings::Siblings;
use crate::user::UserNode;
use crate::value::{
    add_bends_of, last_share_at, look_at, near_at, stretch_of, value_at, what_holds,
};
use bw_function::BwFunction;
use bwe_specs::{MAX_AMOUNT, OutOfMemory};
use function_sum::{Look, Outline, ShareFunction, Stretch};
use std::alloc::Global;
use std::marker::Model;
use tree_spec::ClusterSpec;

/// A cluster: its users, and its configured function.
#[derive(Drop)]
pub struct ClusterNode {
    function: Option<BwFunction>,
    users: Vec<UserNode>,
    outline: Outline,
    // Worked out once, since no function changes.
    is_configured: bool,
}

impl Model for ClusterNode {
    ghost use Rattle.policy_tree.specs.States.{ClusterState, IsClusterState};

    ghost Value = { ClusterState };

    ghost view = { λ cluster.
        record { configured = cluster.function; users = cluster.users.items } };

    ghost invariant = { λ cluster.
        IsClusterState
        (record { configured = cluster.function; users = cluster.users.items }) };
}

impl ClusterNode {
    /// The configured function, if there is one.
    pub fn function(&self) -> &Option<BwFunction>
        ensures configured { result.now ≡ self.now.configured }
        ensures kept { IsKeptFunction result.now }
    {
        &self.function
    }

    /// Whether a function is configured here or below. Where none is, the value takes no search.
    pub fn is_configured(&self) -> bool {
        self.is_configured
    }

    /// The users, in the order of their numbers.
    pub fn users(&self) -> &[UserNode]
        ensures users { result.now ≡ self.now.users }
        ensures meaning { IsMeaning (users_meaning self.now.users) }
    {
        self.users.as_slice()
    }

    /// Sets the demand of a task of a user's job.
    pub(crate) fn set(
        &mut self,
        user: usize,
        job: usize,
        task: u32,
        demand: u64,
    ) -> Result<(), OutOfMemory>
        requires user { user < length self.old.users }
        requires job { job < length (user_at self.old.users user).jobs }
        requires task { task < job_tasks (job_at (user_at self.old.users user).jobs job) }
        requires demand { demand ≤ MAX_AMOUNT }
        ensures ok { OnOk result (self.new ≡ cluster_with self.old user job task demand) }
        ensures refused { OnErr result (self.new ≡ self.old) }
    {
        self.users[user].set(job, task, demand)?;
        Ok(())
    }

    /// The users as a share function.
    pub fn siblings(&self) -> Siblings<'_, UserNode>
        ensures { result.nodes.now ≡ self.now.users }
    {
        Siblings {
            nodes: self.users.as_slice(),
            outline: &self.outline,
        }
    }
}

impl LevelNode for ClusterNode {
    type Spec = ClusterSpec;

    ghost HasWeights = { HasClusterWeights };

    ghost weights = { cluster_weights };

    ghost idle = { idle_cluster };

    ghost IsState = { IsClusterState };

    fn new(
        alloc: Global,
        spec: ClusterSpec,
        _is_searched: bool,
    ) -> Result<ClusterNode, OutOfMemory> {
        let ClusterSpec { function, users } = spec;
        what_holds(&function);
        let users: Vec<UserNode> = nodes_of(alloc, users, function.is_some())?;
        let is_configured = function.is_some() || is_any_configured(users.as_slice());
        let outline = outline_of(alloc, users.as_slice(), is_configured)?;
        Ok(ClusterNode {
            function,
            users,
            outline,
            is_configured,
        })
    }

    fn rematch(&mut self, top: u64) {
        rematch_all(self.users.as_mut_slice(), top);
        if self.is_configured {
            self.outline.redraw(self.users.as_slice(), top);
        }
    }

    fn refresh(&mut self) {
        refresh_all(self.users.as_mut_slice());
    }
}

impl ShareFunction for ClusterNode {
    ghost meaning = { cluster_meaning };

    fn value(&self, share: u64) -> u64 {
        value_at(&self.function, &self.siblings(), share)
    }

    fn look(&self, share: u64) -> Look {
        look_at(&self.function, &self.siblings(), share)
    }

    fn last_share_within(&self, amount: u64, top: u64) -> Option<u64> {
        last_share_at(&self.function, &self.siblings(), amount, top)
    }

    fn near(&self, share: u64) -> u64 {
        near_at(&self.function, &self.siblings(), share)
    }

    fn add_bends(&self, outline: &mut Outline) {
        add_bends_of(&self.function, &self.siblings(), outline);
    }

    fn stretch(&self, amount: u64) -> Option<Stretch> {
        stretch_of(&self.function, &self.siblings(), amount)
    }
}
