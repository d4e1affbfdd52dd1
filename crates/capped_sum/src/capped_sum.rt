//! The sum.

ghost use Rattle.std.specs.Prelude.{◌≡◌, ℕ, ◌+◌, ◌<◌, ◌≤◌, length, map, All, IfOk, OnOk, OnErr, vec_len};
ghost use Rattle.bw_function.specs.Rise.{RisesAtMost};
ghost use Rattle.function_sum.specs.Meaning.{IsMeaning};
ghost use Rattle.tree_spec.specs.Tasks.{tasks_value, task_at, with_demand, without_demand};

use crate::index::{
    IndexedSum, RankedTask, SumsBefore, add_sums, all_weights, indexed_sum, per_weight_within,
    plain_sum, rebuild,
};
use bw_function::{BwFunction, Look};
use bwe_specs::{MAX_AMOUNT, MAX_TASKS, MAX_WEIGHT, OutOfMemory};
use function_sum::{Outline, ShareFunction, Stretch};
use std::alloc::{AllocError, Global};
use std::marker::Model;
use tree_spec::Task;

// At how many full tasks an outline has a point.
const MAX_FULL_TASKS: usize = 8;

/// Tasks of one function, and the sum of their values.
#[derive(Drop)]
pub struct CappedSum {
    function: BwFunction,
    tasks: Vec<Task>,
    ranked: Vec<RankedTask>,
    before: Vec<SumsBefore>,
    when_full: Vec<u64>,
    is_fresh: bool,
}

impl Model for CappedSum {
    ghost use Rattle.tree_spec.specs.Tasks.{Tasks};
    ghost use Rattle.capped_sum.specs.CappedSum.{IsCappedSum};

    ghost Value = { Tasks };

    ghost view = { λ sum. record { function = sum.function; tasks = sum.tasks.items } };

    ghost invariant = { λ sum.
        IsCappedSum sum.tasks.items sum.ranked.items sum.before.items sum.when_full.items
        sum.is_fresh };
}

impl CappedSum {
    /// One task for each weight, in order, with demand 0. No clause says when memory runs out.
    pub fn new(
        alloc: Global,
        function: BwFunction,
        weights: &[u64],
    ) -> Result<CappedSum, OutOfMemory>
        requires few { length weights.now ≤ MAX_TASKS }
        requires weights { All (λ weight. (1 ≤ weight) × (weight ≤ MAX_WEIGHT)) weights.now }
        ensures { IfOk result (λ sum.
            sum ≡ record { function = function; tasks = map without_demand weights.now }) }
    {
        let tasks = idle_tasks(alloc, weights)?;
        let ranked = vec![in alloc; RankedTask::NONE; weights.len()]?;
        let before = vec![in alloc; SumsBefore::NONE; weights.len() + 1]?;
        let when_full = vec![in alloc; 0; weights.len()]?;
        Ok(CappedSum {
            function,
            tasks,
            ranked,
            before,
            when_full,
            is_fresh: false,
        })
    }

    /// Sets a task's demand, and answers the one before. It takes a constant time.
    ///
    /// This body takes no memory, so it never answers `OutOfMemory`. One that mends an index may.
    pub fn set(&mut self, task: u32, demand: u64) -> Result<u64, OutOfMemory>
        requires task { task < length self.old.tasks }
        requires demand { demand ≤ MAX_AMOUNT }
        ensures before { IfOk result (λ before. before ≡ (task_at self.old.tasks task).demand) }
        ensures ok { OnOk result (self.new ≡ with_demand self.old task demand) }
        ensures refused { OnErr result (self.new ≡ self.old) }
    {
        let held = self.tasks[task as usize];
        self.tasks[task as usize] = Task {
            weight: held.weight,
            demand,
        };
        self.is_fresh = false;
        Ok(held.demand)
    }

    /// Makes `value` cheap again after a `set`: it sorts the tasks once. It takes no memory.
    ///
    /// Contracts see no change, as a body that does nothing is right too, and slow.
    pub fn refresh(&mut self)
        ensures { self.new ≡ self.old }
    {
        if self.is_fresh {
            return;
        }
        rebuild(self.tasks.as_slice(), &mut self.ranked, &mut self.before);
        add_sums(
            self.tasks.as_slice(),
            self.ranked.as_slice(),
            self.before.as_slice(),
            self.when_full.as_mut_slice(),
        );
        self.is_fresh = true;
    }

    /// A task's demand, in kilobits per second.
    pub fn demand(&self, task: u32) -> u64
        requires { task < length self.now.tasks }
        ensures { result ≡ (task_at self.now.tasks task).demand }
    {
        self.tasks.as_slice()[task as usize].demand
    }

    /// A task's weight.
    pub fn weight(&self, task: u32) -> u64
        requires { task < length self.now.tasks }
        ensures { result ≡ (task_at self.now.tasks task).weight }
    {
        self.tasks.as_slice()[task as usize].weight
    }

    /// The number of tasks.
    pub fn tasks(&self) -> u32
        ensures count { result ≡ length self.now.tasks }
        ensures few { result ≤ MAX_TASKS }
    {
        self.tasks.as_slice().len() as u32
    }

    /// By how much the sum rises at most from one share to the next, in kilobits per second: told
    /// where the index is fresh, else a number above every sum. It takes a constant time.
    pub fn steepest(&self) -> u64
        ensures { RisesAtMost (tasks_value self.now) result }
    {
        if !self.is_fresh {
            return u64::MAX;
        }
        let weights = all_weights(
            self.tasks.as_slice(),
            self.ranked.as_slice(),
            self.before.as_slice(),
        );
        weights.saturating_mul(self.function.steepest())
    }

    /// The tasks' function.
    pub fn function(&self) -> &BwFunction
        ensures { result.now ≡ self.now.function }
    {
        &self.function
    }
}

impl ShareFunction for CappedSum {
    ghost meaning = { tasks_value };

    fn value(&self, share: u64) -> u64 {
        let per_weight = self.function.value(share);
        if self.is_fresh {
            indexed_sum(
                self.tasks.as_slice(),
                self.ranked.as_slice(),
                self.before.as_slice(),
                per_weight,
            )
            .sum
        } else {
            plain_sum(self.tasks.as_slice(), per_weight)
        }
    }

    fn look(&self, share: u64) -> Look {
        let per_weight = self.function.look(share);
        if !self.is_fresh {
            let value = plain_sum(self.tasks.as_slice(), per_weight.value);
            return Look {
                value,
                last: per_weight.last,
                next: value,
            };
        }
        let found = indexed_sum(
            self.tasks.as_slice(),
            self.ranked.as_slice(),
            self.before.as_slice(),
            per_weight.value,
        );
        look_by_index(found, per_weight, self.function.top())
    }

    fn last_share_within(&self, amount: u64, top: u64) -> Option<u64> {
        self.function.what_holds();
        if !self.is_fresh {
            return None;
        }
        let most = per_weight_within(
            self.tasks.as_slice(),
            self.ranked.as_slice(),
            self.before.as_slice(),
            self.when_full.as_slice(),
            amount,
        );
        match most {
            None => Some(top),
            Some(per_weight) => Some(self.function.last_share_within(per_weight, top)),
        }
    }

    fn near(&self, share: u64) -> u64 {
        self.value(share)
    }

    // The sum bends where the function does, and where a task is full.
    fn add_bends(&self, outline: &mut Outline) {
        outline.add_points(&self.function);
        let step = self.ranked.len() / MAX_FULL_TASKS + 1;
        for task in self.ranked.iter().step_by(step) {
            let top = self.function.top();
            outline.add(self.function.last_share_within(task.full_at, top));
        }
    }

    fn stretch(&self, _amount: u64) -> Option<Stretch> {
        None
    }
}

// What an indexed sum says of the shares after it. Where all tasks are full it stays for good.
fn look_by_index(found: IndexedSum, per_weight: Look, top: u64) -> Look
    ensures { result.value ≡ found.sum }
{
    if found.open_weights == 0 {
        return Look {
            value: found.sum,
            last: per_weight.last.max(top),
            next: found.sum,
        };
    }
    let rise = per_weight.next.saturating_sub(per_weight.value);
    let more = rise.saturating_mul(found.open_weights);
    Look {
        value: found.sum,
        last: per_weight.last,
        next: found.sum.saturating_add(more),
    }
}

// A task for each weight, with demand 0.
fn idle_tasks(alloc: Global, weights: &[u64]) -> Result<Vec<Task>, AllocError>
    ensures { IfOk result (λ tasks. tasks.items ≡ map without_demand weights.now) }
{
    weights
        .iter()
        .map(|weight| Task {
            weight: *weight,
            demand: 0,
        })
        .collect(alloc)
}
