//! The centre: it sees the tables that are posted and the messages of the regions, and nothing
//! else.

ghost use Rattle.std.specs.Prelude.{◌≡◌, ◌<◌, ◌≤◌, ℕ, All, IfOk, length, max, min, replicate, slice_index, slice_set};
ghost use Rattle.std.specs.List.{fold};
ghost use Rattle.enforcer_core.specs.World.{least_acked, limits_in};

use crate::region::RegionLimits;
use bwe_specs::OutOfMemory;
use demand_book::Posted;
use std::alloc::Global;
use std::marker::Model;

/// The posted table, and what each region acknowledged.
#[derive(Drop)]
pub(crate) struct Centre<T: Posted> {
    table: T,
    acked: Vec<u64>,
}

impl<T: Posted> Model for Centre<T> {
    ghost use Rattle.enforcer_core.specs.World.{Centre as CentreView};

    ghost Value = { CentreView T };

    ghost view = { λ centre. record { posted = centre.table; acked = centre.acked.items } };
}

impl<T: Posted> Centre<T> {
    /// No region has acknowledged more than 0.
    pub(crate) fn new(alloc: Global, regions: usize, first: T) -> Result<Centre<T>, OutOfMemory>
        ensures posted { IfOk result (λ centre. centre.posted ≡ first) }
        ensures acked { IfOk result (λ centre. centre.acked ≡ replicate regions 0) }
    {
        Ok(Centre {
            table: first,
            acked: vec![in alloc; 0; regions]?,
        })
    }

    /// Posts a table in place of the one before.
    pub(crate) fn post(&mut self, table: T)
        ensures { self.new ≡ record self.old { posted = table } }
    {
        self.table = table;
    }

    /// The posted table.
    pub(crate) fn table(&self) -> &T
        ensures { result.now ≡ self.now.posted }
    {
        &self.table
    }

    /// How many reports the posted table covers.
    pub(crate) fn posted(&self) -> u64
        ensures { result ≡ T.covers self.now.posted }
    {
        self.table.prefix()
    }

    /// The limits that the posted table has for these tasks.
    pub(crate) fn limits(&self, alloc: Global, tasks: &[u32]) -> Result<RegionLimits, OutOfMemory>
        requires tasks { All (λ task. task < T.tasks_of (T.frame self.now.posted)) tasks.now }
        ensures { IfOk result
            (λ limits. limits ≡ limits_in T.covers T.limit_at self.now.posted tasks.now) }
    {
        let mut limits = Vec::with_capacity(alloc, tasks.len())?;
        for task in tasks {
            limits.push(self.table.limit(*task))?;
        }
        Ok(RegionLimits::new(self.table.prefix(), limits))
    }

    /// A region tells its floor. What it acknowledged never falls, in whatever order its messages
    /// come.
    pub(crate) fn acknowledge(&mut self, region: u32, floor: u64) -> u64
        requires region { region < length self.old.acked }
        ensures acked { result ≡ max (slice_index self.old.acked region) floor }
        ensures centre { self.new
            ≡ record self.old { acked = slice_set self.old.acked region result } }
    {
        let acked = self.acked[region as usize].max(floor);
        self.acked[region as usize] = acked;
        acked
    }

    /// What a region acknowledged.
    pub(crate) fn acked(&self, region: u32) -> u64
        requires region { region < length self.now.acked }
        ensures { result ≡ slice_index self.now.acked region }
    {
        self.acked[region as usize]
    }

    /// The least that a region acknowledged, or how many reports the posted table covers where
    /// there is no region.
    pub(crate) fn settled(&self) -> u64
        ensures { result ≡ least_acked (T.covers self.now.posted) self.now.acked }
    {
        match self.acked.split_first() {
            None => self.table.prefix(),
            Some((first, others)) => least(*first, others),
        }
    }
}

// The least of a number and others.
fn least(first: u64, others: &[u64]) -> u64
    ensures { result ≡ fold (λ least number. min least number) first others.now }
{
    let mut least = first;
    for number in others {
        least = least.min(*number);
    }
    least
}
