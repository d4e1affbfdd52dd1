//! Amounts by group and place, kept in one list.

ghost use Rattle.std.specs.Prelude.{◌≡◌, ℕ, ◌+◌, ◌-◌, ◌<◌, ◌≤◌, length, slice_index, IfOk};
ghost use Rattle.bwe_specs.specs.Paths.{path_group_count};
ghost use Rattle.path_groups.specs.Plan.{IsPlan};
ghost use Rattle.link_sums.specs.Sums.{amount_at, AreRowsOf, RaisesAmount, total_of};
ghost use Rattle.link_sums.specs.Held.{AreFirstsOf};

use bwe_specs::{MAX_TOTAL, OutOfMemory};
use path_groups::PathPlan;
use std::alloc::Global;
use std::marker::Model;

/// Amounts by group and place, in kilobits per second. Contracts see a list for each group.
///
/// One list has the amounts of all groups, a second one where those of each group begin. So the
/// amounts of neighbouring groups, which solvers read in turn, lie side by side in memory.
#[derive(Drop)]
pub(crate) struct Amounts {
    firsts: Vec<u32>,
    amounts: Vec<u64>,
}

impl Model for Amounts {
    ghost use Rattle.std.specs.Prelude.{List, ℕ};
    ghost use Rattle.link_sums.specs.Held.{rows_held, NeverFall};

    ghost Value = { List (List ℕ) };

    ghost view = { λ held. rows_held held.firsts.items held.amounts.items };

    ghost invariant = { λ held. NeverFall held.firsts.items };
}

impl Amounts {
    /// All amounts are 0.
    pub(crate) fn open(alloc: Global, plan: &PathPlan) -> Result<Amounts, OutOfMemory>
        ensures plan { IsPlan plan.now }
        ensures rows { IfOk result (AreRowsOf plan.now) }
        ensures none { IfOk result
            (λ amounts. (group place : ℕ) → amount_at amounts group place ≡ 0) }
    {
        let firsts = firsts_of(alloc, plan)?;
        let amounts = zeros(alloc, firsts[plan.groups() as usize] as usize)?;
        Ok(Amounts { firsts, amounts })
    }

    /// The amount at one place.
    pub(crate) fn amount(&self, plan: &PathPlan, group: u32, place: u32) -> u64
        requires rows { AreRowsOf plan.now self.now }
        requires group { group < length plan.now }
        requires place { place < path_group_count plan.now group }
        ensures { result ≡ amount_at self.now group place }
    {
        self.amounts[entry_of(&self.firsts, group, place)]
    }

    /// Raises one amount.
    pub(crate) fn raise(&mut self, plan: &PathPlan, group: u32, place: u32, more: u64)
        requires rows { AreRowsOf plan.now self.old }
        requires group { group < length plan.now }
        requires place { place < path_group_count plan.now group }
        requires total { total_of plan.now self.old + more ≤ MAX_TOTAL }
        ensures rows { AreRowsOf plan.now self.new }
        ensures raised { RaisesAmount self.old self.new group place more }
    {
        let entry = entry_of(&self.firsts, group, place);
        self.amounts[entry] += more;
    }

    /// Lowers one amount.
    pub(crate) fn lower(&mut self, plan: &PathPlan, group: u32, place: u32, less: u64)
        requires rows { AreRowsOf plan.now self.old }
        requires group { group < length plan.now }
        requires place { place < path_group_count plan.now group }
        requires less { less ≤ amount_at self.old group place }
        ensures rows { AreRowsOf plan.now self.new }
        ensures lowered { RaisesAmount self.new self.old group place less }
    {
        let entry = entry_of(&self.firsts, group, place);
        self.amounts[entry] -= less;
    }
}

// So many zeros.
pub(crate) fn zeros(alloc: Global, count: usize) -> Result<Vec<u64>, OutOfMemory>
    ensures length { IfOk result (λ row. length row.items ≡ count) }
    ensures none { IfOk result (λ row. (place : ℕ) → slice_index row.items place ≡ 0) }
{
    Ok(vec![in alloc; 0; count]?)
}

// Where the amounts of each group begin, and where those of the last one end.
fn firsts_of(alloc: Global, plan: &PathPlan) -> Result<Vec<u32>, OutOfMemory>
    ensures plan { IsPlan plan.now }
    ensures firsts { IfOk result (λ firsts. AreFirstsOf plan.now firsts.items) }
{
    let mut firsts = Vec::with_capacity(alloc, plan.groups() as usize + 1)?;
    let mut first = 0;
    firsts.push(first)?;
    for group in 0..plan.groups() {
        first += plan.places(group);
        firsts.push(first)?;
    }
    Ok(firsts)
}

// Which of all amounts is that of the group at the place.
fn entry_of(firsts: &[u32], group: u32, place: u32) -> usize
    requires { group < length firsts.now }
    ensures { result ≡ slice_index firsts.now group + place }
{
    firsts[group as usize] as usize + place as usize
}
