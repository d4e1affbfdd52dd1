//! The rows of groups in a table.

ghost use Rattle.std.specs.Prelude.{◌≡◌, ◌<◌, ◌^◌, length, map, sum, IfOk};
ghost use Rattle.bwe_specs.specs.Paths.{path_group_count};
ghost use Rattle.bwe_specs.specs.Reports.{numbers};
ghost use Rattle.plain_table.specs.Lines.{HasRows, line_in, line_of_group};

use crate::firsts::FirstClosings;
use bwe_specs::OutOfMemory;
use limit_table::{GroupLine, PlaceLine};
use mpfa_fill::Filling;
use path_groups::PathPlan;
use std::alloc::Global;

/// The rows of all groups of a filling.
pub fn group_lines(
    alloc: Global,
    plan: &PathPlan,
    filling: &Filling,
) -> Result<Vec<GroupLine>, OutOfMemory>
    requires { HasRows plan.now filling.now }
    ensures { IfOk result (λ lines.
        lines.items ≡ map (line_in plan.now filling.now) (numbers (length plan.now))) }
{
    let firsts = FirstClosings::of(alloc, &filling.closings)?;
    let mut lines = Vec::with_capacity(alloc, plan.groups() as usize)?;
    for group in 0..plan.groups() {
        let at = group as usize;
        let amounts = &filling.amounts[at];
        let share = filling.shares[at];
        lines.push(group_line(alloc, plan, &firsts, group, amounts, share)?)?;
    }
    Ok(lines)
}

/// The row of a group that has so much on each of its path groups, in kilobits per second, and
/// stopped at the share.
///
/// `closings` are those of the whole filling, in their order.
pub fn group_line(
    alloc: Global,
    plan: &PathPlan,
    closings: &FirstClosings,
    group: u32,
    amounts: &[u64],
    share: u64,
) -> Result<GroupLine, OutOfMemory>
    requires group { group < length plan.now }
    requires places { length amounts.now ≡ path_group_count plan.now group }
    requires total { sum amounts.now < 2 ^ 64 }
    ensures { IfOk result
        (λ line. line ≡ line_of_group plan.now closings.now group amounts.now share) }
{
    let mut places = Vec::with_capacity(alloc, plan.places(group) as usize)?;
    for place in 0..plan.places(group) {
        places.push(PlaceLine {
            amount: amounts[place as usize],
            closed: closings.closed_link(plan, group, place),
        })?;
    }
    Ok(GroupLine {
        share,
        amount: amounts.iter().sum(),
        places,
    })
}
