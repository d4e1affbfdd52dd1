//! The regions of reporters.

ghost use Rattle.std.specs.Prelude.{◌≡◌, ◌<◌, ◌^◌, IfOk, length};
ghost use Rattle.bwe_specs.specs.Lists.{lists_of};
ghost use Rattle.enforce_run.specs.Playing.{owned_by, regions_of as regions_of_owners};

use bwe_specs::OutOfMemory;
use std::alloc::Global;

/// A region for each reporter, with the tasks that the reporter owns; `owners` has the owner of
/// each task.
#[tactic(auto, using(crate::proofs::Owners::one_region_more))]
pub(crate) fn regions_of(
    alloc: Global,
    reporters: u32,
    owners: &[u32],
) -> Result<Vec<Vec<u32>>, OutOfMemory>
    requires few { length owners.now < 2 ^ 32 }
    ensures { IfOk result
        (λ regions. lists_of regions.items ≡ regions_of_owners reporters owners.now) }
{
    let mut regions = Vec::with_capacity(alloc, reporters as usize)?;
    for reporter in 0..reporters {
        regions.push(owned(alloc, reporter, owners)?)?;
    }
    Ok(regions)
}

// The tasks that a reporter owns.
#[tactic(auto, using(crate::proofs::Owners::one_task_more, crate::proofs::Owners::no_task_more, crate::proofs::Owners::no_task))]
fn owned(alloc: Global, reporter: u32, owners: &[u32]) -> Result<Vec<u32>, OutOfMemory>
    requires few { length owners.now < 2 ^ 32 }
    ensures { IfOk result (λ tasks. tasks.items ≡ owned_by owners.now reporter) }
{
    let mut tasks = Vec::new(alloc);
    for task in 0..owners.len() {
        if owners[task] == reporter {
            tasks.push(task as u32)?;
        }
    }
    Ok(tasks)
}
