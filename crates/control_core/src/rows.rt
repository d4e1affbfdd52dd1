//! The rows of a table.

ghost use Rattle.std.specs.Prelude.{◌≡◌, ◌<◌, IfOk, map};
ghost use Rattle.std.specs.List.{All};
ghost use Rattle.bwe_specs.specs.Lists.{lists_of};

use bwe_specs::OutOfMemory;
use demand_book::Posted;
use std::alloc::Global;

/// A row of limits for each list of tasks.
pub(crate) fn rows_in<T: Posted>(
    alloc: Global,
    table: &T,
    tasks: &[Vec<u32>],
) -> Result<Vec<Vec<u64>>, OutOfMemory>
    requires tasks { All (λ tasks. All (λ task. task < T.tasks_of (T.frame table.now)) tasks)
        (lists_of tasks.now) }
    ensures { IfOk result (λ rows. lists_of rows.items
        ≡ map (λ row. map (λ task. T.limit_at table.now task) row) (lists_of tasks.now)) }
{
    let mut rows = Vec::with_capacity(alloc, tasks.len())?;
    for row in tasks {
        rows.push(row_in(alloc, table, row)?)?;
    }
    Ok(rows)
}

// The limits of some tasks.
fn row_in<T: Posted>(alloc: Global, table: &T, tasks: &[u32]) -> Result<Vec<u64>, OutOfMemory>
    requires tasks { All (λ task. task < T.tasks_of (T.frame table.now)) tasks.now }
    ensures { IfOk result (λ row. row.items
        ≡ map (λ task. T.limit_at table.now task) tasks.now) }
{
    let mut row = Vec::with_capacity(alloc, tasks.len())?;
    for task in tasks {
        row.push(table.limit(*task))?;
    }
    Ok(row)
}
