//! Slices of all reporters, and the rows of a table.

ghost use Rattle.std.specs.Prelude.{◌≡◌, IfOk, None, option_map, replicate};
ghost use Rattle.bwe_specs.specs.Lists.{lists_of};
ghost use Rattle.control_core.specs.World.{is_table as are_table, over, row_at as row_of, slice_at as slice_of, write_at, writes_of, written_over as over_all};

use crate::slice::{Slice, differs};
use bwe_specs::OutOfMemory;
use std::alloc::Global;

/// The slice of a reporter, `None` where nothing is written or there is no such reporter.
pub(crate) fn slice_at(slices: &[Option<Slice>], reporter: usize) -> Option<&Slice>
    ensures { option_map (λ slice. slice.now) result ≡ slice_of slices.now reporter }
{
    match slices.get(reporter) {
        Some(slice) => slice.as_ref(),
        None => None,
    }
}

/// The row of a reporter, empty where there is no such reporter.
pub(crate) fn row_at(rows: &[Vec<u64>], reporter: usize) -> &[u64]
    ensures { result.now ≡ row_of (lists_of rows.now) reporter }
{
    match rows.get(reporter) {
        Some(row) => row.as_slice(),
        None => &[],
    }
}

/// So many reporters of whom nothing is written.
#[tactic(auto, using(crate::proofs::Loops::one_same))]
pub(crate) fn no_slices(alloc: Global, count: usize) -> Result<Vec<Option<Slice>>, OutOfMemory>
    ensures { IfOk result (λ slices. slices.items ≡ replicate count None) }
{
    let mut slices = Vec::with_capacity(alloc, count)?;
    for _ in 0..count {
        slices.push(None)?;
    }
    Ok(slices)
}

/// Equal slices.
pub(crate) fn copies(
    alloc: Global,
    slices: &[Option<Slice>],
) -> Result<Vec<Option<Slice>>, OutOfMemory>
    ensures { IfOk result (λ copies. copies.items ≡ slices.now) }
{
    let mut copies = Vec::with_capacity(alloc, slices.len())?;
    for slice in slices {
        copies.push(copy(alloc, slice.as_ref())?)?;
    }
    Ok(copies)
}

// An equal slice, where there is one.
fn copy(alloc: Global, slice: Option<&Slice>) -> Result<Option<Slice>, OutOfMemory>
    ensures { IfOk result (λ copy. copy ≡ option_map (λ slice. slice.now) slice.entry) }
{
    match slice {
        None => Ok(None),
        Some(slice) => Ok(Some(slice.copy(alloc)?)),
    }
}

/// What is written for a table of this prefix: the slices that differ of the reporters below a
/// number.
#[tactic(auto, unfolding(crate::specs::World::writes_of), using(crate::proofs::Loops::one_more))]
pub(crate) fn writes(
    alloc: Global,
    prefix: u64,
    upto: u32,
    slices: &[Option<Slice>],
    rows: &[Vec<u64>],
) -> Result<Vec<Option<Slice>>, OutOfMemory>
    ensures { IfOk result (λ writes. writes.items
        ≡ writes_of prefix upto slices.now (lists_of rows.now)) }
{
    let mut writes = Vec::with_capacity(alloc, rows.len())?;
    for reporter in 0..rows.len() {
        writes.push(write(alloc, prefix, upto, slices, rows, reporter)?)?;
    }
    Ok(writes)
}

// What is written of a reporter.
fn write(
    alloc: Global,
    prefix: u64,
    upto: u32,
    slices: &[Option<Slice>],
    rows: &[Vec<u64>],
    reporter: usize,
) -> Result<Option<Slice>, OutOfMemory>
    ensures { IfOk result (λ write. write
        ≡ write_at prefix upto slices.now (lists_of rows.now) reporter) }
{
    let row = row_at(rows, reporter);
    if reporter < upto as usize && differs(slice_at(slices, reporter), row) {
        Ok(Some(Slice::of_row(alloc, prefix, row)?))
    } else {
        Ok(None)
    }
}

/// Slices with others written over them.
#[tactic(auto, unfolding(crate::specs::World::written_over), using(crate::proofs::Loops::one_more))]
pub(crate) fn written_over(
    alloc: Global,
    writes: &[Option<Slice>],
    slices: &[Option<Slice>],
) -> Result<Vec<Option<Slice>>, OutOfMemory>
    ensures { IfOk result (λ after. after.items ≡ over_all writes.now slices.now) }
{
    let mut after = Vec::with_capacity(alloc, slices.len())?;
    for reporter in 0..slices.len() {
        after.push(written(alloc, writes, slices, reporter)?)?;
    }
    Ok(after)
}

// The slice of a reporter, once others are written.
fn written(
    alloc: Global,
    writes: &[Option<Slice>],
    slices: &[Option<Slice>],
    reporter: usize,
) -> Result<Option<Slice>, OutOfMemory>
    ensures { IfOk result (λ slice. slice
        ≡ over (slice_of writes.now reporter) (slice_of slices.now reporter)) }
{
    match slice_at(writes, reporter) {
        None => copy(alloc, slice_at(slices, reporter)),
        Some(slice) => Ok(Some(slice.copy(alloc)?)),
    }
}

/// Whether all slices together are the table.
#[tactic(auto, using(crate::proofs::Loops::agree_more))]
pub(crate) fn is_table(slices: &[Option<Slice>], rows: &[Vec<u64>]) -> bool
    ensures { result ≡ are_table slices.now (lists_of rows.now) }
{
    let mut agree = true;
    for reporter in 0..rows.len() {
        if differs(slice_at(slices, reporter), row_at(rows, reporter)) {
            agree = false;
        }
    }
    agree
}
