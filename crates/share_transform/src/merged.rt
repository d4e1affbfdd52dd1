//! Lists of shares, merged.

ghost use Rattle.std.specs.Prelude.{◌≡◌, ◌==◌, IfOk, IsPermutation, IsSorted};
ghost use Rattle.std.specs.Ordering.{nat_cmp};
ghost use Rattle.itertools.specs.List.{dedup};
ghost use Rattle.share_transform.specs.Shares.{AreMerged, shares_in};

use bwe_specs::OutOfMemory;
use itertools::Itertools;
use std::alloc::Global;

/// The shares of all lists, each once and rising. The lists may be in any order.
///
/// No clause says when memory runs out.
pub fn merged_shares(alloc: Global, lists: &[Vec<u64>]) -> Result<Vec<u64>, OutOfMemory>
    ensures { IfOk result (λ merged. AreMerged (shares_in lists.now) merged.items) }
{
    let sorted = sorted_shares(alloc, lists)?;
    once_each(alloc, sorted.as_slice())
}

// The shares of all lists, never falling.
fn sorted_shares(alloc: Global, lists: &[Vec<u64>]) -> Result<Vec<u64>, OutOfMemory>
    ensures shares { IfOk result (λ sorted. IsPermutation (shares_in lists.now) sorted.items) }
    ensures order { IfOk result (λ sorted. IsSorted nat_cmp sorted.items) }
{
    let mut shares: Vec<u64> = lists.iter().flatten().copied().collect(alloc)?;
    shares.sort_unstable();
    Ok(shares)
}

// Each share once, of shares that never fall.
fn once_each(alloc: Global, sorted: &[u64]) -> Result<Vec<u64>, OutOfMemory>
    ensures { IfOk result (λ shares.
        shares.items ≡ dedup (λ share share'. share == share') sorted.now) }
{
    let shares = sorted.iter().copied().dedup().collect(alloc)?;
    Ok(shares)
}
