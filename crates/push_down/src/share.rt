//! An amount, shared out to the children of a node.

ghost use Rattle.std.specs.Prelude.{◌≡◌, ℕ, ◌+◌, ◌-◌, ◌*◌, ◌<◌, ◌≤◌, length, min, All, IfOk, slice_index_or};
ghost use Rattle.bwe_specs.specs.Distribution.{children_sum, common_share, distribution};

use crate::children::Children;
use bwe_specs::{MAX_SHARE, MAX_TOTAL, OutOfMemory};
use std::alloc::Global;

/// What each child gets of an amount: its value at the common share, and of the rest at most its
/// growth to the next share.
pub(crate) fn shared_out<F: Children>(
    alloc: Global,
    children: &F,
    top: u64,
    amount: u64,
) -> Result<Vec<u64>, OutOfMemory>
    requires top { top ≤ MAX_SHARE }
    requires amount { amount ≤ 3 * MAX_TOTAL }
    ensures amounts { IfOk result (λ amounts.
        amounts.items ≡ distribution top (F.values children.now) amount) }
    ensures bound { IfOk result
        (λ amounts. All (λ given. given ≤ amount + MAX_TOTAL) amounts.items) }
{
    let share = share_for(children, top, amount);
    let mut rest = amount - children.sum(share);
    let mut amounts = Vec::new(alloc);
    for place in 0..children.count() {
        let value = children.value(place, share);
        let more = more_for(children, place, share, value, rest);
        amounts.push(value + more)?;
        rest -= more;
    }
    Ok(amounts)
}

// The greatest share at which the children have together at most the amount.
fn share_for<F: Children>(children: &F, top: u64, amount: u64) -> u64
    requires top { top ≤ MAX_SHARE }
    ensures share { result ≡ common_share top (F.values children.now) amount }
    ensures upto { result ≤ top }
    ensures fits { children_sum (F.values children.now) result ≤ amount }
{
    let share = children.last_share_within(amount, top);
    share
}

// What a child gets of the rest: at most its growth to the next share, which is asked for only
// where something is left.
fn more_for<F: Children>(children: &F, place: usize, share: u64, value: u64, rest: u64) -> u64
    requires place { place < length (F.values children.now) }
    requires share { share ≤ MAX_SHARE }
    ensures { result
        ≡ min rest (slice_index_or (F.values children.now) place (λ share. 0) (share + 1) - value) }
{
    if rest == 0 {
        return 0;
    }
    let growth = children.value(place, share + 1).saturating_sub(value);
    rest.min(growth)
}
