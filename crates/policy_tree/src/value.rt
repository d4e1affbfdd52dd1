//! The value of a node, by its configured function and its children's sum.

ghost use Rattle.std.specs.Prelude.{◌≡◌, ℕ, ◌<◌, ◌≤◌, Some, IfSome, nat_le};
ghost use Rattle.bwe_specs.specs.Bounded.{greatest_upto};
ghost use Rattle.bwe_specs.specs.Tree.{inner_share};
ghost use Rattle.function_sum.specs.Meaning.{IsMeaning};
ghost use Rattle.policy_tree.specs.States.{transformed, IsKeptFunction};

use bw_function::BwFunction;
use bwe_specs::MAX_SHARE;
use function_sum::{Look, Outline, ShareFunction, Stretch};
use mono_search::Steps;
use share_meeting::{look_by, meeting_of};
use std::marker::Brand;
use std::sync::ledger::{Blank, Ledger};

/// Proof only: states that a configured function is in its ranges.
pub(crate) fn what_holds(function: &Option<BwFunction>)
    ensures { IsKeptFunction function.now }
{
    if let Some(function) = function {
        let _top = function.top();
    }
}

/// The value at a share: the children's sum there, or with a configured function at the inner
/// share.
pub(crate) fn value_at<P: ShareFunction>(function: &Option<BwFunction>, sum: &P, share: u64) -> u64
    requires { IsKeptFunction function.now }
    ensures value { result ≡ transformed function.now (P.meaning sum.now) share }
    ensures meaning { IsMeaning (transformed function.now (P.meaning sum.now)) }
{
    match function {
        None => sum.value(share),
        Some(parent) => value_by_parent(parent, sum, share),
    }
}

// The sum at the inner share.
fn value_by_parent<P: ShareFunction>(parent: &BwFunction, sum: &P, share: u64) -> u64
    ensures value { result ≡ P.meaning sum.now
        (inner_share parent.now.top parent.now.points (P.meaning sum.now) share) }
    ensures meaning { IsMeaning (P.meaning sum.now) }
{
    let top = parent.top();
    let met = meeting_of(sum, parent.value(share), top);
    met.value
}

/// The same with guesses of what comes after.
pub(crate) fn look_at<P: ShareFunction>(function: &Option<BwFunction>, sum: &P, share: u64) -> Look
    requires { IsKeptFunction function.now }
    ensures value { result.value
        ≡ transformed function.now (P.meaning sum.now) share }
    ensures meaning { IsMeaning (transformed function.now (P.meaning sum.now)) }
{
    match function {
        None => sum.look(share),
        Some(parent) => look_by_parent::<P, Brand>(parent, sum, share, Blank::new(1)),
    }
}

/// About the value at a share: what the configured function gives, and at most about the
/// children's sum at the top.
pub(crate) fn near_at<P: ShareFunction>(function: &Option<BwFunction>, sum: &P, share: u64) -> u64 {
    match function {
        None => sum.near(share),
        Some(parent) => parent.value(share).min(sum.near(parent.top())),
    }
}

/// Adds the shares at which the value bends: where the configured function does, and where it gets
/// past about the children's sum at the top.
pub(crate) fn add_bends_of<P: ShareFunction>(
    function: &Option<BwFunction>,
    sum: &P,
    outline: &mut Outline,
) {
    match function {
        None => sum.add_bends(outline),
        Some(parent) => {
            outline.add_points(parent);
            let most = sum.near(parent.top());
            outline.add(parent.last_share_within(most, parent.top()));
        }
    }
}

/// Where the value is about to be above an amount: where the configured function is, or without one
/// the children's sum.
pub(crate) fn stretch_of<P: ShareFunction>(
    function: &Option<BwFunction>,
    sum: &P,
    amount: u64,
) -> Option<Stretch> {
    match function {
        None => sum.stretch(amount),
        Some(parent) => {
            let share = parent.last_share_within(amount, parent.top());
            Some(Stretch {
                before: (share, amount),
                after: (share.saturating_add(1), amount.saturating_add(1)),
            })
        }
    }
}

/// The greatest share up to `top` at which the value is at most so much.
///
/// Under a configured function it is always told, by at most one search among the children. Without
/// one it is told where the children's sum tells its own.
pub(crate) fn last_share_at<P: ShareFunction>(
    function: &Option<BwFunction>,
    sum: &P,
    amount: u64,
    top: u64,
) -> Option<u64>
    requires { IsKeptFunction function.now }
    ensures last { IfSome result (λ last. last ≡ greatest_upto top (λ share.
        nat_le (transformed function.now (P.meaning sum.now) share) amount)) }
    ensures meaning { IsMeaning (transformed function.now (P.meaning sum.now)) }
{
    match function {
        None => sum.last_share_within(amount, top),
        Some(parent) => Some(last_by_parent(parent, sum, amount, top)),
    }
}

// The same under a configured function: the sum gets past the amount at one inner share, and the
// function gives the sum there from one share on.
fn last_by_parent<P: ShareFunction>(parent: &BwFunction, sum: &P, amount: u64, top: u64) -> u64
    ensures last { result ≡ greatest_upto top (λ share. nat_le
        (P.meaning sum.now (inner_share parent.now.top parent.now.points (P.meaning sum.now) share))
        amount) }
    ensures meaning { IsMeaning (P.meaning sum.now) }
{
    let end = parent.top();
    let inner = last_inner(sum, amount, end);
    if inner == end {
        return top;
    }
    let next = sum.value(inner + 1);
    parent.last_share_within(next - 1, top)
}

// The greatest share up to `end` at which the sum is at most the amount: a search finds it where
// the sum does not tell it.
fn last_inner<P: ShareFunction>(sum: &P, amount: u64, end: u64) -> u64
    requires { end ≤ MAX_SHARE }
    ensures last { result ≡ greatest_upto end (λ share. nat_le (P.meaning sum.now share) amount) }
    ensures meaning { IsMeaning (P.meaning sum.now) }
{
    match sum.last_share_within(amount, end) {
        Some(inner) => inner,
        None => meeting_of(sum, amount, end).share,
    }
}

// The sum at the inner share, on a counter of its own. Past the top it is that at the top.
fn look_by_parent<P: ShareFunction, L: Ledger>(
    parent: &BwFunction,
    sum: &P,
    share: u64,
    blank: Blank,
) -> Look
    requires name { blank.name ≡ L.name }
    requires parts { blank.parts ≡ L.parts }
    requires some { 0 < L.parts }
    ensures value { result.value
        ≡ transformed (Some parent.now) (P.meaning sum.now) share }
    ensures meaning { IsMeaning (P.meaning sum.now) }
{
    let mut steps: Steps<L> = Steps::new(blank);
    let within = share.min(parent.top());
    look_by(parent, sum, within, &mut steps)
}
