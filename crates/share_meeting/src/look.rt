//! The sum at the inner share, by the configured function.

ghost use Rattle.std.specs.Prelude.{◌≡◌, ◌+◌, ◌≤◌};
ghost use Rattle.function_sum.specs.Meaning.{IsMeaning};
ghost use Rattle.share_meeting.specs.Inner.{inner_share_of};

use crate::ends::Ends;
use crate::meeting::ends_at;
use bw_function::BwFunction;
use function_sum::{Look, ShareFunction};
use mono_search::Steps;
use std::sync::ledger::Ledger;

/// The sum at the inner share, with guesses of the shares after: it stays until the configured
/// function gives what the sum has at the share after the inner one. Each look at the sum is a
/// tick.
///
/// The looks begin along the sum's own stretch.
pub fn look_by<P: ShareFunction, L: Ledger>(
    parent: &BwFunction,
    sum: &P,
    share: u64,
    steps: &mut Steps<L>,
) -> Look
    requires { share ≤ parent.now.top }
    ensures value { result.value ≡ P.meaning sum.now
        (inner_share_of parent.now (P.meaning sum.now) share) }
    ensures meaning { IsMeaning (P.meaning sum.now) }
    ensures ticks { steps.new ≤ steps.old + 62 }
{
    let met = ends_at(sum, parent.value(share), parent.top(), steps);
    look_from(parent, met, share)
}

// What a meeting says of the value at a share and of those after it.
fn look_from(parent: &BwFunction, met: Ends, share: u64) -> Look
    ensures { result.value ≡ met.at_low }
{
    if met.high > met.top {
        return Look {
            value: met.at_low,
            last: met.top.max(share),
            next: met.at_low,
        };
    }
    Look {
        value: met.at_low,
        last: parent
            .last_share_within(met.at_high.saturating_sub(1), met.top)
            .max(share),
        next: met.at_high,
    }
}
