//! The greatest share at which a sum is at most an amount.

ghost use Rattle.std.specs.Prelude.{◌≡◌, ℕ, ◌+◌, ◌-◌, ◌*◌, ◌/◌, ◌<◌, ◌≤◌, ◌⊎◌, nat_le, Some, IfSome};
ghost use Rattle.bwe_specs.specs.Bounded.{greatest_upto};
ghost use Rattle.function_sum.specs.Meaning.{IsMeaning};
ghost use Rattle.share_meeting.specs.Ends.{AreEnds, HasMoved};

use crate::ends::Ends;
use crate::line::Line;
use bwe_specs::MAX_SHARE;
use function_sum::{ShareFunction, Stretch};
use mono_search::Steps;
use std::marker::Brand;
use std::sync::ledger::{Blank, Ledger};

// How many looks go where the line says, and how many halvings take any two shares to neighbours.
const LOOKS_BY_LINE: u64 = 28;

const LOOKS_BY_HALVES: u64 = 30;

/// The greatest share up to a top at which a sum is at most an amount, and the sum there.
#[derive(Clone, Copy, Debug, PartialEq, Eq, Drop)]
pub struct Meeting {
    pub share: u64,
    pub value: u64,
}

/// Where a sum meets an amount: by the sum itself if it tells it, else by at most 62 looks, which
/// begin along the sum's own stretch.
pub fn meeting_of<P: ShareFunction>(sum: &P, amount: u64, top: u64) -> Meeting
    requires { top ≤ MAX_SHARE }
    ensures share { result.share
        ≡ greatest_upto top (λ share. nat_le (P.meaning sum.now share) amount) }
    ensures inside { result.share ≤ top }
    ensures value { result.value ≡ P.meaning sum.now result.share }
    ensures meaning { IsMeaning (P.meaning sum.now) }
{
    if let Some(share) = sum.last_share_within(amount, top) {
        let value = sum.value(share);
        return Meeting { share, value };
    }
    let met = counted_meeting::<P, Brand>(sum, amount, top, Blank::new(1));
    Meeting {
        share: met.low,
        value: met.at_low,
    }
}

// The same by looks, on a counter of its own.
fn counted_meeting<P: ShareFunction, L: Ledger>(
    sum: &P,
    amount: u64,
    top: u64,
    blank: Blank,
) -> Ends
    requires meaning { IsMeaning (P.meaning sum.now) }
    requires top { top ≤ MAX_SHARE }
    requires name { blank.name ≡ L.name }
    requires parts { blank.parts ≡ L.parts }
    requires some { 0 < L.parts }
    ensures meets { result.low
        ≡ greatest_upto top (λ share. nat_le (P.meaning sum.now share) amount) }
    ensures inside { result.low ≤ top }
    ensures value { result.at_low ≡ P.meaning sum.now result.low }
{
    let mut steps: Steps<L> = Steps::new(blank);
    let line = Line::along(stretch_of(sum, amount, top), amount);
    meet(sum, amount, top, None, line, &mut steps)
}

/// The ends at the share where a sum meets an amount, found in the same way. Each look is a tick.
pub(crate) fn ends_at<P: ShareFunction, L: Ledger>(
    sum: &P,
    amount: u64,
    top: u64,
    steps: &mut Steps<L>,
) -> Ends
    requires top { top ≤ MAX_SHARE }
    ensures meets { result.low
        ≡ greatest_upto top (λ share. nat_le (P.meaning sum.now share) amount) }
    ensures inside { result.low ≤ top }
    ensures value { result.at_low ≡ P.meaning sum.now result.low }
    ensures meaning { IsMeaning (P.meaning sum.now) }
    ensures ticks { steps.new ≤ steps.old + 62 }
{
    if let Some(share) = sum.last_share_within(amount, top) {
        return met_at(sum, top, share, steps);
    }
    let line = Line::along(stretch_of(sum, amount, top), amount);
    meet(sum, amount, top, None, line, steps)
}

/// The ends where the sum tells the share: one look, for the sum there.
pub fn met_at<P: ShareFunction, L: Ledger>(
    sum: &P,
    top: u64,
    share: u64,
    steps: &mut Steps<L>,
) -> Ends
    requires high { top ≤ MAX_SHARE }
    requires inside { share ≤ top }
    ensures low { result.low ≡ share }
    ensures value { result.at_low ≡ P.meaning sum.now share }
    ensures ticks { steps.new ≡ steps.old + 1 }
{
    steps.tick();
    let look = sum.look(share);
    let stretch = Stretch {
        before: (share, look.value),
        after: (share + 1, look.next),
    };
    Ends {
        top,
        low: share,
        at_low: look.value,
        high: share + 1,
        at_high: look.next,
        line: Line::along(stretch, look.value),
    }
}

// The stretch that the sum knows, or the whole way to the top.
fn stretch_of<P: ShareFunction>(sum: &P, amount: u64, top: u64) -> Stretch {
    match sum.stretch(amount) {
        Some(stretch) => stretch,
        None => Stretch {
            before: (0, 0),
            after: (top, amount.saturating_mul(2)),
        },
    }
}

/// The neighbours between which a sum comes to be above an amount: the low end is the greatest
/// share up to the top at which it is not. Each look at the sum is a tick.
///
/// `pair` is looked at first, and then the share after it. The other looks begin with the line's
/// next share.
pub fn meet<P: ShareFunction, L: Ledger>(
    sum: &P,
    amount: u64,
    top: u64,
    pair: Option<u64>,
    line: Line,
    steps: &mut Steps<L>,
) -> Ends
    requires meaning { IsMeaning (P.meaning sum.now) }
    requires top { top ≤ MAX_SHARE }
    requires pair { IfSome pair (λ inner. inner ≤ top) }
    ensures meets { result.low
        ≡ greatest_upto top (λ share. nat_le (P.meaning sum.now share) amount) }
    ensures inside { result.low ≤ top }
    ensures value { result.at_low ≡ P.meaning sum.now result.low }
    ensures ticks { steps.new ≤ steps.old + 62 }
    ensures right_pair { pair ≡ Some result.low → steps.new ≤ steps.old + 2 }
{
    let whole = Ends {
        top,
        low: 0,
        at_low: 0,
        high: top + 1,
        at_high: 0,
        line,
    };
    let ends = match pair {
        Some(inner) => beside(sum, amount, whole, inner, steps),
        None => whole,
    };
    drawn_together(sum, amount, ends, steps)
}

// The ends after looks at a share and at the one after it. Where they don't tell that the answer
// is another share, they are neighbours.
fn beside<P: ShareFunction, L: Ledger>(
    sum: &P,
    amount: u64,
    ends: Ends,
    inner: u64,
    steps: &mut Steps<L>,
) -> Ends
    requires ends { AreEnds (P.meaning sum.now) amount ends }
    requires high { inner < ends.high }
    ensures ends { AreEnds (P.meaning sum.now) amount result }
    ensures top { result.top ≡ ends.top }
    ensures neighbours { result.low ≤ inner → inner < result.high
        → result.high ≡ result.low + 1 }
    ensures ticks { steps.new ≤ steps.old + 2 }
{
    let mut ends = ends;
    if ends.low < inner {
        ends = looked(sum, amount, ends, inner, steps);
    }
    if ends.low == inner && inner + 1 < ends.high {
        ends = looked(sum, amount, ends, inner + 1, steps);
    }
    ends
}

// The same ends, drawn together until they are neighbours.
//
// If the looks by the line don't serve, as where the sum bends much, the others halve what is
// between.
fn drawn_together<P: ShareFunction, L: Ledger>(
    sum: &P,
    amount: u64,
    ends: Ends,
    steps: &mut Steps<L>,
) -> Ends
    requires ends { AreEnds (P.meaning sum.now) amount ends }
    requires high { ends.top ≤ MAX_SHARE }
    ensures ends { AreEnds (P.meaning sum.now) amount result }
    ensures top { result.top ≡ ends.top }
    ensures from { ends.low ≤ result.low }
    ensures upto { result.high ≤ ends.high }
    ensures neighbours { result.high ≡ result.low + 1 }
    ensures ticks { steps.new ≤ steps.old + 58 }
    ensures none { ends.high ≡ ends.low + 1 → steps.new ≡ steps.old }
{
    let mut ends = ends;
    for look in 0..LOOKS_BY_LINE + LOOKS_BY_HALVES {
        if ends.high - ends.low == 1 {
            return ends;
        }
        let share = if look < LOOKS_BY_LINE {
            ends.guessed()
        } else {
            ends.middle()
        };
        ends = looked(sum, amount, ends, share, steps);
    }
    ends
}

// The ends after a look at a share between them.
fn looked<P: ShareFunction, L: Ledger>(
    sum: &P,
    amount: u64,
    ends: Ends,
    share: u64,
    steps: &mut Steps<L>,
) -> Ends
    requires ends { AreEnds (P.meaning sum.now) amount ends }
    requires from { ends.low < share }
    requires upto { share < ends.high }
    ensures ends { AreEnds (P.meaning sum.now) amount result }
    ensures top { result.top ≡ ends.top }
    ensures moved { HasMoved ends result share }
    ensures ticks { steps.new ≡ steps.old + 1 }
{
    steps.tick();
    let look = sum.look(share);
    if look.value <= amount {
        ends.with_low(share, look, amount)
    } else {
        ends.with_high(share, look.value, amount)
    }
}
