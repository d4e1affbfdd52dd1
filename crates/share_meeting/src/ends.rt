//! Two shares between which an amount is met, drawn together look by look.

ghost use Rattle.std.specs.Prelude.{◌≡◌, ℕ, ◌+◌, ◌-◌, ◌/◌, ◌<◌, ◌≤◌};

use crate::line::{Line, Mark};
use function_sum::Look;

/// A share at which a sum is at most an amount, and a share at which it is above it or that lies
/// past the top, with the sums there. Past the top there is none, and 0 stands for it.
///
/// Only the choice of the next look rests on the line and on the sum at the high share.
#[derive(Clone, Copy, Debug, Drop)]
pub struct Ends {
    pub(crate) top: u64,
    pub low: u64,
    pub at_low: u64,
    pub(crate) high: u64,
    pub(crate) at_high: u64,
    pub(crate) line: Line,
}

impl Ends {
    /// A share between the ends, the line's next one if it is.
    pub(crate) fn guessed(&self) -> u64
        requires { self.now.low + 1 < self.now.high }
        ensures from { self.now.low < result }
        ensures upto { result < self.now.high }
    {
        self.line.next().clamp(self.low + 1, self.high - 1)
    }

    /// The share in the middle between the ends.
    pub(crate) fn middle(&self) -> u64
        requires { self.now.low + 1 < self.now.high }
        ensures { result ≡ self.now.low + (self.now.high - self.now.low) / 2 }
    {
        self.low + (self.high - self.low) / 2
    }

    /// The ends with the low one moved to a share that was looked at.
    pub(crate) fn with_low(&self, low: u64, look: Look, amount: u64) -> Ends
        ensures top { result.top ≡ self.now.top }
        ensures low { result.low ≡ low }
        ensures at_low { result.at_low ≡ look.value }
        ensures high { result.high ≡ self.now.high }
    {
        let beyond = if self.high > self.top {
            Mark::above(self.high, amount.saturating_mul(2), amount)
        } else {
            Mark::above(self.high, self.at_high, amount)
        };
        Ends {
            top: self.top,
            low,
            at_low: look.value,
            high: self.high,
            at_high: self.at_high,
            line: self.line.after_fit(low, look, amount, beyond),
        }
    }

    /// The ends with the high one moved.
    pub(crate) fn with_high(&self, high: u64, at_high: u64, amount: u64) -> Ends
        ensures top { result.top ≡ self.now.top }
        ensures low { result.low ≡ self.now.low }
        ensures at_low { result.at_low ≡ self.now.at_low }
        ensures high { result.high ≡ high }
    {
        let beyond = Mark::below(self.low, self.at_low, amount);
        Ends {
            top: self.top,
            low: self.low,
            at_low: self.at_low,
            high,
            at_high,
            line: self.line.after_excess(high, at_high, amount, beyond),
        }
    }
}
