//! A line through two points of a sum, which says where to look next.
//!
//! Nothing is promised of it: `Ends` alone say where the answer is.

use function_sum::{Look, Stretch};

/// Which mark moved last.
#[derive(Clone, Copy, Debug, PartialEq, Eq, Drop)]
enum Moved {
    Neither,
    Low,
    High,
}

/// A share, and how far the sum there is from half a unit above the amount, counted twice.
#[derive(Clone, Copy, Debug, Drop)]
pub(crate) struct Mark {
    share: u64,
    apart: u64,
}

impl Mark {
    /// A share at which the sum is at most the amount.
    pub(crate) fn below(share: u64, value: u64, amount: u64) -> Mark {
        let way = amount.saturating_sub(value);
        Mark {
            share,
            apart: way.saturating_mul(2).saturating_add(1),
        }
    }

    /// A share at which the sum is above the amount.
    pub(crate) fn above(share: u64, value: u64, amount: u64) -> Mark {
        let way = value.saturating_sub(amount);
        Mark {
            share,
            apart: way.saturating_mul(2).saturating_sub(1),
        }
    }

    // The same share, from which the line goes to a point nearer to the other mark.
    fn halved(self) -> Mark {
        Mark {
            share: self.share,
            apart: self.apart / 2,
        }
    }
}

/// Two marks, and the share to look at next.
#[derive(Clone, Copy, Debug, Drop)]
pub struct Line {
    low: Mark,
    high: Mark,
    moved: Moved,
    next: u64,
}

impl Line {
    /// The line along a stretch.
    pub fn along(stretch: Stretch, amount: u64) -> Line {
        let low = Mark::below(stretch.before.0, stretch.before.1, amount);
        let high = Mark::above(stretch.after.0, stretch.after.1, amount);
        Line {
            low,
            high,
            moved: Moved::Neither,
            next: crossing(low, high),
        }
    }

    /// The share to look at next.
    pub(crate) fn next(&self) -> u64 {
        self.next
    }

    /// The line after a look at a share at which the sum is at most the amount.
    ///
    /// The low mark goes to the last share at which the sum stays. Where the amount is below the
    /// next value, the next share is the one after. Where the low mark moved before too, the high
    /// one counts half, so that it moves as well (the Illinois rule). `beyond` stands in for a high
    /// mark that was passed.
    pub(crate) fn after_fit(&self, share: u64, look: Look, amount: u64, beyond: Mark) -> Line {
        let low = Mark::below(look.last.max(share), look.value, amount);
        let high = if self.high.share <= low.share {
            beyond
        } else if self.moved == Moved::Low {
            self.high.halved()
        } else {
            self.high
        };
        let next = if look.next > amount {
            low.share.saturating_add(1)
        } else {
            crossing(low, high)
        };
        Line {
            low,
            high,
            moved: Moved::Low,
            next,
        }
    }

    /// The line after a look at a share at which the sum is above the amount, in the same way.
    pub(crate) fn after_excess(&self, share: u64, value: u64, amount: u64, beyond: Mark) -> Line {
        let high = Mark::above(share, value, amount);
        let low = if self.low.share >= share {
            beyond
        } else if self.moved == Moved::High {
            self.low.halved()
        } else {
            self.low
        };
        Line {
            low,
            high,
            moved: Moved::High,
            next: crossing(low, high),
        }
    }
}

// The share at which the line between two marks meets the amount. It is between them, or the low
// one where nothing is.
fn crossing(low: Mark, high: Mark) -> u64 {
    let width = high.share.saturating_sub(low.share);
    if width <= 1 {
        return low.share;
    }
    let whole = low.apart.saturating_add(high.apart).max(1);
    let part = match width.checked_mul(low.apart) {
        Some(product) => product / whole,
        None => near(width as u128 * low.apart as u128 / whole as u128),
    };
    low.share.saturating_add(part.clamp(1, width - 1))
}

// A number, or the greatest one of 64 bits.
fn near(number: u128) -> u64 {
    number.min(u64::MAX as u128) as u64
}
