//! A value with guesses of what comes after, so that a search needs few looks.

ghost use Rattle.std.specs.Prelude.{◌≡◌};

/// The value at a share, with guesses of what comes after it.
///
/// Nothing is promised of the guesses. A search that trusts in no guess without a look is right
/// whatever they are, and short where they are good.
#[derive(Clone, Copy, Debug, PartialEq, Eq, Drop)]
pub struct Look {
    /// The value, in kilobits per second.
    pub value: u64,
    /// A guess of the last share at which the value is still the same.
    pub last: u64,
    /// A guess of the value at the share after that one. Where nothing is known, `value` again.
    pub next: u64,
}

/// A value on the line from one point to another, with guesses along that line.
pub(crate) fn look_on_line(from: &(u64, u64), to: &(u64, u64), value: u64) -> Look
    ensures { result.value ≡ value }
{
    let run = to.0.saturating_sub(from.0);
    let rise = to.1.saturating_sub(from.1);
    if rise == 0 {
        return Look {
            value,
            last: to.0,
            next: value,
        };
    }
    // The first part of the way at which there is one more, and the amount there.
    let more = value.saturating_sub(from.1).saturating_add(1);
    let way = rounded_up(more, run, rise);
    let next = from.1.saturating_add(rounded_down(way.min(run), rise, run));
    Look {
        value,
        last: from.0.saturating_add(way).saturating_sub(1),
        next,
    }
}

// A product divided, in 64 bits where it fits them.
fn rounded_down(part: u64, whole: u64, divisor: u64) -> u64 {
    match part.checked_mul(whole) {
        Some(product) => product / divisor.max(1),
        None => nearest(part as u128 * whole as u128 / divisor.max(1) as u128),
    }
}

fn rounded_up(part: u64, whole: u64, divisor: u64) -> u64 {
    match part.checked_mul(whole) {
        Some(product) => product.div_ceil(divisor.max(1)),
        None => nearest((part as u128 * whole as u128).div_ceil(divisor.max(1) as u128)),
    }
}

// A number, or the greatest one of 64 bits.
fn nearest(number: u128) -> u64 {
    number.min(u64::MAX as u128) as u64
}
