//! Groups that rise by a slope.

ghost use Rattle.std.specs.Prelude.{◌≡◌, ◌<◌, ◌≤◌, length};
ghost use Rattle.mpfa_fill.specs.GroupValues.{AreGroupValues};
ghost use Rattle.network_cases.specs.SlopeValues.{value_by, values_by};

use mpfa_fill::GroupValues;
use std::cell::Cell;

/// How one group rises: by `rise` a share up to its demand, and from the share `again` on by one a
/// share.
#[derive(Clone, Copy)]
pub struct Slope {
    pub rise: u32,
    pub demand: u32,
    pub again: u64,
}

/// Groups that rise by slopes, up to 10,000,000,000 each. It is counted how often the value of the
/// last one is asked for.
///
/// A filling that goes to another share asks each group that grows for its value once. Where the
/// limit of one link is looked for, only groups on that link are asked. So where the last group is
/// alone on a link that is never over, the count is of the moves of the whole filling.
#[derive(Drop)]
pub struct Slopes {
    top: u64,
    slopes: Vec<Slope>,
    asked: Cell<u64>,
    ghost few: { length slopes.items ≤ 1_000 },
    ghost small: { top ≤ 1_000_000_000 },
}

impl Slopes {
    /// Groups up to a top share. The value of the last one was not asked for so far.
    pub fn new(top: u64, slopes: Vec<Slope>) -> Slopes
        requires top { top ≤ 1_000_000_000 }
        requires few { length slopes.items ≤ 1_000 }
        ensures { result.slopes ≡ slopes }
    {
        Slopes {
            top,
            slopes,
            asked: Cell::new(0),
        }
    }

    /// How often the value of the last group was asked for.
    pub fn asked(&self) -> u64 {
        self.asked.get()
    }
}

impl GroupValues for Slopes {
    ghost meaning = { λ values. values_by values.slopes.items values.top };

    fn groups(&self) -> u32 {
        self.slopes.len() as u32
    }

    fn top(&self) -> u64 {
        self.top
    }

    fn value(&self, group: u32, share: u64) -> u64 {
        if u64::from(group) + 1 == self.slopes.len() as u64 {
            self.asked.set(self.asked.get().wrapping_add(1));
        }
        value_at(self.slopes[group as usize], share)
    }

    fn ceiling(&self, _group: u32, _share: u64) -> Option<u64> {
        None
    }

    fn floor(&self, _group: u32, _share: u64, _most: u64) -> Option<u64> {
        None
    }

    fn is_full(&self, _group: u32, _share: u64, _most: u64) -> bool {
        false
    }

    fn last_share_within(&self, _group: u32, _amount: u64) -> Option<u64> {
        None
    }

    fn is_searched(&self, _group: u32) -> bool {
        false
    }
}

// The value of one group.
fn value_at(slope: Slope, share: u64) -> u64
    requires { share ≤ 1_000_000_000 }
    ensures { result ≡ value_by slope share }
{
    let grown = (u64::from(slope.rise) * share).min(u64::from(slope.demand));
    (grown + share.saturating_sub(slope.again)).min(10_000_000_000)
}
