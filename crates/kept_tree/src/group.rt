//! What is kept of one group.

ghost use Rattle.std.specs.Prelude.{◌≡◌, ℕ, ◌≤◌, List, length, IfSome};
ghost use Rattle.kept_tree.specs.Known.{IsKnownOf};

use std::alloc::Global;

/// So many values of one group are kept at most.
pub(crate) const MOST_VALUES: usize = 1_024;

/// What a group may have at a share, in kilobits per second.
#[derive(Clone, Copy, Debug, PartialEq, Eq, Drop)]
pub(crate) struct KnownValue {
    pub(crate) share: u64,
    pub(crate) value: u64,
}

/// The limits of a group's tasks where it has the amount, in kilobits per second.
#[derive(Drop)]
pub(crate) struct KnownLimits {
    pub(crate) amount: u64,
    pub(crate) limits: Vec<u64>,
}

/// What is kept of a group under the present demands. The values stand by rising share.
#[derive(Drop)]
pub(crate) struct KnownGroup {
    pub(crate) values: Vec<KnownValue>,
    pub(crate) limits: Option<KnownLimits>,
}

impl KnownGroup {
    /// Nothing yet.
    pub(crate) fn new(alloc: Global) -> KnownGroup
        ensures { (value_of : ℕ → ℕ) (limits_of : ℕ → List ℕ)
            → IsKnownOf value_of limits_of result }
    {
        KnownGroup {
            values: Vec::new(alloc),
            limits: None,
        }
    }

    /// The value at the share, where it is kept.
    pub(crate) fn value(&self, share: u64) -> Option<u64>
        ensures { (value_of : ℕ → ℕ) (limits_of : ℕ → List ℕ)
            → IsKnownOf value_of limits_of self.now
            → IfSome result (λ value. value ≡ value_of share) }
    {
        let place = self.place(share);
        if place < self.values.len() {
            let known = self.values[place];
            if known.share == share {
                return Some(known.value);
            }
        }
        None
    }

    /// A value that is kept between two shares, at the lowest such share.
    pub(crate) fn value_between(&self, share: u64, most: u64) -> Option<u64>
        ensures { (value_of : ℕ → ℕ) (limits_of : ℕ → List ℕ)
            → IsKnownOf value_of limits_of self.now
            → IfSome result (λ value. (at : ℕ) × (share ≤ at) × (at ≤ most)
            × (value ≡ value_of at)) }
    {
        let place = self.place(share);
        if place < self.values.len() {
            let known = self.values[place];
            if known.share >= share && known.share <= most {
                return Some(known.value);
            }
        }
        None
    }

    /// Keeps the value at the share, where there is memory. Before there are too many, all others
    /// are dropped.
    pub(crate) fn add_value(&mut self, share: u64, value: u64)
        ensures { (value_of : ℕ → ℕ) (limits_of : ℕ → List ℕ)
            → value ≡ value_of share
            → IsKnownOf value_of limits_of self.old → IsKnownOf value_of limits_of self.new }
    {
        let place = self.place(share);
        if place < self.values.len() && self.values[place].share == share {
            return;
        }
        if self.values.len() >= MOST_VALUES {
            self.values.clear();
        }
        let place = place.min(self.values.len());
        let _ = self.values.insert(place, KnownValue { share, value });
    }

    /// The limits under the amount, where they are kept.
    pub(crate) fn limits(&self, amount: u64) -> Option<&[u64]>
        ensures { (value_of : ℕ → ℕ) (limits_of : ℕ → List ℕ)
            → IsKnownOf value_of limits_of self.now
            → IfSome result (λ limits. limits.now ≡ limits_of amount) }
    {
        match &self.limits {
            Some(known) => {
                if known.amount == amount {
                    Some(known.limits.as_slice())
                } else {
                    None
                }
            }
            None => None,
        }
    }

    /// Keeps the limits under the amount, and no others.
    pub(crate) fn set_limits(&mut self, amount: u64, limits: Vec<u64>)
        ensures { (value_of : ℕ → ℕ) (limits_of : ℕ → List ℕ)
            → limits.items ≡ limits_of amount
            → IsKnownOf value_of limits_of self.old → IsKnownOf value_of limits_of self.new }
    {
        self.limits = Some(KnownLimits { amount, limits });
    }

    /// Drops all that is kept.
    pub(crate) fn forget(&mut self)
        ensures { (value_of : ℕ → ℕ) (limits_of : ℕ → List ℕ)
            → IsKnownOf value_of limits_of self.new }
    {
        self.values.clear();
        self.limits = None;
    }

    // How many values stand before the share.
    fn place(&self, share: u64) -> usize
        ensures { result ≤ length self.now.values.items }
    {
        self.values.partition_point(|known| known.share < share)
    }
}
