//! Values that are kept once they were asked for.

ghost use Rattle.std.specs.Prelude.{◌≡◌, IfOk};
ghost use Rattle.mpfa_fill.specs.GroupValues.{Values};

use crate::answers::{Answers, Meant};
use bwe_specs::OutOfMemory;
use mpfa_fill::GroupValues;
use std::alloc::Global;

// So many values of one group are kept at most.
const MOST_VALUES: usize = 64;

/// Values, and of each group those that were asked for.
#[derive(Drop)]
pub struct KeptValues<'a, V: GroupValues, K: Meant> {
    pub values: &'a V,
    answers: Answers<K>,
    ghost meant: { K.value ≡ (V.meaning values.now).value },
}

impl<'a, V: GroupValues, K: Meant> KeptValues<'a, V, K> {
    /// The values, of which none was asked for yet.
    pub fn of(alloc: Global, values: &'a V) -> Result<KeptValues<'a, V, K>, OutOfMemory>
        requires { K.value ≡ (V.meaning values.now).value }
        ensures { IfOk result (λ kept. kept.values.now ≡ values.now) }
    {
        let answers = Answers::new(alloc, values.groups(), MOST_VALUES)?;
        Ok(KeptValues { values, answers })
    }
}

impl<V: GroupValues, K: Meant> GroupValues for KeptValues<'_, V, K> {
    ghost meaning = { λ kept. V.meaning kept.values.now };

    fn groups(&self) -> u32 {
        self.values.groups()
    }

    fn top(&self) -> u64 {
        self.values.top()
    }

    // A value that takes no search is not kept.
    fn value(&self, group: u32, share: u64) -> u64 {
        if let Some(value) = self.answers.value(group, share) {
            return value;
        }
        let value = self.values.value(group, share);
        if self.values.is_searched(group) {
            self.answers.list(group, share, value);
        }
        value
    }

    fn ceiling(&self, group: u32, share: u64) -> Option<u64> {
        self.values.ceiling(group, share)
    }

    fn floor(&self, group: u32, share: u64, most: u64) -> Option<u64> {
        self.values.floor(group, share, most)
    }

    fn is_full(&self, group: u32, share: u64, most: u64) -> bool {
        self.values.is_full(group, share, most)
    }

    fn last_share_within(&self, group: u32, amount: u64) -> Option<u64> {
        self.values.last_share_within(group, amount)
    }

    fn is_searched(&self, group: u32) -> bool {
        self.values.is_searched(group)
    }
}
