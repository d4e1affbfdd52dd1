//! What is filled.

ghost use Rattle.std.specs.Prelude.{◌≡◌, ◌<◌, ◌≤◌, nat_le, IfSome, IsTrue};
ghost use Rattle.bwe_specs.specs.Bounded.{greatest_upto};
ghost use Rattle.mpfa_fill.specs.GroupValues.{Values, AreGroupValues};

/// What each group may have at each share, in kilobits per second.
///
/// Groups are numbered from 0. Shares go from 0 to the top share.
pub trait GroupValues {
    ghost meaning: { Self → Values };

    /// How many groups there are.
    fn groups(&self) -> u32
        ensures { result ≡ (meaning self.now).groups };

    /// The top share, at most 1,000,000,000.
    ///
    /// Whoever asks for it learns that each group's value is 0 at share 0 and never falls up to the
    /// top, and that all groups have together at most 1,048,576,000,000,000,000 there.
    fn top(&self) -> u64
        ensures top { result ≡ (meaning self.now).top }
        ensures values { AreGroupValues (meaning self.now) };

    /// The group's value at the share.
    fn value(&self, group: u32, share: u64) -> u64
        requires group { group < (meaning self.now).groups }
        requires share { share ≤ (meaning self.now).top }
        ensures { result ≡ (meaning self.now).value group share };

    /// No less than the group's value at the share, where that is told in fewer steps than the value
    /// itself.
    fn ceiling(&self, group: u32, share: u64) -> Option<u64>
        requires group { group < (meaning self.now).groups }
        requires share { share ≤ (meaning self.now).top }
        ensures { IfSome result (λ ceiling. (meaning self.now).value group share ≤ ceiling) };

    /// No more than the group's value at the share, where that is told in fewer steps than the
    /// value itself. `most` is what the group has at the top.
    fn floor(&self, group: u32, share: u64, most: u64) -> Option<u64>
        requires group { group < (meaning self.now).groups }
        requires share { share ≤ (meaning self.now).top }
        requires most { most ≡ (meaning self.now).value group (meaning self.now).top }
        ensures { IfSome result (λ floor. floor ≤ (meaning self.now).value group share) };

    /// Whether the group is told in few steps to have at the share all that it has at the top,
    /// `most`.
    fn is_full(&self, group: u32, share: u64, most: u64) -> bool
        requires group { group < (meaning self.now).groups }
        requires share { share ≤ (meaning self.now).top }
        requires most { most ≡ (meaning self.now).value group (meaning self.now).top }
        ensures { IsTrue result → (meaning self.now).value group share ≡ most };

    /// The last share up to the top at which the group has at most so much, or `None` where that is
    /// not told.
    fn last_share_within(&self, group: u32, amount: u64) -> Option<u64>
        requires { group < (meaning self.now).groups }
        ensures { IfSome result (λ last. last ≡ greatest_upto (meaning self.now).top
            (λ share. nat_le ((meaning self.now).value group share) amount)) };

    /// Whether a value of the group takes a search, so that to keep it pays.
    fn is_searched(&self, group: u32) -> bool
        requires { group < (meaning self.now).groups };
}
