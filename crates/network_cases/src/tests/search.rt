//! Searches over a level that counts its looks in a number that a test can read.
ghost use Rattle.std.specs.Prelude.{◌≡◌, ◌<◌, ◌≤◌, nat_le};

use mono_search::{Level, Steps, greatest_fit};
use std::marker::Brand;
use std::sync::ledger::{Blank, Ledger};
use std::test::Fail;

/// Shares up to `last` fit.
#[derive(Drop)]
struct UpTo {
    last: u64,
    looks: u64,
}

impl Level for UpTo {
    ghost meaning = { λ level share. nat_le share level.last };

    fn fits<L: Ledger>(&mut self, share: u64, steps: &mut Steps<L>) -> bool {
        steps.tick();
        self.looks = self.looks.wrapping_add(1);
        share <= self.last
    }
}

#[test]
fn a_near_hint_takes_few_looks(rt: HostRuntime) -> Result<(), Fail> {
    let last = 500_000_000;
    for (hint, looks) in [
        (last, 2),
        (last - 1, 2),
        (last + 1, 3),
        (last - 3, 4),
        (0, 59),
    ] {
        let mut level = UpTo { last, looks: 0 };
        let found = search(&mut level, hint);
        assert_eq!(rt; found, last, "from {hint}");
        assert!(rt; level.looks <= looks, "{} looks from {hint}", level.looks);
    }
    Ok(())
}

#[test]
fn the_ends_are_answers(rt: HostRuntime) -> Result<(), Fail> {
    for last in [0, 1_000_000_000, 2_000_000_000] {
        let mut level = UpTo { last, looks: 0 };
        let found = search(&mut level, 7);
        assert_eq!(rt; found, last.min(1_000_000_000));
    }
    Ok(())
}

// The greatest share up to 1,000,000,000.
fn search(level: &mut UpTo, hint: u64) -> u64
    requires { hint ≤ 1_000_000_000 }
{
    counted_search::<Brand>(level, hint, Blank::new(1))
}

// The same with a counter made on the spot.
fn counted_search<L: Ledger>(level: &mut UpTo, hint: u64, blank: Blank) -> u64
    requires hint { hint ≤ 1_000_000_000 }
    requires name { blank.name ≡ L.name }
    requires parts { blank.parts ≡ L.parts }
    requires some { 0 < L.parts }
{
    let mut steps: Steps<L> = Steps::new(blank);
    greatest_fit(level, 0, 1_000_000_000, hint, &mut steps)
}
