//! Looks at links, for which a value that was asked for is kept.

ghost use Rattle.std.specs.Prelude.{◌≡◌, ℕ, ◌<◌, ◌≤◌, ◌+◌, length, IfOk};
ghost use Rattle.bwe_specs.specs.Paths.{link_load};
ghost use Rattle.bwe_specs.specs.RightClosings.{last_share, amounts_at};
ghost use Rattle.mpfa_fill.specs.GroupValues.{Values};
ghost use Rattle.mpfa_fill.specs.LastFit.{is_over_at};
ghost use Rattle.link_front.specs.Front.{wan_in, closings_in, AreKnown, IsFront};
ghost use Rattle.closing_walk.specs.Known.{AreKnownTwice, IsFresh};

use bwe_specs::OutOfMemory;
use growth_queries::place_over;
use link_front::Front;
use mono_search::Steps;
use mpfa_fill::{GroupValues, ValueAt};
use std::alloc::Global;
use std::sync::ledger::Ledger;

/// Of each group its value at an even share and at an odd one, those for which it was asked last.
///
/// The looks of one closing are at its share and at the next, so that a group is asked at most
/// twice for them, however many links it grows over.
#[derive(Drop)]
pub(crate) struct KnownValues {
    even: Vec<ValueAt>,
    odd: Vec<ValueAt>,
}

impl KnownValues {
    /// Each group has nothing at share 0.
    pub(crate) fn none(alloc: Global, groups: u32) -> Result<KnownValues, OutOfMemory>
        ensures { IfOk result (IsFresh groups) }
    {
        let nothing = ValueAt { share: 0, value: 0 };
        Ok(KnownValues {
            even: vec![in alloc; nothing; groups as usize]?,
            odd: vec![in alloc; nothing; groups as usize]?,
        })
    }
}

/// Whether the link is over at a share, if nothing closes on the way there. It is one look.
pub(crate) fn looks_over<V: GroupValues, L: Ledger>(
    alloc: Global,
    front: &Front<V>,
    known: &mut KnownValues,
    link: u32,
    share: u64,
    steps: &mut Steps<L>,
) -> Result<bool, OutOfMemory>
    requires front { IsFront V.meaning front.now }
    requires known { AreKnownTwice (wan_in V.meaning front.now) known.old }
    requires link { link < length (wan_in V.meaning front.now).capacities }
    requires last { last_share (closings_in front.now) ≤ share }
    requires within { share ≤ (wan_in V.meaning front.now).top }
    ensures known { AreKnownTwice (wan_in V.meaning front.now) known.new }
    ensures over { IfOk result
        (λ over. over ≡ is_over_at (wan_in V.meaning front.now) (closings_in front.now) share link) }
    ensures ticks { steps.new ≤ steps.old + 1 }
{
    let load = load_at(alloc, front, known, link, share, steps)?;
    Ok(load > front.growth.capacity(link) as u128)
}

/// The load of the link at a share, if nothing closes on the way there. It is one look.
pub(crate) fn load_at<V: GroupValues, L: Ledger>(
    alloc: Global,
    front: &Front<V>,
    known: &mut KnownValues,
    link: u32,
    share: u64,
    steps: &mut Steps<L>,
) -> Result<u128, OutOfMemory>
    requires front { IsFront V.meaning front.now }
    requires known { AreKnownTwice (wan_in V.meaning front.now) known.old }
    requires link { link < length (wan_in V.meaning front.now).capacities }
    requires last { last_share (closings_in front.now) ≤ share }
    requires within { share ≤ (wan_in V.meaning front.now).top }
    ensures known { AreKnownTwice (wan_in V.meaning front.now) known.new }
    ensures load { let wan = wan_in V.meaning front.now in IfOk result
        (λ load. load ≡ link_load wan.groups (amounts_at wan (closings_in front.now) share) link) }
    ensures ticks { steps.new ≤ steps.old + 1 }
{
    if share % 2 == 0 {
        Ok(load_by(alloc, front, &mut known.even, link, share, steps)?)
    } else {
        Ok(load_by(alloc, front, &mut known.odd, link, share, steps)?)
    }
}

// The same, once it is clear where values at such a share are kept.
fn load_by<V: GroupValues, L: Ledger>(
    alloc: Global,
    front: &Front<V>,
    known: &mut [ValueAt],
    link: u32,
    share: u64,
    steps: &mut Steps<L>,
) -> Result<u128, OutOfMemory>
    requires front { IsFront V.meaning front.now }
    requires known { AreKnown (wan_in V.meaning front.now) known.old }
    requires link { link < length (wan_in V.meaning front.now).capacities }
    requires last { last_share (closings_in front.now) ≤ share }
    requires within { share ≤ (wan_in V.meaning front.now).top }
    ensures known { AreKnown (wan_in V.meaning front.now) known.new }
    ensures load { let wan = wan_in V.meaning front.now in IfOk result
        (λ load. load ≡ link_load wan.groups (amounts_at wan (closings_in front.now) share) link) }
    ensures ticks { steps.new ≤ steps.old + 1 }
{
    for group in front.by_link.on(link) {
        ask(front, known, *group, link, share);
    }
    let terms = front.terms_on(alloc, link, known)?;
    steps.tick();
    Ok(front.growth.load_at(&terms, link, share))
}

// Asks for the group's value at the share, if it grows over the link and it is not known.
fn ask<V: GroupValues>(front: &Front<V>, known: &mut [ValueAt], group: u32, link: u32, share: u64)
    requires front { IsFront V.meaning front.now }
    requires known { AreKnown (wan_in V.meaning front.now) known.old }
    requires group { group < length (wan_in V.meaning front.now).groups }
    requires within { share ≤ (wan_in V.meaning front.now).top }
    ensures { AreKnown (wan_in V.meaning front.now) known.new }
{
    if known[group as usize].share != share && place_over(&front.growth, group, link).is_some() {
        let value = front.growth.value(group, share);
        known[group as usize] = ValueAt { share, value };
    }
}
