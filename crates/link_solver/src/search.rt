//! Looks at links, and closings that mark what is known of them.

ghost use Rattle.std.specs.Prelude.{◌≡◌, ℕ, ◌+◌, ◌*◌, ◌-◌, ◌<◌, ◌≤◌, ◌^◌, ◌∷◌, true, length, reverse, IfOk, OnOk, OnErr, None};
ghost use Rattle.bwe_specs.specs.RightClosings.{last_share, over_at, AreRight, IsRightAfter};
ghost use Rattle.mpfa_fill.specs.GroupValues.{Values};
ghost use Rattle.mpfa_fill.specs.LastFit.{is_over_at};
ghost use Rattle.mpfa_fill.specs.Growth.{AreTermsOn};
ghost use Rattle.mpfa_fill.specs.Filling.{IsFilling};
ghost use Rattle.link_front.specs.Front.{wan_in, closings_in, added_in, AreKnown, IsFront};
ghost use Rattle.link_front.specs.Moves.{moves_ahead};
ghost use Rattle.link_solver.specs.Counts.{places_ahead};
ghost use Rattle.link_solver.specs.Dues.{due_at, load_at, AreDues, IsHalved, IsLooked};
ghost use Rattle.link_solver.specs.Looks.{halvings, looks_at, looks_ahead};

use crate::alone::due_of_one;
use crate::due::{Due, mark};
use crate::winners::Winners;
use bwe_specs::{Closing, OutOfMemory};
use link_front::Front;
use mono_search::Steps;
use mpfa_fill::{Filling, GroupValues, Term, ValueAt};
use std::alloc::Global;
use std::sync::ledger::Ledger;

/// What is known of a link after some looks: it is known at which share it is over first, or it
/// fits at a share above `enough`.
///
/// It asks for the values of the groups that grow over the link, once for each look, and of no
/// others; where the value is known at the share of the look, not for that. Where it is one group,
/// it goes on until it is known at which share the link is over first, whatever is enough; and it
/// asks for the last share within an amount, where the group's values tell that.
pub(crate) fn looked<V: GroupValues, L: Ledger>(
    front: &Front<V>,
    alloc: Global,
    link: u32,
    known: &[ValueAt],
    due: Due,
    top: u64,
    enough: u64,
    steps: &mut Steps<L>,
) -> Result<Due, OutOfMemory>
    requires front { IsFront V.meaning front.now }
    requires known { AreKnown (wan_in V.meaning front.now) known.now }
    requires link { link < length (wan_in V.meaning front.now).capacities }
    requires last { last_share (closings_in front.now) ≤ due.share }
    requires below { due.share < top }
    requires top { top ≡ (wan_in V.meaning front.now).top }
    requires unknown { due.share + 1 < due.over }
    requires over { due.over ≤ top
        → is_over_at (wan_in V.meaning front.now) (closings_in front.now) due.over link ≡ true }
    requires enough { due.share ≤ enough }
    ensures looked { IfOk result
        (IsLooked (wan_in V.meaning front.now) (closings_in front.now) link due) }
    ensures ticks { IfOk result
        (λ new. steps.new + looks_at top new ≤ steps.old + looks_at top due) }
    ensures some { OnOk result (steps.old < steps.new) }
    ensures none { OnErr result (steps.new ≡ steps.old) }
{
    let terms = front.terms_on(alloc, link, known)?;
    let enough = reach(&terms, enough, top);
    if due.over <= top {
        return Ok(halved(front, &terms, link, due, enough, steps));
    }
    let load = load_at(front, &terms, link, top, steps);
    if load <= front.growth.capacity(link) as u128 {
        return Ok(Due {
            share: top,
            over: due.over,
            low_load: load,
            over_load: due.over_load,
        });
    }
    let from = Due {
        share: due.share,
        over: top,
        low_load: due.low_load,
        over_load: load,
    };
    Ok(halved(front, &terms, link, from, enough, steps))
}

/// Closes a link. A group that grew over it goes on with its next open path group. `never` is
/// any share above the top.
pub(crate) fn close<V: GroupValues, P: Ledger, M: Ledger>(
    front: &mut Front<V>,
    closing: Closing,
    dues: &mut Winners,
    never: u64,
    plays: &mut Steps<P>,
    moves: &mut Steps<M>,
) -> Result<(), OutOfMemory>
    requires front { IsFront V.meaning front.old }
    requires right { IsRightAfter (wan_in V.meaning front.old) (closings_in front.old) closing }
    requires dues { AreDues (wan_in V.meaning front.old) (closings_in front.old) dues.old }
    requires least { (link : ℕ) → link < length dues.old
        → closing.share ≤ (due_at dues.old link).share }
    requires never { (wan_in V.meaning front.old).top < never }
    ensures front { OnOk result (IsFront V.meaning front.new) }
    ensures wan { OnOk result (wan_in V.meaning front.new ≡ wan_in V.meaning front.old) }
    ensures closings { OnOk result (closings_in front.new ≡ closing ∷ closings_in front.old) }
    ensures dues { OnOk result
        (AreDues (wan_in V.meaning front.old) (closing ∷ closings_in front.old) dues.new) }
    ensures ahead { OnOk result
        (looks_ahead (wan_in V.meaning front.old) (closing ∷ closings_in front.old) dues.new
        ≤ looks_ahead (wan_in V.meaning front.old) (closings_in front.old) dues.old) }
    ensures plays { OnOk result ((levels : ℕ) → length dues.old ≤ 2 ^ levels → plays.new
        + levels * moves_ahead (wan_in V.meaning front.old) (closing ∷ closings_in front.old)
        ≤ plays.old + levels * moves_ahead (wan_in V.meaning front.old) (closings_in front.old)) }
    ensures moves { OnOk result (moves.new
        + places_ahead (wan_in V.meaning front.old) (closing ∷ closings_in front.old)
        ≤ moves.old + places_ahead (wan_in V.meaning front.old) (closings_in front.old)) }
    ensures none { OnErr result ((plays.new ≡ plays.old) × (moves.new ≡ moves.old)) }
{
    front.bring_up(closing.link, closing.share);
    front.growth.close(closing)?;
    let by_link = front.by_link;
    for group in by_link.on(closing.link) {
        let (before, after) = front.growth.move_on(*group, closing);
        mark(
            dues,
            &front.growth,
            *group,
            before,
            after,
            closing,
            never,
            plays,
            moves,
        );
    }
    Ok(())
}

/// The filling, once no link is over at the top.
pub(crate) fn into_filling<V: GroupValues>(
    front: Front<V>,
    alloc: Global,
    top: u64,
) -> Result<Filling, OutOfMemory>
    requires front { IsFront V.meaning front }
    requires top { top ≡ (wan_in V.meaning front).top }
    requires right { AreRight (wan_in V.meaning front) (closings_in front) }
    requires fits { over_at (wan_in V.meaning front) (closings_in front) top ≡ None }
    ensures filling { IfOk result (IsFilling (wan_in V.meaning front.entry)) }
    ensures closings { IfOk result
        (λ filling. filling.closings.items ≡ reverse (closings_in front.entry)) }
{
    let mut growth = front.growth;
    growth.bring_all_up(top);
    growth.into_filling(alloc, top)
}

/// How far a search goes on: to the end where one group grows over the link, so that the link takes
/// one turn until a group comes or leaves. To ask one group takes less than a turn does.
pub(crate) fn reach(terms: &[Term], enough: u64, top: u64) -> u64
    ensures { enough ≤ result }
{
    if terms.len() <= 1 {
        enough.max(top)
    } else {
        enough
    }
}

// The load of the link at the share: a look at it.
fn load_at<V: GroupValues, L: Ledger>(
    front: &Front<V>,
    terms: &[Term],
    link: u32,
    share: u64,
    steps: &mut Steps<L>,
) -> u128
    requires front { IsFront V.meaning front.now }
    requires link { link < length (wan_in V.meaning front.now).capacities }
    requires terms { AreTermsOn (wan_in V.meaning front.now) (closings_in front.now)
        (added_in front.now) link terms.now }
    requires last { last_share (closings_in front.now) ≤ share }
    requires within { share ≤ (wan_in V.meaning front.now).top }
    ensures load { result
        ≡ load_at (wan_in V.meaning front.now) (closings_in front.now) share link }
    ensures ticks { steps.new ≡ steps.old + 1 }
{
    steps.tick();
    front.growth.load_at(terms, link, share)
}

/// A load that tells whether the link fits at the share, which is a look at it: no less than its
/// load where it fits, and else no more than its load, but above its capacity.
pub(crate) fn load_within<V: GroupValues, L: Ledger>(
    front: &Front<V>,
    terms: &[Term],
    link: u32,
    share: u64,
    capacity: u128,
    steps: &mut Steps<L>,
) -> u128
    requires front { IsFront V.meaning front.now }
    requires link { link < length (wan_in V.meaning front.now).capacities }
    requires terms { AreTermsOn (wan_in V.meaning front.now) (closings_in front.now)
        (added_in front.now) link terms.now }
    requires last { last_share (closings_in front.now) ≤ share }
    requires within { share ≤ (wan_in V.meaning front.now).top }
    ensures within { result ≤ capacity
        → load_at (wan_in V.meaning front.now) (closings_in front.now) share link ≤ result }
    ensures above { capacity < result
        → result ≤ load_at (wan_in V.meaning front.now) (closings_in front.now) share link }
    ensures ticks { steps.new ≡ steps.old + 1 }
{
    steps.tick();
    growth_queries::load_within(&front.growth, terms, link, share, capacity)
}

// The same as `looked`, where the link is over at the end of its due.
fn halved<V: GroupValues, L: Ledger>(
    front: &Front<V>,
    terms: &[Term],
    link: u32,
    due: Due,
    enough: u64,
    steps: &mut Steps<L>,
) -> Due
    requires front { IsFront V.meaning front.now }
    requires link { link < length (wan_in V.meaning front.now).capacities }
    requires terms { AreTermsOn (wan_in V.meaning front.now) (closings_in front.now)
        (added_in front.now) link terms.now }
    requires last { last_share (closings_in front.now) ≤ due.share }
    requires order { due.share < due.over }
    requires within { due.over ≤ (wan_in V.meaning front.now).top }
    requires enough { due.share ≤ enough }
    requires over { is_over_at (wan_in V.meaning front.now) (closings_in front.now) due.over link
        ≡ true }
    ensures halved { IsHalved (wan_in V.meaning front.now) (closings_in front.now) link due.share
        due.over due result }
    ensures ticks { steps.new + halvings 30 (result.over - result.share)
        ≤ steps.old + halvings 30 (due.over - due.share) }
    ensures some { due.share + 1 < due.over → steps.old < steps.new }
    ensures more { steps.old ≤ steps.new }
{
    if due.over - due.share > 1
        && let Some(found) = due_of_one(front, terms, link, due.share, due.over, steps)
    {
        return found;
    }
    let capacity = front.growth.capacity(link) as u128;
    let mut low = due.share;
    let mut high = due.over;
    let mut low_load = due.low_load;
    let mut over_load = due.over_load;
    while high - low > 1 && low <= enough {
        let middle = low + (high - low) / 2;
        let load = load_within(front, terms, link, middle, capacity, steps);
        if load > capacity {
            high = middle;
            over_load = load;
        } else {
            low = middle;
            low_load = load;
        }
    }
    Due {
        share: low,
        over: high,
        low_load,
        over_load,
    }
}
