//! The filling, link by link, where guesses tell at which shares to look first.

ghost use Rattle.std.specs.Prelude.{◌≡◌, ◌+◌, ◌<◌, ◌≤◌, ◌∷◌, length, IfOk, OnOk, None, true};
ghost use Rattle.bwe_specs.specs.RightClosings.{last_share, over_at, AreRight};
ghost use Rattle.path_groups.specs.Plan.{IsBuiltOn};
ghost use Rattle.mpfa_fill.specs.GroupValues.{Values, wan_of};
ghost use Rattle.mpfa_fill.specs.Filling.{IsFilling};
ghost use Rattle.mpfa_fill.specs.LastFit.{is_over_at};
ghost use Rattle.mpfa_fill.specs.Growth.{AreTermsOn};
ghost use Rattle.link_front.specs.Front.{wan_in, closings_in, added_in, AreKnown, IsFront};
ghost use Rattle.link_solver.specs.Dues.{AreDues, IsLooked, IsNextClosing};

use crate::alone::due_of_one;
use crate::due::Due;
use crate::guesses::Guesses;
use crate::links::{first_dues, values_at};
use crate::search::{close, into_filling, load_within, reach};
use crate::winners::Winners;
use crate::work::Work;
use bwe_specs::{Closing, OutOfMemory};
use link_front::{Front, GroupsByLink};
use mono_search::Steps;
use mpfa_fill::{Filling, GroupValues, Term, ValueAt};
use path_groups::PathPlan;
use std::alloc::Global;
use std::marker::Brand;
use std::sync::ledger::{Blank, Ledger};
use wan_topology::Topology;

// An aim between no two shares, for a look in the middle.
const NO_AIM: u64 = 0;

// So many looks behind a guess all go by the loads.
const MOST_AIMS: u64 = 4;

/// The same filling as that of `solve_by_links`, found by fewer looks where the guesses are right.
/// What it finds of each link is a guess for the next filling.
///
/// Where a link is due as it was in the last filling, a look at each end of its due tells so. No
/// bound of the looks is promised, as a wrong guess costs some.
pub fn solve_by_guesses<V: GroupValues>(
    alloc: Global,
    values: &V,
    topology: &Topology,
    plan: &PathPlan,
    guesses: &mut Guesses,
) -> Result<Filling, OutOfMemory>
    requires built_on { IsBuiltOn topology.now plan.now }
    requires groups { (V.meaning values.now).groups ≡ length plan.now }
    ensures { IfOk result
        (IsFilling (wan_of (V.meaning values.now) plan.now topology.now.capacities)) }
{
    guesses.begin(alloc, topology.links())?;
    counted_by_guesses::<V, Brand, Brand, Brand, Brand>(
        alloc,
        values,
        topology,
        plan,
        guesses,
        Blank::new(1),
        Blank::new(1),
        Blank::new(1),
        Blank::new(1),
    )
}

// The same, on counters that are dropped.
fn counted_by_guesses<V: GroupValues, L: Ledger, T: Ledger, P: Ledger, M: Ledger>(
    alloc: Global,
    values: &V,
    topology: &Topology,
    plan: &PathPlan,
    guesses: &mut Guesses,
    looks: Blank,
    turns: Blank,
    plays: Blank,
    moves: Blank,
) -> Result<Filling, OutOfMemory>
    requires built_on { IsBuiltOn topology.now plan.now }
    requires groups { (V.meaning values.now).groups ≡ length plan.now }
    requires look_name { looks.name ≡ L.name }
    requires look_parts { looks.parts ≡ L.parts }
    requires some_look { 0 < L.parts }
    requires turn_name { turns.name ≡ T.name }
    requires turn_parts { turns.parts ≡ T.parts }
    requires some_turn { 0 < T.parts }
    requires play_name { plays.name ≡ P.name }
    requires play_parts { plays.parts ≡ P.parts }
    requires some_play { 0 < P.parts }
    requires move_name { moves.name ≡ M.name }
    requires move_parts { moves.parts ≡ M.parts }
    requires some_move { 0 < M.parts }
    ensures { IfOk result
        (IsFilling (wan_of (V.meaning values.now) plan.now topology.now.capacities)) }
{
    let mut looks: Steps<L> = Steps::new(looks);
    let mut work: Work<T, P, M> = Work {
        turns: Steps::new(turns),
        plays: Steps::new(plays),
        moves: Steps::new(moves),
    };
    let by_link = GroupsByLink::of(alloc, topology, plan)?;
    solve_guessed(
        alloc, values, topology, plan, &by_link, guesses, &mut looks, &mut work,
    )
}

// The same, once the groups of each link are listed.
fn solve_guessed<'a, V: GroupValues, L: Ledger, T: Ledger, P: Ledger, M: Ledger>(
    alloc: Global,
    values: &'a V,
    topology: &'a Topology,
    plan: &'a PathPlan,
    by_link: &'a GroupsByLink<'a>,
    guesses: &mut Guesses,
    steps: &mut Steps<L>,
    work: &mut Work<T, P, M>,
) -> Result<Filling, OutOfMemory>
    requires built_on { IsBuiltOn topology.now plan.now }
    requires listed { by_link.now ≡ plan.now }
    requires groups { (V.meaning values.now).groups ≡ length plan.now }
    ensures { IfOk result
        (IsFilling (wan_of (V.meaning values.now) plan.now topology.now.capacities)) }
{
    let top = values.top();
    let mut front = Front::open(alloc, values, topology, plan, by_link)?;
    let mut dues = first_dues(alloc, &front, top)?;
    let known = values_at(alloc, &front, top)?;
    close_guessed(
        alloc, &mut front, &known, &mut dues, top, guesses, steps, work,
    )?;
    into_filling(front, alloc, top)
}

// Takes the front past all closings.
fn close_guessed<V: GroupValues, L: Ledger, T: Ledger, P: Ledger, M: Ledger>(
    alloc: Global,
    front: &mut Front<V>,
    known: &[ValueAt],
    dues: &mut Winners,
    top: u64,
    guesses: &mut Guesses,
    steps: &mut Steps<L>,
    work: &mut Work<T, P, M>,
) -> Result<(), OutOfMemory>
    requires front { IsFront V.meaning front.old }
    requires right { AreRight (wan_in V.meaning front.old) (closings_in front.old) }
    requires known { AreKnown (wan_in V.meaning front.old) known.now }
    requires top { top ≡ (wan_in V.meaning front.old).top }
    requires dues { AreDues (wan_in V.meaning front.old) (closings_in front.old) dues.old }
    ensures front { OnOk result (IsFront V.meaning front.new) }
    ensures right { OnOk result (AreRight (wan_in V.meaning front.new) (closings_in front.new)) }
    ensures wan { OnOk result (wan_in V.meaning front.new ≡ wan_in V.meaning front.old) }
    ensures fits { OnOk result
        (over_at (wan_in V.meaning front.new) (closings_in front.new) top ≡ None) }
{
    while let Some(closing) = next_guessed(
        alloc,
        front,
        known,
        dues,
        top,
        guesses,
        steps,
        &mut work.plays,
    )? {
        let never = top + 1;
        close(
            front,
            closing,
            dues,
            never,
            &mut work.plays,
            &mut work.moves,
        )?;
    }
    Ok(())
}

// The next closing of the filling, or `None` where no link is over up to the top.
fn next_guessed<V: GroupValues, L: Ledger, P: Ledger>(
    alloc: Global,
    front: &Front<V>,
    known: &[ValueAt],
    dues: &mut Winners,
    top: u64,
    guesses: &mut Guesses,
    steps: &mut Steps<L>,
    plays: &mut Steps<P>,
) -> Result<Option<Closing>, OutOfMemory>
    requires front { IsFront V.meaning front.now }
    requires right { AreRight (wan_in V.meaning front.now) (closings_in front.now) }
    requires known { AreKnown (wan_in V.meaning front.now) known.now }
    requires top { top ≡ (wan_in V.meaning front.now).top }
    requires dues { AreDues (wan_in V.meaning front.now) (closings_in front.now) dues.old }
    ensures dues { OnOk result
        (AreDues (wan_in V.meaning front.now) (closings_in front.now) dues.new) }
    ensures next { IfOk result
        (IsNextClosing (wan_in V.meaning front.now) (closings_in front.now) dues.new) }
{
    while let Some(found) = dues.least(top) {
        let link = found.link;
        let due = dues.due(link);
        if due.over == due.share + 1 {
            let share = due.share;
            return Ok(Some(Closing { link, share }));
        }
        let enough = due.share.max(found.beside);
        let guess = guesses.guess(link, due, front.closings(), top);
        let terms = front.terms_on(alloc, link, known)?;
        let looked = searched(front, &terms, link, due, top, enough, guess, steps);
        guesses.add(link, looked, front.closings());
        dues.set(link, looked, plays);
    }
    Ok(None)
}

// What is known of a link after some looks, of which the first is at the guess: it is known at
// which share it is over first, or it fits at a share above `enough`.
//
// Behind a guess that is wrong it looks where the line through two loads comes to the capacity:
// after a few changed demands a link is due near its guess, and its load rises about evenly there.
fn searched<V: GroupValues, L: Ledger>(
    front: &Front<V>,
    terms: &[Term],
    link: u32,
    due: Due,
    top: u64,
    enough: u64,
    guess: u64,
    steps: &mut Steps<L>,
) -> Due
    requires front { IsFront V.meaning front.now }
    requires link { link < length (wan_in V.meaning front.now).capacities }
    requires terms { AreTermsOn (wan_in V.meaning front.now) (closings_in front.now)
        (added_in front.now) link terms.now }
    requires last { last_share (closings_in front.now) ≤ due.share }
    requires below { due.share < top }
    requires top { top ≡ (wan_in V.meaning front.now).top }
    requires unknown { due.share + 1 < due.over }
    requires over { due.over ≤ top
        → is_over_at (wan_in V.meaning front.now) (closings_in front.now) due.over link ≡ true }
    requires enough { due.share ≤ enough }
    ensures { IsLooked (wan_in V.meaning front.now) (closings_in front.now) link due result }
{
    if let Some(found) = due_of_one(front, terms, link, due.share, due.over.min(top), steps) {
        return found;
    }
    let enough = reach(terms, enough, top);
    let capacity = front.growth.capacity(link) as u128;
    let mut low = due.share;
    let mut high = due.over.min(top + 1);
    let mut low_load = due.low_load;
    let mut over_load = due.over_load;
    let aiming = Aiming {
        first: due,
        capacity,
        top,
        is_guided: guess < top,
    };
    let mut aim = guess;
    let mut looks: u64 = 0;
    while high - low > 1 && low <= enough {
        let middle = between(low, high, aim);
        let load = load_within(front, terms, link, middle, capacity, steps);
        looks = looks.saturating_add(1);
        if load > capacity {
            high = middle;
            over_load = load;
            aim = aiming.next(looks, low, low_load, middle, load);
        } else {
            low = middle;
            low_load = load;
            aim = aiming.next(looks, middle, load, high, over_load);
        }
    }
    Due {
        share: low,
        over: high,
        low_load,
        over_load,
    }
}

// By what a search picks its next look: what was known of the link before its first one, the
// capacity and the top, and whether the first look was at a guess.
#[derive(Clone, Copy)]
struct Aiming {
    first: Due,
    capacity: u128,
    top: u64,
    is_guided: bool,
}

impl Aiming {
    // The share at which to look next, where a link fits at the one share and is over at the other,
    // or not known to be where that is above the top. It is a guess, and no clause is needed.
    //
    // Where some looks have not come to the end, loads bend, and every other look is in the middle.
    fn next(&self, looks: u64, low: u64, low_load: u128, high: u64, over_load: u128) -> u64 {
        if !self.is_guided || looks > MOST_AIMS && looks % 2 == 0 {
            return NO_AIM;
        }
        if high > self.top {
            return self.beyond(looks, low, low_load);
        }
        crossing(low, low_load, high, over_load, self.capacity)
            .max(low.saturating_add(1))
            .min(high.saturating_sub(1))
    }

    // The share above a guess at which the link fits: a link that is due as it was is over there.
    // Where it is not, a little beyond the line through the link's loads.
    fn beyond(&self, looks: u64, low: u64, low_load: u128) -> u64 {
        if looks <= 1 {
            return low.saturating_add(1);
        }
        let first = self.first;
        let there = crossing(first.share, first.low_load, low, low_load, self.capacity);
        let ahead = there.saturating_sub(low);
        there.saturating_add(ahead / 4).saturating_add(1)
    }
}

// The last share at which the line through the loads at two shares is within the capacity, or no aim
// where it does not rise.
fn crossing(low: u64, low_load: u128, high: u64, high_load: u128, capacity: u128) -> u64 {
    let room = capacity.saturating_sub(low_load);
    let rise = high_load.saturating_sub(low_load);
    let shares = high.saturating_sub(low) as u128;
    match room.saturating_mul(shares).checked_div(rise) {
        Some(steps) => low.saturating_add(u64::try_from(steps).unwrap_or(u64::MAX)),
        None => NO_AIM,
    }
}

// The share, where it is between the two, and else the one in the middle.
fn between(low: u64, high: u64, share: u64) -> u64
    requires { low + 1 < high }
    ensures above { low < result }
    ensures below { result < high }
{
    if low < share && share < high {
        share
    } else {
        low + (high - low) / 2
    }
}
