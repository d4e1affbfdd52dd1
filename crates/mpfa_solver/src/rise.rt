//! The search for the next share at which a link closes.

ghost use Rattle.std.specs.Prelude.{◌≡◌, ℕ, ◌+◌, ◌*◌, ◌^◌, ◌<◌, ◌≤◌, List, [], true, false, length, IfOk, OnOk, OnErr};
ghost use Rattle.mono_search.specs.Level.{Falls, IsGreatestFit};
ghost use Rattle.bwe_specs.specs.declared.network.Closing.{Closing};
ghost use Rattle.bwe_specs.specs.Filling.{Wan};
ghost use Rattle.mpfa_fill.specs.Moment.{IsMoment, wan_in, state_of};
ghost use Rattle.mpfa_solver.specs.Search.{fits_from, no_wan, IsRise, IsBound, Tells, AreLinks};

use bwe_specs::OutOfMemory;
use mono_search::{Level, Steps, greatest_fit};
use mpfa_fill::{GroupValues, Moment};
use std::alloc::Global;
use std::marker::{Brand, Model, PhantomData};
use std::sync::ledger::Ledger;

/// How many looks `greatest_fit` makes at most.
const SEARCH: u64 = 60;

/// Which search it is: what is filled, the closings that stand meanwhile, and the share that it
/// begins at. Each call picks its own.
pub trait Search {
    ghost wan: { Wan };

    ghost closings: { List Closing };

    ghost low: { ℕ };
}

impl Search for Brand {
    ghost wan = { no_wan };

    ghost closings = { [] };

    ghost low = { 0 };
}

/// What one search leaves to the next. It bears on the number of tests alone.
#[derive(Drop)]
pub(crate) struct Notes {
    /// The links that failed tests named, the last one at the end. Some may have closed since.
    pub(crate) named: Vec<u32>,
    /// How many tests are left: 62 for each search so far, less those that were made.
    pub(crate) left: u64,
}

// A moment on its way from a share to the top. It stands at the share that was tested last.
#[derive(Drop)]
struct Rise<'a, V: GroupValues, S: Search> {
    moment: Moment<'a, V>,
    low: u64,
    top: u64,
    search: PhantomData<S>,
}

impl<'a, V: GroupValues, S: Search> Model for Rise<'a, V, S> {
    ghost Value = { ℕ };

    ghost view = { λ rise. rise.low };

    ghost invariant = { λ rise.
        IsRise V.meaning S.wan S.closings S.low rise.moment rise.low rise.top };
}

impl<V: GroupValues, S: Search> Level for Rise<'_, V, S> {
    ghost meaning = { λ rise share. fits_from S.wan S.closings S.low share };

    fn fits<L: Ledger>(&mut self, share: u64, steps: &mut Steps<L>) -> bool {
        steps.tick();
        if share <= self.low {
            return true;
        }
        if share > self.top {
            return false;
        }
        self.moment.go_to(share);
        self.moment.first_over().is_none()
    }
}

// Takes a moment to the greatest share up to the top at which every link fits under its closings.
//
// It tests at a bound above which nothing fits. A failed test names a link that is over, and the
// greatest share at which that link by itself fits is the next bound. Where so many tests fail that
// those left would not do for a search by halves, that search has the rest.
pub(crate) fn risen<'a, V: GroupValues, S: Search, L: Ledger>(
    alloc: Global,
    moment: Moment<'a, V>,
    top: u64,
    hint: u64,
    notes: &mut Notes,
    steps: &mut Steps<L>,
) -> Result<Moment<'a, V>, OutOfMemory>
    requires search { IsRise V.meaning S.wan S.closings S.low moment (state_of moment).share top }
    requires hint_from { (state_of moment).share ≤ hint }
    requires hint_upto { hint ≤ top }
    requires named { AreLinks S.wan notes.old.named.items }
    requires left { 62 ≤ notes.old.left }
    ensures moment { IfOk result (IsMoment V.meaning) }
    ensures wan { IfOk result (λ next. wan_in V.meaning next ≡ S.wan) }
    ensures closings { IfOk result (λ next. (state_of next).closings ≡ S.closings) }
    ensures answer { IfOk result (λ next.
        IsGreatestFit (fits_from S.wan S.closings S.low) S.low S.wan.top (state_of next).share) }
    ensures named { OnOk result (AreLinks S.wan notes.new.named.items) }
    ensures ticks { steps.new + notes.new.left ≤ steps.old + notes.old.left }
    ensures right_hint { IsGreatestFit (fits_from S.wan S.closings S.low) S.low S.wan.top hint
        → steps.new ≤ steps.old + 2 }
{
    let low = moment.share();
    let mut moment = moment;
    let mut bound = first_bound::<V, S, L>(alloc, &mut moment, low, top, hint, notes, steps)?;
    while low < bound && notes.left > SEARCH {
        match test_at::<V, S, L>(alloc, &mut moment, low, top, bound, notes, steps)? {
            None => return Ok(moment),
            Some(lower) => bound = lower,
        }
    }
    if low < bound {
        notes.left -= SEARCH;
        return Ok(risen_by_halves::<V, S, L>(moment, low, top, bound, steps));
    }
    // Nothing fits above `low`, where the filling stood when the search began.
    moment.go_to(low);
    Ok(moment)
}

// The first bound of a search: from the share after the hint, or else from the links that were
// named before.
fn first_bound<V: GroupValues, S: Search, L: Ledger>(
    alloc: Global,
    moment: &mut Moment<V>,
    low: u64,
    top: u64,
    hint: u64,
    notes: &mut Notes,
    steps: &mut Steps<L>,
) -> Result<u64, OutOfMemory>
    requires rise { IsRise V.meaning S.wan S.closings S.low moment.old low top }
    requires hint_from { low ≤ hint }
    requires hint_upto { hint ≤ top }
    requires named { AreLinks S.wan notes.old.named.items }
    requires left { 62 ≤ notes.old.left }
    ensures rise { OnOk result (IsRise V.meaning S.wan S.closings S.low moment.new low top) }
    ensures bound { IfOk result (IsBound (fits_from S.wan S.closings S.low) S.low S.wan.top) }
    ensures right_hint { IfOk result (λ bound.
        IsGreatestFit (fits_from S.wan S.closings S.low) S.low S.wan.top hint → bound ≡ hint) }
    ensures named { OnOk result (AreLinks S.wan notes.new.named.items) }
    ensures left { 61 ≤ notes.new.left }
    ensures few { steps.new ≤ steps.old + 1 }
    ensures ticks { steps.new + notes.new.left ≡ steps.old + notes.old.left }
{
    if hint < top
        && let Some(bound) = test_at::<V, S, L>(alloc, moment, low, top, hint + 1, notes, steps)?
    {
        return Ok(bound);
    }
    Ok(named_bound::<V, S>(alloc, moment, low, top, notes)?)
}

// The bound by the link that was named last of those that are over somewhere up to the top. The
// others are forgotten.
fn named_bound<V: GroupValues, S: Search>(
    alloc: Global,
    moment: &Moment<V>,
    low: u64,
    top: u64,
    notes: &mut Notes,
) -> Result<u64, OutOfMemory>
    requires rise { IsRise V.meaning S.wan S.closings S.low moment.now low top }
    requires named { AreLinks S.wan notes.old.named.items }
    ensures bound { IfOk result (IsBound (fits_from S.wan S.closings S.low) S.low S.wan.top) }
    ensures named { OnOk result (AreLinks S.wan notes.new.named.items) }
    ensures left { notes.new.left ≡ notes.old.left }
{
    while let Some(link) = notes.named.pop() {
        let bound = bound_by::<V, S>(alloc, moment, low, link, top)?;
        if bound < top {
            notes.named.push(link)?;
            return Ok(bound);
        }
    }
    Ok(top)
}

// Tests at a share. Where it fails, the bound by the link that is named.
fn test_at<V: GroupValues, S: Search, L: Ledger>(
    alloc: Global,
    moment: &mut Moment<V>,
    low: u64,
    top: u64,
    share: u64,
    notes: &mut Notes,
    steps: &mut Steps<L>,
) -> Result<Option<u64>, OutOfMemory>
    requires rise { IsRise V.meaning S.wan S.closings S.low moment.old low top }
    requires above { low < share }
    requires within { share ≤ top }
    requires named { AreLinks S.wan notes.old.named.items }
    requires left { 1 ≤ notes.old.left }
    ensures rise { OnOk result (IsRise V.meaning S.wan S.closings S.low moment.new low top) }
    ensures share { OnOk result ((state_of moment.new).share ≡ share) }
    ensures tested { IfOk result (Tells (fits_from S.wan S.closings S.low) S.low S.wan.top share) }
    ensures fails { OnErr result (fits_from S.wan S.closings S.low share ≡ false) }
    ensures named { OnOk result (AreLinks S.wan notes.new.named.items) }
    ensures left { notes.new.left + 1 ≡ notes.old.left }
    ensures ticks { steps.new ≡ steps.old + 1 }
{
    notes.left -= 1;
    steps.tick();
    moment.go_to(share);
    let Some(link) = moment.first_over() else {
        return Ok(None);
    };
    notes.named.push(link)?;
    Ok(Some(bound_by::<V, S>(alloc, moment, low, link, share - 1)?))
}

// A bound that is no higher: the greatest share up to a bound at which the link by itself fits.
fn bound_by<V: GroupValues, S: Search>(
    alloc: Global,
    moment: &Moment<V>,
    low: u64,
    link: u32,
    high: u64,
) -> Result<u64, OutOfMemory>
    requires rise { IsRise V.meaning S.wan S.closings S.low moment.now low S.wan.top }
    requires link { link < length S.wan.capacities }
    requires high { IsBound (fits_from S.wan S.closings S.low) S.low S.wan.top high }
    ensures bound { IfOk result (IsBound (fits_from S.wan S.closings S.low) S.low S.wan.top) }
    ensures lower { IfOk result (λ bound. bound ≤ high) }
{
    Ok(moment.last_fit(alloc, link, low, high)?)
}

// The same search by `greatest_fit`, up to a bound.
fn risen_by_halves<'a, V: GroupValues, S: Search, L: Ledger>(
    moment: Moment<'a, V>,
    low: u64,
    top: u64,
    bound: u64,
    steps: &mut Steps<L>,
) -> Moment<'a, V>
    requires rise { IsRise V.meaning S.wan S.closings S.low moment low top }
    requires bound { IsBound (fits_from S.wan S.closings S.low) S.low S.wan.top bound }
    ensures moment { IsMoment V.meaning result }
    ensures wan { wan_in V.meaning result ≡ S.wan }
    ensures closings { (state_of result).closings ≡ S.closings }
    ensures answer { IsGreatestFit (fits_from S.wan S.closings S.low) S.low S.wan.top
        (state_of result).share }
    ensures ticks { steps.new ≤ steps.old + 60 }
{
    let mut rise: Rise<V, S> = Rise {
        moment,
        low,
        top,
        search: PhantomData,
    };
    let share = greatest_fit(&mut rise, low, bound, bound, steps);
    let Rise { mut moment, .. } = rise;
    moment.go_to(share);
    moment
}
