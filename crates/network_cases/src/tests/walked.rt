//! The walk over closings sees those of the filling.

ghost use Rattle.std.specs.Prelude.{◌≡◌, ◌<◌};

use crate::{Case, Numbers, Size, case_of, made_groups, made_links, made_slopes};
use bwe_specs::OutOfMemory;
use closing_walk::seen_right;
use link_solver::solve_by_links;
use mono_search::Steps;
use mpfa_fill::Closing;
use std::alloc::Global;
use std::marker::Brand;
use std::process::Abort;
use std::sync::ledger::{Blank, Ledger};
use std::test::Fail;
use step_filling::fill_by_steps;
use wan_topology::Topology;

// Whether the closings are seen to be right, on a counter of its own.
fn seen<L: Ledger>(
    alloc: Global,
    case: &Case,
    closings: &[Closing],
    blank: Blank,
) -> Result<bool, OutOfMemory>
    requires name { blank.name ≡ L.name }
    requires parts { blank.parts ≡ L.parts }
    requires some { 0 < L.parts }
{
    let mut steps: Steps<L> = Steps::new(blank);
    seen_right(
        alloc,
        &case.values,
        &case.topology,
        &case.plan,
        closings,
        &mut steps,
    )
}

fn is_seen(alloc: Global, case: &Case, closings: &[Closing]) -> Result<bool, OutOfMemory> {
    seen::<Brand>(alloc, case, closings, Blank::new(1))
}

// A network that follows from a number.
fn made(rt: &impl Abort, alloc: Global, size: Size, seed: u64) -> Result<Case, Fail> {
    let mut numbers = Numbers::following(seed);
    let topology = Topology::build(alloc, made_links(alloc, size, &mut numbers)?)?;
    let groups = made_groups(alloc, size, &mut numbers)?;
    let slopes = made_slopes(alloc, size, &mut numbers)?;
    Ok(case_of(alloc, topology, groups, slopes)?.expect(rt, "in range"))
}

// Whether none of the lists is seen that differ from these closings at one index.
fn no_other_is_seen(alloc: Global, case: &Case, closings: &[Closing]) -> Result<bool, OutOfMemory> {
    for place in 0..closings.len() {
        let mut higher = Vec::from_slice(alloc, closings)?;
        if let Some(closing) = higher.get_mut(place) {
            closing.share = closing.share.wrapping_add(1);
        }
        let mut lower = Vec::from_slice(alloc, closings)?;
        if let Some(closing) = lower.get_mut(place) {
            closing.share = closing.share.saturating_sub(1);
        }
        let mut other = Vec::from_slice(alloc, closings)?;
        if let Some(closing) = other.get_mut(place) {
            closing.link = closing.link.wrapping_add(1);
        }
        let shorter = Vec::from_slice(alloc, &closings[..place])?;
        if is_seen(alloc, case, &higher)?
            || (lower.as_slice() != closings && is_seen(alloc, case, &lower)?)
            || is_seen(alloc, case, &other)?
            || is_seen(alloc, case, &shorter)?
        {
            return Ok(false);
        }
    }
    Ok(true)
}

#[test]
fn small_fillings_are_seen(rt: HostRuntime) -> Result<(), Fail> {
    let alloc = rt.alloc();
    for seed in 0..300 {
        let size = Size {
            side: 3,
            groups: 5,
            capacity: 60,
            demand: 80,
            top: 40,
        };
        let case = made(&rt, alloc, size, seed)?;
        let stepped = fill_by_steps(alloc, &case.values, &case.topology, &case.plan)?;
        assert!(rt; is_seen(alloc, &case, &stepped.closings)?, "at {seed}");
        assert!(rt;
            no_other_is_seen(alloc, &case, &stepped.closings)?,
            "at {seed}"
        );
    }
    Ok(())
}

// Small shares, where many links close at the same one.
#[test]
fn fillings_of_few_shares_are_seen(rt: HostRuntime) -> Result<(), Fail> {
    let alloc = rt.alloc();
    for seed in 0..300 {
        let size = Size {
            side: 6,
            groups: 12,
            capacity: 12,
            demand: 30,
            top: 6,
        };
        let case = made(&rt, alloc, size, seed)?;
        let stepped = fill_by_steps(alloc, &case.values, &case.topology, &case.plan)?;
        assert!(rt; is_seen(alloc, &case, &stepped.closings)?, "at {seed}");
        assert!(rt;
            no_other_is_seen(alloc, &case, &stepped.closings)?,
            "at {seed}"
        );
    }
    Ok(())
}

#[test]
fn larger_fillings_are_seen(rt: HostRuntime) -> Result<(), Fail> {
    let alloc = rt.alloc();
    for seed in 0..3 {
        let size = Size {
            side: 200,
            groups: 300,
            capacity: 5_000,
            demand: 1_000_000,
            top: 10_000,
        };
        let case = made(&rt, alloc, size, seed)?;
        let solved = solve_by_links(alloc, &case.values, &case.topology, &case.plan)?;
        assert!(rt; 150 < solved.closings.len(), "at {seed}");
        assert!(rt; is_seen(alloc, &case, &solved.closings)?, "at {seed}");
    }
    Ok(())
}
