//! All fillings on the same networks, and how often the one by jumps tests.

ghost use Rattle.std.specs.Prelude.{◌≡◌, ◌<◌};

use crate::{
    Case, Numbers, Size, Slope, Slopes, case_of, from_to, link, made_groups, made_links,
    made_slopes, one_path,
};
use bottleneck_cert::{Verdict, check};
use bwe_specs::{GroupSpec, OutOfMemory};
use link_solver::solve_by_links;
use mono_search::Steps;
use mpfa_fill::{Closing, Filling};
use mpfa_solver::solve;
use std::alloc::{AllocError, Global};
use std::marker::Brand;
use std::process::Abort;
use std::sync::ledger::{Blank, Ledger};
use std::test::Fail;
use step_filling::fill_by_steps;
use wan_topology::{LinkSpec, Topology};

// The filling by jumps, on a counter of its own.
fn solved<L: Ledger>(
    alloc: Global,
    case: &Case,
    hints: &[Closing],
    blank: Blank,
) -> Result<Filling, OutOfMemory>
    requires name { blank.name ≡ L.name }
    requires parts { blank.parts ≡ L.parts }
    requires some { 0 < L.parts }
{
    let mut steps: Steps<L> = Steps::new(blank);
    solve(
        alloc,
        &case.values,
        &case.topology,
        &case.plan,
        hints,
        &mut steps,
    )
}

// The filling by jumps from the hints, and at most how many tests it made, where the last group is
// alone on a link that is never over. The counter of the tests is one that no code can read, so the
// moves of the whole filling are counted: each test is one, and each closing takes two more, to the
// next share and back.
fn solved_from(
    alloc: Global,
    case: &Case,
    hints: &[Closing],
) -> Result<(Filling, u64), OutOfMemory> {
    let before = case.values.asked();
    let filling = solved::<Brand>(alloc, case, hints, Blank::new(1))?;
    let moves = case.values.asked().saturating_sub(before);
    let closings = filling.closings.len() as u64;
    Ok((filling, moves.saturating_sub(closings.saturating_mul(2))))
}

// Whether both fillings have the same closings, amounts and stop shares.
fn are_equal(filling: &Filling, other: &Filling) -> bool {
    filling.closings.as_slice() == other.closings.as_slice()
        && filling.shares.as_slice() == other.shares.as_slice()
        && filling.amounts.len() == other.amounts.len()
        && filling
            .amounts
            .iter()
            .zip(other.amounts.iter())
            .all(|(row, other)| row.as_slice() == other.as_slice())
}

// Whether the check says Right of these closings, and of none that differ from them in one share,
// by one.
fn are_right_alone(alloc: Global, case: &Case, closings: &[Closing]) -> Result<bool, OutOfMemory> {
    for place in 0..closings.len() {
        let mut moved = Vec::from_slice(alloc, closings)?;
        if let Some(closing) = moved.get_mut(place) {
            closing.share = closing.share.wrapping_add(1);
        }
        if check(alloc, &case.values, &case.topology, &case.plan, &moved)? == Verdict::Right {
            return Ok(false);
        }
    }
    Ok(check(alloc, &case.values, &case.topology, &case.plan, closings)? == Verdict::Right)
}

// A network that follows from a number.
fn made(rt: &impl Abort, alloc: Global, size: Size, seed: u64) -> Result<Case, Fail> {
    let mut numbers = Numbers::following(seed);
    let topology = Topology::build(alloc, made_links(alloc, size, &mut numbers)?)?;
    let groups = made_groups(alloc, size, &mut numbers)?;
    let slopes = made_slopes(alloc, size, &mut numbers)?;
    Ok(case_of(alloc, topology, groups, slopes)?.expect(rt, "in range"))
}

// The links of the case Lowest link first, and one more that is never over.
fn lowest_first_links(alloc: Global) -> Result<Vec<LinkSpec>, AllocError> {
    let mut links = Vec::new(alloc);
    for (name, from, to, capacity) in [
        ("l0", "a", "b", 11),
        ("l1", "a", "m", 10),
        ("l2", "m", "b", 21),
        ("alone", "a", "b", 100),
    ] {
        links.push(link(alloc, name, from, to, capacity)?)?;
    }
    Ok(links)
}

// The groups of that case, and one more, alone on the link that is never over.
fn lowest_first_groups(alloc: Global) -> Result<Vec<GroupSpec>, AllocError> {
    let first = vec![in alloc; one_path(alloc, &[1, 2])?, one_path(alloc, &[0])?]?;
    let mut groups = Vec::new(alloc);
    groups.push(from_to(alloc, "a", "b", first)?)?;
    for (from, over) in [("m", 2), ("a", 0), ("a", 3)] {
        let alone = vec![in alloc; one_path(alloc, &[over])?]?;
        groups.push(from_to(alloc, from, "b", alone)?)?;
    }
    Ok(groups)
}

// The case Lowest link first, with one group more, alone on a link that is never over.
fn lowest_link_first(rt: &impl Abort, alloc: Global) -> Result<Case, Fail> {
    let topology = Topology::build(alloc, lowest_first_links(alloc)?)?;
    let groups = lowest_first_groups(alloc)?;
    let slope = Slope {
        rise: 1,
        demand: 100,
        again: 100,
    };
    let slopes = Slopes::new(100, vec![in alloc; slope; 4]?);
    Ok(case_of(alloc, topology, groups, slopes)?.expect(rt, "in range"))
}

// Whether the filling by jumps from the hints is this one.
fn is_solved_alike(
    alloc: Global,
    case: &Case,
    hints: &[Closing],
    filling: &Filling,
) -> Result<bool, OutOfMemory> {
    let (solved, _) = solved_from(alloc, case, hints)?;
    Ok(are_equal(&solved, filling))
}

// Whether the filling by links is this one.
fn is_linked_alike(alloc: Global, case: &Case, filling: &Filling) -> Result<bool, OutOfMemory> {
    let linked = solve_by_links(alloc, &case.values, &case.topology, &case.plan)?;
    Ok(are_equal(&linked, filling))
}

// Whether the filling by links is this one, and that by jumps without hints, from these and from
// its own closings; and the check says Right of its closings alone.
fn all_agree(
    alloc: Global,
    case: &Case,
    hints: &[Closing],
    filling: &Filling,
) -> Result<bool, OutOfMemory> {
    let right = filling.closings.as_slice();
    Ok(
        is_linked_alike(alloc, case, filling)?
            && is_solved_alike(alloc, case, &[], filling)?
            && is_solved_alike(alloc, case, hints, filling)?
            && is_solved_alike(alloc, case, right, filling)?
            && are_right_alone(alloc, case, right)?,
    )
}

// The closings of the filling by steps, where all others agree with it.
fn agreed_closings(
    alloc: Global,
    case: &Case,
    hints: &[Closing],
) -> Result<Option<Vec<Closing>>, OutOfMemory> {
    let stepped = fill_by_steps(alloc, &case.values, &case.topology, &case.plan)?;
    if all_agree(alloc, case, hints, &stepped)? {
        Ok(Some(stepped.closings))
    } else {
        Ok(None)
    }
}

// Whether the filling by jumps from no hint is that by links, which has more closings than these,
// and took under three tests a closing.
fn takes_few_tests(alloc: Global, case: &Case, fewer: usize) -> Result<bool, OutOfMemory> {
    let (solved, tests) = solved_from(alloc, case, &[])?;
    let closings = solved.closings.len();
    Ok(
        fewer < closings
            && tests < (closings as u64).saturating_mul(3)
            && is_linked_alike(alloc, case, &solved)?,
    )
}

// Whether the filling by jumps from no hint closes a link, and is that by links.
fn both_agree(alloc: Global, case: &Case) -> Result<bool, OutOfMemory> {
    let (solved, _) = solved_from(alloc, case, &[])?;
    Ok(!solved.closings.is_empty() && is_linked_alike(alloc, case, &solved)?)
}

// Whether the filling by steps closes as the case Lowest link first says, and that by jumps does so
// from the hints of the case Useless hints, which name other links and shares.
fn closes_lowest_first(alloc: Global, case: &Case) -> Result<bool, OutOfMemory> {
    let closings = [
        Closing { link: 1, share: 10 },
        Closing { link: 0, share: 10 },
        Closing { link: 2, share: 11 },
    ];
    let useless = [
        Closing { link: 2, share: 99 },
        Closing { link: 9, share: 0 },
    ];
    let stepped = fill_by_steps(alloc, &case.values, &case.topology, &case.plan)?;
    Ok(
        stepped.closings.as_slice() == closings.as_slice()
            && stepped.shares.as_slice() == [10, 11, 10, 100].as_slice()
            && is_linked_alike(alloc, case, &stepped)?
            && is_solved_alike(alloc, case, &useless, &stepped)?,
    )
}

#[test]
fn the_lowest_link_is_closed_first(rt: HostRuntime) -> Result<(), Fail> {
    let alloc = rt.alloc();
    let case = lowest_link_first(&rt, alloc)?;
    assert!(rt; closes_lowest_first(alloc, &case)? && takes_few_tests(alloc, &case, 2)?);
    Ok(())
}

// Small networks made by the numbers from 0 on, each solved by links, and by jumps without hints,
// from the hints of the network before, and from its own closings. The check says Right of those
// closings alone.
#[test]
fn all_fillings_agree(rt: HostRuntime) -> Result<(), Fail> {
    let alloc = rt.alloc();
    let size = Size {
        side: 3,
        groups: 5,
        capacity: 60,
        demand: 80,
        top: 40,
    };
    let mut before: Vec<Closing> = Vec::new(alloc);
    for seed in 0..300 {
        let case = made(&rt, alloc, size, seed)?;
        before = agreed_closings(alloc, &case, &before)?.expect(&rt, "all agree");
    }
    Ok(())
}

// Networks with links of up to 10^12 and a top share of 10^9, which no stepping reaches.
#[test]
fn both_solvers_agree_on_wide_links(rt: HostRuntime) -> Result<(), Fail> {
    let alloc = rt.alloc();
    let size = Size {
        side: 3,
        groups: 900,
        capacity: 1_000_000_000_000,
        demand: 4_000_000_000,
        top: 1_000_000_000,
    };
    for seed in 0..3 {
        let case = made(&rt, alloc, size, seed)?;
        assert!(rt; both_agree(alloc, &case)?, "at {seed}");
    }
    Ok(())
}

// Made networks of 401 links and 301 groups, in which some 190 links close.
#[test]
fn a_made_network_takes_under_three_tests_a_closing(rt: HostRuntime) -> Result<(), Fail> {
    let alloc = rt.alloc();
    let size = Size {
        side: 200,
        groups: 300,
        capacity: 5_000,
        demand: 1_000_000,
        top: 10_000,
    };
    for seed in 0..3 {
        let case = made(&rt, alloc, size, seed)?;
        assert!(rt; takes_few_tests(alloc, &case, 150)?, "at {seed}");
    }
    Ok(())
}
