//! How a group stands under the closings so far.

ghost use Rattle.std.specs.Prelude.{◌≡◌, ◌<◌, [], length, map, slice_index_or, IfOk, OnOk};
ghost use Rattle.std.specs.List.{list_any};
ghost use Rattle.bwe_specs.specs.Paths.{path_group_at, path_group_count, uses, current_path_group as path_group_under};
ghost use Rattle.bwe_specs.specs.Filling.{closed_links};
ghost use Rattle.bwe_specs.specs.Reports.{numbers};
ghost use Rattle.path_groups.specs.Plan.{IsPlan};
ghost use Rattle.mpfa_fill.specs.Standing.{standing_of, standing_under, IsPlaced, stop_of};

use crate::closings::Closings;
use bwe_specs::{Closing, OutOfMemory};
use path_groups::PathPlan;
use std::alloc::Global;

/// Where a group grows and its value at the share, or the share at which it stopped.
#[derive(Clone, Copy)]
pub enum Standing {
    Grows { place: u32, value: u64 },
    Stopped { share: u64 },
}

/// How each group stands at first: on its first path group, with nothing.
pub(crate) fn first_standings(
    alloc: Global,
    plan: &PathPlan,
    closings: &Closings,
) -> Result<Vec<Standing>, OutOfMemory>
    requires { closings.now ≡ [] }
    ensures plan { OnOk result (IsPlan plan.now) }
    ensures standings { IfOk result (λ standings. standings.items
        ≡ map (λ group. standing_of (path_group_under (slice_index_or plan.now group []) []) 0 0)
        (numbers (length plan.now))) }
{
    let mut standings = Vec::new(alloc);
    for group in 0..plan.groups() {
        standings.push(standing_on(current_path_group(plan, group, closings), 0, 0))?;
    }
    Ok(standings)
}

/// How a group stands after one more closing, the last of these.
pub(crate) fn standing_after(
    plan: &PathPlan,
    group: u32,
    closings: &Closings,
    closing: Closing,
    standing: Standing,
) -> Standing
    requires group { group < length plan.now }
    requires placed { IsPlaced plan.now group standing }
    ensures { result ≡ standing_under plan.now group (closed_links closings.now) closing standing }
{
    match standing {
        Standing::Grows { place, value } => {
            if plan.uses(group, place, closing.link) {
                standing_on(
                    current_path_group(plan, group, closings),
                    value,
                    closing.share,
                )
            } else {
                standing
            }
        }
        Standing::Stopped { .. } => standing,
    }
}

// How a group stands that has so much, on this path group or stopped at the share.
fn standing_on(current: Option<u32>, value: u64, share: u64) -> Standing
    ensures { result ≡ standing_of current value share }
{
    match current {
        Some(place) => Standing::Grows { place, value },
        None => Standing::Stopped { share },
    }
}

// The path group on which the group grows under these closings.
fn current_path_group(plan: &PathPlan, group: u32, closings: &Closings) -> Option<u32>
    requires { group < length plan.now }
    ensures { result
        ≡ path_group_under (slice_index_or plan.now group []) (closed_links closings.now) }
{
    for place in 0..plan.places(group) {
        if !uses_closed(plan, group, place, closings) {
            return Some(place);
        }
    }
    None
}

/// Whether the path group uses a link that was closed.
pub(crate) fn uses_closed(plan: &PathPlan, group: u32, place: u32, closings: &Closings) -> bool
    requires group { group < length plan.now }
    requires place { place < path_group_count plan.now group }
    ensures { result
        ≡ list_any (λ closing. uses (path_group_at plan.now group place) closing.link)
        closings.now }
{
    for part in plan.parts(group, place) {
        if closings.is_closed(part.link) {
            return true;
        }
    }
    false
}

/// The stop shares, where a group that still grows stops at the top.
pub(crate) fn stop_shares(
    alloc: Global,
    standings: &[Standing],
    top: u64,
) -> Result<Vec<u64>, OutOfMemory>
    ensures { IfOk result (λ shares. shares.items ≡ map (stop_of top) standings.now) }
{
    let shares = standings
        .iter()
        .map(|standing| stop_share(*standing, top))
        .collect(alloc)?;
    Ok(shares)
}

// The stop share of a group.
fn stop_share(standing: Standing, top: u64) -> u64
    ensures { result ≡ stop_of top standing }
{
    match standing {
        Standing::Grows { .. } => top,
        Standing::Stopped { share } => share,
    }
}
