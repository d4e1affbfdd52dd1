//! Made networks: links from a to m and from m to b, and groups from a to b over any of them.

ghost use Rattle.std.specs.Prelude.{◌≡◌, ◌+◌, ◌<◌, ◌≤◌, length, IfOk};

use crate::numbers::Numbers;
use crate::slopes::{Slope, Slopes};
use bwe_specs::{GroupSpec, PathSpec};
use std::alloc::{AllocError, Global};
use wan_topology::LinkSpec;

/// How large a made network is. Capacities are below `capacity`, and demands below `demand`.
#[derive(Clone, Copy)]
pub struct Size {
    /// How many links go from a to m, and as many from m to b.
    pub side: u32,
    /// How many groups there are, beside the last one, which is alone on its link.
    pub groups: u32,
    pub capacity: u64,
    pub demand: u64,
    pub top: u64,
    ghost some_links: { 1 ≤ side },
    ghost few_links: { side ≤ 1_000 },
    ghost few_groups: { groups < 1_000 },
    ghost some_capacity: { 1 ≤ capacity },
    ghost some_demand: { 1 ≤ demand },
    ghost some_share: { 1 ≤ top },
    ghost small: { top ≤ 1_000_000_000 },
}

/// The links: those from a to m, those from m to b, and last one from a to b that is never over.
pub fn made_links(
    alloc: Global,
    size: Size,
    numbers: &mut Numbers,
) -> Result<Vec<LinkSpec>, AllocError> {
    let mut links = Vec::new(alloc);
    for number in 0..2 * size.side {
        let (from, to) = if number < size.side {
            ("a", "m")
        } else {
            ("m", "b")
        };
        let name = format!(in alloc; "l{number}")?;
        let capacity = numbers.below(size.capacity);
        links.push(link(alloc, name.as_str(), from, to, capacity)?)?;
    }
    links.push(link(alloc, "alone", "a", "b", 1_000_000_000_000)?)?;
    Ok(links)
}

/// A link by its name, where it starts and ends, and its capacity.
pub fn link(
    alloc: Global,
    name: &str,
    from: &str,
    to: &str,
    capacity: u64,
) -> Result<LinkSpec, AllocError> {
    Ok(LinkSpec {
        name: String::from_str(alloc, name)?,
        from: String::from_str(alloc, from)?,
        to: String::from_str(alloc, to)?,
        capacity,
    })
}

/// The groups. Each but the last has one to three path groups of one or two paths, each over two
/// links.
pub fn made_groups(
    alloc: Global,
    size: Size,
    numbers: &mut Numbers,
) -> Result<Vec<GroupSpec>, AllocError> {
    let mut groups = Vec::new(alloc);
    for _ in 0..size.groups {
        let mut places = Vec::new(alloc);
        for _ in 0..1 + numbers.below(3) {
            places.push(made_paths(alloc, size, numbers)?)?;
        }
        groups.push(from_to(alloc, "a", "b", places)?)?;
    }
    let alone = vec![in alloc; one_path(alloc, &[2 * size.side])?]?;
    groups.push(from_to(alloc, "a", "b", alone)?)?;
    Ok(groups)
}

/// How the groups rise. The last rises by one a share.
pub fn made_slopes(alloc: Global, size: Size, numbers: &mut Numbers) -> Result<Slopes, AllocError> {
    let mut slopes = Vec::new(alloc);
    for group in 0..size.groups {
        slopes.push(Slope {
            rise: numbers.below(5) as u32,
            demand: numbers.below(size.demand).min(4_000_000_000) as u32,
            again: numbers.below(size.top),
        })?;
    }
    slopes.push(Slope {
        rise: 1,
        demand: 1_000_000_000,
        again: size.top,
    })?;
    Ok(Slopes::new(size.top, slopes))
}

// The paths of one path group.
fn made_paths(
    alloc: Global,
    size: Size,
    numbers: &mut Numbers,
) -> Result<Vec<PathSpec>, AllocError> {
    let mut paths = Vec::new(alloc);
    let side = u64::from(size.side);
    for _ in 0..1 + numbers.below(2) {
        let first = numbers.below(side) as u32;
        let second = size.side + numbers.below(side) as u32;
        paths.push(path(alloc, 1 + numbers.below(3), &[first, second])?)?;
    }
    Ok(paths)
}

/// A path group of one path over these links.
pub fn one_path(alloc: Global, links: &[u32]) -> Result<Vec<PathSpec>, AllocError> {
    Ok(vec![in alloc; path(alloc, 1, links)?]?)
}

/// A path of this weight over these links.
pub fn path(alloc: Global, weight: u64, links: &[u32]) -> Result<PathSpec, AllocError> {
    Ok(PathSpec {
        weight,
        links: Vec::from_slice(alloc, links)?,
    })
}

/// A group from a site to another.
pub fn from_to(
    alloc: Global,
    from: &str,
    to: &str,
    places: Vec<Vec<PathSpec>>,
) -> Result<GroupSpec, AllocError> {
    Ok(GroupSpec {
        from: String::from_str(alloc, from)?,
        to: String::from_str(alloc, to)?,
        places,
    })
}
