//! How the amount on a path group is split over its links.

ghost use Rattle.std.specs.Prelude.{◌≡◌, ℕ, ◌+◌, ◌*◌, ◌^◌, ◌<◌, ◌≤◌, true, false, List, ◌∷◌, length, map, sum_by, Contains, IfOk, MatchOption};
ghost use Rattle.std.specs.Int.{div_ceil};
ghost use Rattle.bwe_specs.specs.Paths.{weight_of, weight_over, uses};
ghost use Rattle.bwe_specs.specs.Given.{path_of, weight_on};
ghost use Rattle.path_groups.specs.Parts.{IsPart, AreParts, HasPartToo, has_part as has_part_of};

use bwe_specs::{MAX_TOTAL, PathSpec};
use std::alloc::{AllocError, Global};

/// What one link carries of an amount on a path group: as much of it as `weight` is of `whole`.
#[derive(Clone, Copy)]
pub struct LinkPart {
    pub link: u32,
    /// The weights of the paths over the link, together.
    pub weight: u32,
    /// The weights of all paths of the path group, together.
    pub whole: u32,
}

impl LinkPart {
    /// The load that the amount puts on the link, rounded up ("Load rule", docs/DEFINITIONS.md).
    /// Kilobits per second.
    pub fn load(&self, amount: u64) -> u64
        requires part { IsPart self.now }
        requires amount { amount ≤ MAX_TOTAL }
        ensures load { result ≡ div_ceil (amount * self.now.weight) self.now.whole }
        ensures at_most { result ≤ amount }
    {
        if self.weight == self.whole {
            return amount;
        }
        match amount.checked_mul(self.weight as u64) {
            Some(product) => product.div_ceil(self.whole as u64),
            None => (amount as u128 * self.weight as u128).div_ceil(self.whole as u128) as u64,
        }
    }
}

/// A path group of a group that uses a link.
#[derive(Clone, Copy)]
pub struct LinkUse {
    /// Which of the group's path groups it is.
    pub place: u32,
    /// What the link carries of it.
    pub part: LinkPart,
    /// Whether it is known that no other path group of the group uses the link.
    pub is_only: bool,
}

/// The parts of the links of the paths, in the order in which the links come first.
pub(crate) fn parts_of(alloc: Global, paths: &[PathSpec]) -> Result<Vec<LinkPart>, AllocError>
    requires { sum_by (λ path. path.weight) paths.now < 2 ^ 32 }
    ensures { IfOk result (λ parts. AreParts (map path_of paths.now) parts.items) }
{
    let whole = all_weights(paths) as u32;
    // Mostly there is one path, which has no link twice.
    let mut parts = Vec::with_capacity(alloc, first_links(paths))?;
    for path in paths {
        for link in &path.links {
            parts = with_part(parts, paths, whole, *link)?;
        }
    }
    Ok(parts)
}

// How many links the first path has.
fn first_links(paths: &[PathSpec]) -> usize {
    match paths.first() {
        Some(path) => path.links.len(),
        None => 0,
    }
}

// The parts, with that of the link.
fn with_part(
    parts: Vec<LinkPart>,
    paths: &[PathSpec],
    whole: u32,
    link: u32,
) -> Result<Vec<LinkPart>, AllocError>
    requires weights { sum_by (λ path. path.weight) paths.now < 2 ^ 32 }
    requires whole { whole ≡ sum_by (λ path. path.weight) paths.now }
    requires used { uses (map path_of paths.now) link ≡ true }
    ensures { IfOk result (λ more. HasPartToo (map path_of paths.now) parts.items more.items link) }
{
    if has_part(&parts, link) {
        return Ok(parts);
    }
    let mut parts = parts;
    let weight = weights_over(paths, link) as u32;
    parts.push(LinkPart {
        link,
        weight,
        whole,
    })?;
    Ok(parts)
}

/// Whether one of the parts is the link's.
pub(crate) fn has_part(parts: &[LinkPart], link: u32) -> bool
    ensures { result ≡ has_part_of parts.now link }
{
    parts.iter().any(|part| part.link == link)
}

/// The part of the link, if one of the parts is the link's.
pub(crate) fn part_on(parts: &[LinkPart], link: u32) -> Option<LinkPart>
    ensures { MatchOption result (has_part_of parts.now link ≡ false)
        (λ part. Contains parts.now part × (part.link ≡ link)) }
{
    for part in parts {
        if part.link == link {
            return Some(*part);
        }
    }
    None
}

// The weights of all paths.
fn all_weights(paths: &[PathSpec]) -> u64
    requires { sum_by (λ path. path.weight) paths.now < 2 ^ 64 }
    ensures { result ≡ sum_by (λ path. path.weight) paths.now }
{
    paths.iter().map(|path| path.weight).sum()
}

// The weights of the paths over the link.
fn weights_over(paths: &[PathSpec], link: u32) -> u64
    requires { sum_by (weight_on link) paths.now < 2 ^ 64 }
    ensures { result ≡ sum_by (weight_on link) paths.now }
{
    let mut over = 0;
    for path in paths {
        over += weight_if_over(path, link);
    }
    over
}

// The weight of the path, if it goes over the link.
fn weight_if_over(path: &PathSpec, link: u32) -> u64
    ensures { result ≡ weight_on link path.now }
{
    if path.links.contains(&link) {
        path.weight
    } else {
        0
    }
}
