//! About how a function goes, so that a search begins near its answer.
//!
//! Nothing is promised of an outline: a search that takes no value from it is right whatever it is.

use crate::ShareFunction;
use bw_function::BwFunction;
use bwe_specs::OutOfMemory;
use std::alloc::Global;

// How many points an outline has at most, and how many of them are of one function.
const MAX_POINTS: usize = 64;

const MAX_POINTS_OF_ONE: usize = 8;

/// Two points, each of a share and about the value there, between which values go along a line.
#[derive(Clone, Copy, Debug, PartialEq, Eq, Drop)]
pub struct Stretch {
    pub before: (u64, u64),
    pub after: (u64, u64),
}

/// Points of a share and about the value there, in the order of their shares.
#[derive(Drop)]
pub struct Outline {
    points: Vec<(u64, u64)>,
}

impl Outline {
    /// An outline of no point yet, with memory for as many as the parts' sum has now. That of one
    /// part has none, as it goes as the part does.
    pub fn new<P: ShareFunction>(alloc: Global, parts: &[P]) -> Result<Outline, OutOfMemory> {
        if parts.len() < 2 {
            return Ok(Outline {
                points: Vec::new(alloc),
            });
        }
        let mut widest = Outline {
            points: Vec::with_capacity(alloc, MAX_POINTS)?,
        };
        widest.add_shares(parts, 0);
        let points = Vec::with_capacity(alloc, widest.points.len())?;
        Ok(Outline { points })
    }

    /// Draws the sum of the parts: the points are at the shares where the parts bend. It takes no
    /// memory, and draws no more points than `new` took memory for.
    pub fn redraw<P: ShareFunction>(&mut self, parts: &[P], top: u64) {
        self.points.clear();
        self.add_shares(parts, top);
        self.points.sort_unstable();
        for point in self.points.iter_mut() {
            *point = (point.0, near_sum(parts, point.0));
        }
    }

    // Adds share 0, the top, and those at which the parts bend.
    fn add_shares<P: ShareFunction>(&mut self, parts: &[P], top: u64) {
        self.add(0);
        self.add(top);
        for part in parts {
            part.add_bends(self);
        }
    }

    /// Adds a share, if there is room.
    pub fn add(&mut self, share: u64) {
        if self.points.len() < self.points.capacity() {
            let _ = self.points.push((share, 0));
        }
    }

    /// Adds the shares of a function's points, some of them where they are many.
    pub fn add_points(&mut self, function: &BwFunction) {
        let points = function.points();
        let step = points.len() / MAX_POINTS_OF_ONE + 1;
        for point in points.iter().step_by(step) {
            self.add(point.0);
        }
    }

    /// Adds the shares of another outline, but for its first and its last one: each outline has
    /// those, which are share 0 and the top.
    pub fn add_outline(&mut self, other: &Outline) {
        let inner = other.points.len().saturating_sub(2);
        for point in other.points.iter().skip(1).take(inner) {
            self.add(point.0);
        }
    }

    /// Whether there is no point.
    pub fn is_empty(&self) -> bool {
        self.points.is_empty()
    }

    /// About the value at a share, 0 where there is no point.
    pub fn near(&self, share: u64) -> u64 {
        let place = self.points.partition_point(|point| point.0 <= share);
        let before = self.point(place.saturating_sub(1), (0, 0));
        along(before, self.point(place, before), share)
    }

    /// The points between which the value comes to be above an amount.
    pub fn stretch(&self, amount: u64) -> Stretch {
        let place = self.points.partition_point(|point| point.1 <= amount);
        let before = self.point(place.saturating_sub(1), (0, 0));
        let past = (before.0.saturating_add(1), amount.saturating_mul(2));
        Stretch {
            before,
            after: self.point(place, past),
        }
    }

    // The point at a place, or another one past the last.
    fn point(&self, place: usize, other: (u64, u64)) -> (u64, u64) {
        match self.points.get(place) {
            Some(point) => *point,
            None => other,
        }
    }
}

/// About the sum of the parts' values at a share. It costs one `near` of each part.
pub fn near_sum<P: ShareFunction>(parts: &[P], share: u64) -> u64 {
    let mut sum: u64 = 0;
    for part in parts {
        sum = sum.saturating_add(part.near(share));
    }
    sum
}

// About the value on the line from one point to another.
fn along(before: (u64, u64), after: (u64, u64), share: u64) -> u64 {
    let run = after.0.saturating_sub(before.0).max(1);
    let rise = after.1.saturating_sub(before.1);
    let part = share.saturating_sub(before.0);
    let more = match rise.checked_mul(part) {
        Some(product) => product / run,
        None => rise / run * part.min(run),
    };
    before.1.saturating_add(more)
}
