//! What fillings found of links, as guesses for the next one.

use crate::due::Due;
use bwe_specs::{Closing, OutOfMemory};
use std::alloc::Global;
use std::mem;

/// What was found of a link behind closings of which the last has the share `at`: it fits up to a
/// share, and is over from another on, or is not known to be over anywhere.
#[derive(Clone, Copy, Drop)]
struct Found {
    at: u64,
    share: u64,
    over: u64,
}

/// What the last filling found of each link, and what the present one has found so far, in order.
///
/// A guess may be wrong, and all of them may be those of another network: then more looks are made.
#[derive(Drop)]
pub struct Guesses {
    last: Vec<Vec<Found>>,
    present: Vec<Vec<Found>>,
}

impl Guesses {
    /// No guesses.
    pub fn new(alloc: Global) -> Guesses {
        Guesses {
            last: Vec::new(alloc),
            present: Vec::new(alloc),
        }
    }

    /// What was found so far becomes what the last filling found.
    pub(crate) fn begin(&mut self, alloc: Global, links: u32) -> Result<(), OutOfMemory> {
        let nothing = no_finds(alloc, links)?;
        self.last = mem::replace(&mut self.present, nothing);
        Ok(())
    }

    /// The share at which to look first at a link with this due: where it was last found to fit at
    /// this stage of the filling, or else to be over first. The top, where nothing is known.
    pub(crate) fn guess(&self, link: u32, due: Due, closings: &[Closing], top: u64) -> u64 {
        let Some(last) = self.last.get(link as usize) else {
            return top;
        };
        match last_before(last, last_share(closings)) {
            Some(found) => aim(found, due.share, top),
            None => top,
        }
    }

    /// Adds what was found of a link behind these closings, where there is memory.
    pub(crate) fn add(&mut self, link: u32, due: Due, closings: &[Closing]) {
        if let Some(present) = self.present.get_mut(link as usize) {
            let found = Found {
                at: last_share(closings),
                share: due.share,
                over: due.over,
            };
            let _ = present.push(found);
        }
    }
}

// Nothing of any link.
fn no_finds(alloc: Global, links: u32) -> Result<Vec<Vec<Found>>, OutOfMemory> {
    let mut finds = Vec::with_capacity(alloc, links as usize)?;
    for _ in 0..links {
        finds.push(Vec::new(alloc))?;
    }
    Ok(finds)
}

// The share of the last closing, or 0 before the first.
fn last_share(closings: &[Closing]) -> u64 {
    match closings.last() {
        Some(closing) => closing.share,
        None => 0,
    }
}

// The last that was found up to a closing with this share.
fn last_before(finds: &[Found], at: u64) -> Option<Found> {
    let mut last = None;
    for found in finds {
        if found.at <= at {
            last = Some(*found);
        }
    }
    last
}

// A share above the due, up to the top, at which to look for what was found.
fn aim(found: Found, due: u64, top: u64) -> u64 {
    if due < found.share {
        found.share.min(top)
    } else if due < found.over && found.over <= found.share.saturating_add(1) {
        found.over.min(top)
    } else {
        top
    }
}
