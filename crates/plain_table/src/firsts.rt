//! Closings, and which of them was the first of each link.

ghost use Rattle.std.specs.Prelude.{◌≡◌, ℕ, ◌<◌, length, reverse, slice_index, IfOk};
ghost use Rattle.bwe_specs.specs.Paths.{path_group_at, path_group_count};
ghost use Rattle.bwe_specs.specs.Filling.{closed_by};
ghost use Rattle.plain_table.specs.FirstOfLinks.{closing_at, IsFirst, AreFirsts};

use bwe_specs::{Closing, OutOfMemory};
use path_groups::PathPlan;
use std::alloc::Global;
use std::marker::Model;

/// Closings in their order, and for each link which of them was its first, so that the closing link
/// of a path group is found without a walk over the closings.
#[derive(Drop)]
pub struct FirstClosings<'a> {
    closings: &'a [Closing],
    firsts: Vec<usize>,
}

impl<'a> Model for FirstClosings<'a> {
    ghost use Rattle.std.specs.Prelude.{List};
    ghost use Rattle.bwe_specs.specs.declared.network.Closing.{Closing};
    ghost use Rattle.plain_table.specs.FirstOfLinks.{AreFirsts};

    ghost Value = { List Closing };

    ghost view = { λ first. first.closings.now };

    ghost invariant = { λ first. AreFirsts first.closings.now first.firsts.items };
}

impl<'a> FirstClosings<'a> {
    /// The first closing of each link. It walks the closings twice.
    pub fn of(alloc: Global, closings: &'a [Closing]) -> Result<FirstClosings<'a>, OutOfMemory>
        ensures { IfOk result (λ first. first ≡ closings.now) }
    {
        let links = links_of(closings);
        let mut firsts: Vec<usize> = vec![in alloc; closings.len(); links]?;
        find_firsts(closings, &mut firsts);
        Ok(FirstClosings { closings, firsts })
    }

    /// The link of the first closing that the path group uses.
    pub(crate) fn closed_link(&self, plan: &PathPlan, group: u32, place: u32) -> Option<u32>
        requires group { group < length plan.now }
        requires place { place < path_group_count plan.now group }
        ensures { result ≡ closed_by (path_group_at plan.now group place) (reverse self.now) }
    {
        let mut first = self.closings.len();
        for part in plan.parts(group, place) {
            first = first.min(self.first_of(part.link));
        }
        if first < self.closings.len() {
            Some(self.closings[first].link)
        } else {
            None
        }
    }

    // The index of the first closing of a link, or the number of closings where it has none.
    fn first_of(&self, link: u32) -> usize
        ensures { IsFirst self.now link result }
    {
        if (link as usize) < self.firsts.len() {
            self.firsts[link as usize]
        } else {
            self.closings.len()
        }
    }
}

// One more than the highest link.
fn links_of(closings: &[Closing]) -> usize
    ensures { (k : ℕ) → k < length closings.now → (closing_at closings.now k).link < result }
{
    let mut links = 0;
    for closing in closings {
        links = links.max(closing.link as usize + 1);
    }
    links
}

// Sets for each link the index of its first closing. Before, each is the number of closings.
fn find_firsts(closings: &[Closing], firsts: &mut [usize])
    requires behind { (link : ℕ) → link < length firsts.old
        → slice_index firsts.old link ≡ length closings.now }
    requires all { (k : ℕ) → k < length closings.now
        → (closing_at closings.now k).link < length firsts.old }
    ensures { AreFirsts closings.now firsts.new }
{
    for place in 0..closings.len() {
        let link = closings[place].link as usize;
        if firsts[link] == closings.len() {
            firsts[link] = place;
        }
    }
}
