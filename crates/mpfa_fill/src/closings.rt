//! The closings so far, and which links they closed.

ghost use Rattle.std.specs.Prelude.{◌≡◌, ℕ, ◌<◌, ◌==◌, ◌||◌, ◌∷◌, ◌++◌, [], length, false, slice_index_or, IfOk, OnOk};
ghost use Rattle.mpfa_fill.specs.Closings.{is_closed};

use bwe_specs::{Closing, OutOfMemory};
use std::alloc::Global;
use std::marker::Model;

/// Closings in their order, and beside them a flag for each link, which is set exactly for the
/// closed ones. So whether a link was closed takes no walk over the closings.
#[derive(Drop)]
pub(crate) struct Closings {
    list: Vec<Closing>,
    flags: Vec<bool>,
}

impl Model for Closings {
    ghost use Rattle.std.specs.Prelude.{List};
    ghost use Rattle.bwe_specs.specs.declared.network.Closing.{Closing};
    ghost use Rattle.mpfa_fill.specs.Closings.{AreFlags};

    ghost Value = { List Closing };

    ghost view = { λ closings. closings.list.items };

    ghost invariant = { λ closings. AreFlags closings.list.items closings.flags.items };
}

impl Closings {
    /// None, between so many links.
    pub(crate) fn none(alloc: Global, links: u32) -> Result<Closings, OutOfMemory>
        ensures { IfOk result (λ closings. closings ≡ []) }
    {
        let flags = vec![in alloc; false; links as usize]?;
        Ok(Closings {
            list: Vec::new(alloc),
            flags,
        })
    }

    /// The closings in their order.
    pub(crate) fn list(&self) -> &[Closing]
        ensures { result.now ≡ self.now }
    {
        &self.list
    }

    /// The same, once no flag is needed.
    pub(crate) fn into_list(self) -> Vec<Closing>
        ensures { result.items ≡ self }
    {
        self.list
    }

    /// Adds a closing.
    pub(crate) fn push(&mut self, closing: Closing) -> Result<(), OutOfMemory>
        ensures { OnOk result (self.new ≡ self.old ++ closing ∷ []) }
    {
        self.list.push(closing)?;
        set_flag(&mut self.flags, closing.link);
        Ok(())
    }

    /// Whether the link was closed. It reads one flag.
    pub(crate) fn is_closed(&self, link: u32) -> bool
        ensures { result ≡ is_closed self.now link }
    {
        if (link as usize) < self.flags.len() {
            self.flags[link as usize]
        } else {
            is_among(&self.list, link)
        }
    }
}

// Sets the flag of a link, if it has one.
fn set_flag(flags: &mut [bool], link: u32)
    ensures { (other : ℕ) → other < length flags.old
        → slice_index_or flags.new other false
        ≡ (slice_index_or flags.old other false || other == link) }
{
    if (link as usize) < flags.len() {
        flags[link as usize] = true;
    }
}

// Whether the link is one of those that were closed.
fn is_among(closings: &[Closing], link: u32) -> bool
    ensures { result ≡ is_closed closings.now link }
{
    for closing in closings {
        if link == closing.link {
            return true;
        }
    }
    false
}
