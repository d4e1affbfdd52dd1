//! What the store keeps.

ghost use Rattle.std.specs.Prelude.{◌≡◌, option_map};
ghost use Rattle.control_core.specs.World.{slice_at as slice_of};

use crate::slice::Slice;
use crate::tables::slice_at;
use bwe_specs::Report;
use std::marker::Model;

/// A report, and the revision at which it entered the history.
#[derive(Clone, Copy, Debug, PartialEq, Eq)]
pub struct Entry {
    pub revision: u64,
    pub report: Report,
}

/// The leader key: the allocator that holds it, and its create and modification revision.
#[derive(Clone, Copy, Debug, PartialEq, Eq)]
pub struct Leader {
    pub holder: u32,
    pub created: u64,
    pub revision: u64,
}

/// What is posted: a prefix, the revision at which it was posted, and the slices as they stood
/// then.
#[derive(Drop)]
pub struct Posting {
    pub(crate) prefix: u64,
    pub(crate) revision: u64,
    pub(crate) slices: Vec<Option<Slice>>,
}

impl Model for Posting {
    ghost use Rattle.control_core.specs.World.{Posting as PostingView};

    ghost Value = { PostingView };

    ghost view = { λ posting. record {
      prefix = posting.prefix;
      revision = posting.revision;
      slices = posting.slices.items;
    } };
}

impl Posting {
    pub(crate) fn new(prefix: u64, revision: u64, slices: Vec<Option<Slice>>) -> Posting
        ensures { result
            ≡ record { prefix = prefix; revision = revision; slices = slices.items } }
    {
        Posting {
            prefix,
            revision,
            slices,
        }
    }

    /// The posted prefix.
    pub fn prefix(&self) -> u64
        ensures { result ≡ self.now.prefix }
    {
        self.prefix
    }

    /// The revision at which it was posted.
    pub fn revision(&self) -> u64
        ensures { result ≡ self.now.revision }
    {
        self.revision
    }

    /// A reporter's slice as it stood at that revision.
    pub fn slice(&self, reporter: u32) -> Option<&Slice>
        ensures { option_map (λ slice. slice.now) result ≡ slice_of self.now.slices reporter }
    {
        slice_at(self.slices.as_slice(), reporter as usize)
    }
}
