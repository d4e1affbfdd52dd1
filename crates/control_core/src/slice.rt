//! The slice of one reporter.

ghost use Rattle.std.specs.Prelude.{◌≡◌, IfOk, option_map};
ghost use Rattle.control_core.specs.World.{differs as differs_from};

use bwe_specs::OutOfMemory;
use std::alloc::Global;
use std::marker::Model;

/// The limits of a reporter's tasks, and the prefix of the table that they were written from.
#[derive(Drop)]
pub struct Slice {
    prefix: u64,
    limits: Vec<u64>,
}

impl Model for Slice {
    ghost use Rattle.control_core.specs.World.{Slice as SliceView};

    ghost Value = { SliceView };

    ghost view = { λ slice. record { prefix = slice.prefix; limits = slice.limits.items } };
}

impl Slice {
    /// The row of a table of this prefix.
    pub(crate) fn of_row(alloc: Global, prefix: u64, row: &[u64]) -> Result<Slice, OutOfMemory>
        ensures { IfOk result (λ slice. slice ≡ record { prefix = prefix; limits = row.now }) }
    {
        Ok(Slice {
            prefix,
            limits: Vec::from_slice(alloc, row)?,
        })
    }

    /// An equal slice.
    pub(crate) fn copy(&self, alloc: Global) -> Result<Slice, OutOfMemory>
        ensures { IfOk result (λ copy. copy ≡ self.now) }
    {
        Slice::of_row(alloc, self.prefix, self.limits.as_slice())
    }

    /// The prefix of the table that the slice was written from.
    pub fn prefix(&self) -> u64
        ensures { result ≡ self.now.prefix }
    {
        self.prefix
    }

    /// The limits, in the order of the reporter's tasks, in kilobits per second.
    pub fn limits(&self) -> &[u64]
        ensures { result.now ≡ self.now.limits }
    {
        self.limits.as_slice()
    }
}

/// Whether a slice has not the limits of the row.
pub(crate) fn differs(slice: Option<&Slice>, row: &[u64]) -> bool
    ensures { result ≡ differs_from (option_map (λ slice. slice.now) slice.entry) row.now }
{
    match slice {
        None => true,
        Some(slice) => slice.limits() != row,
    }
}
