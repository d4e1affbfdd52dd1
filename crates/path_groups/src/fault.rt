//! Why groups are refused.

use std::alloc::{AllocError, AllocFailed};
use std::fmt;

/// What is wrong with the groups.
///
/// The first group at fault is named. Inside a group `TooManyPathGroups` comes first, then the
/// first place at fault. At one place `NoPath` and `TooManyPaths` come before the faults of its
/// paths, then the first path at fault, with the first of its faults in the order below.
#[derive(Clone, Copy)]
pub enum PathFault {
    /// The group has more than 16 path groups.
    TooManyPathGroups { group: u32 },
    /// The path group has no path; with place 0 also that the group has no path group at all.
    NoPath { group: u32, place: u32 },
    /// The path group has more than 16 paths.
    TooManyPaths { group: u32, place: u32 },
    /// The path has more than 32 links.
    TooManyHops { group: u32, place: u32, path: u32 },
    /// The weight of the path is not from 1 to 1,000.
    WeightRange { group: u32, place: u32, path: u32 },
    /// The path has no link, or its links do not lead from the group's first site to its second
    /// ("Path rule", docs/DEFINITIONS.md).
    BrokenPath { group: u32, place: u32, path: u32 },
    /// A link stands twice in the path.
    RepeatedHop { group: u32, place: u32, path: u32 },
}

/// Why `PathPlan::build` made no plan.
#[derive(Clone, Copy)]
pub enum PathError {
    /// The groups have this fault.
    Refused { fault: PathFault },
    /// Memory ran out.
    OutOfMemory,
}

// Says only that there is an error, as is owed to a test that fails: `refusal_text` has the words
// of each refusal.
impl fmt::Debug for PathError {
    fn fmt<W: fmt::Write>(&self, f: &mut fmt::Formatter<W>) -> fmt::Result {
        f.write_str("no plan was made")
    }
}

impl From<AllocError> for PathError {
    ghost use Rattle.std.specs.Prelude.{◌≡◌};
    ghost use Rattle.path_groups.specs.declared.fault.PathError.TheVariants.{OutOfMemory};

    ghost from_gives = { λ _ error. error ≡ OutOfMemory };

    fn from(_error: AllocError) -> PathError {
        PathError::OutOfMemory
    }
}

impl<T: Drop> From<AllocFailed<T>> for PathError {
    ghost use Rattle.std.specs.Prelude.{◌≡◌};
    ghost use Rattle.path_groups.specs.declared.fault.PathError.TheVariants.{OutOfMemory};

    ghost from_gives = { λ _ error. error ≡ OutOfMemory };

    fn from(_failed: AllocFailed<T>) -> PathError {
        PathError::OutOfMemory
    }
}
