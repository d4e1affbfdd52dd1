//! Why links are refused.

use std::alloc::{AllocError, AllocFailed};
use std::fmt;

/// What is wrong with the links, in the order in which it is looked for.
///
/// The number of links comes first. Then the first link at fault is named, with the first of the
/// other three that it has.
#[derive(Clone, Copy)]
pub enum TopologyFault {
    /// There are more links than any document may have: 65,536.
    TooManyLinks { count: u64 },
    /// The link's name stood before.
    RepeatedLink { link: u32 },
    /// The link ends where it starts.
    SelfLink { link: u32 },
    /// The link's capacity is above 1,000,000,000,000 kilobits per second.
    CapacityOverMax { link: u32 },
}

/// Why `Topology::build` made no topology.
#[derive(Clone, Copy)]
pub enum TopologyError {
    /// The links have this fault.
    Refused { fault: TopologyFault },
    /// Memory ran out.
    OutOfMemory,
}

// Says only that there is an error, as is owed to a test that fails: `refusal_text` has the words
// of each refusal.
impl fmt::Debug for TopologyError {
    fn fmt<W: fmt::Write>(&self, f: &mut fmt::Formatter<W>) -> fmt::Result {
        f.write_str("no topology was made")
    }
}

impl From<AllocError> for TopologyError {
    ghost use Rattle.std.specs.Prelude.{◌≡◌};
    ghost use Rattle.wan_topology.specs.declared.fault.TopologyError.TheVariants.{OutOfMemory};

    ghost from_gives = { λ _ error. error ≡ OutOfMemory };

    fn from(_error: AllocError) -> TopologyError {
        TopologyError::OutOfMemory
    }
}

impl<T: Drop> From<AllocFailed<T>> for TopologyError {
    ghost use Rattle.std.specs.Prelude.{◌≡◌};
    ghost use Rattle.wan_topology.specs.declared.fault.TopologyError.TheVariants.{OutOfMemory};

    ghost from_gives = { λ _ error. error ≡ OutOfMemory };

    fn from(_failed: AllocFailed<T>) -> TopologyError {
        TopologyError::OutOfMemory
    }
}
