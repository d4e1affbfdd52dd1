//! Why samples give no reports.

use bwe_specs::OutOfMemory;
use std::alloc::AllocFailed;

/// Why samples give no reports.
#[derive(Clone, Copy, Debug, PartialEq, Eq, Drop)]
pub enum SampleError {
    /// The number of the first line at fault, from 0.
    Refused { line: u64 },
    OutOfMemory,
}

impl From<OutOfMemory> for SampleError {
    ghost use Rattle.std.specs.Prelude.{◌≡◌};
    ghost use Rattle.sample_lines.specs.declared.error.SampleError.TheVariants.{OutOfMemory};

    ghost from_gives = { λ _ error. error ≡ OutOfMemory };

    fn from(_error: OutOfMemory) -> SampleError {
        SampleError::OutOfMemory
    }
}

impl<T: Drop> From<AllocFailed<T>> for SampleError {
    ghost use Rattle.std.specs.Prelude.{◌≡◌};
    ghost use Rattle.sample_lines.specs.declared.error.SampleError.TheVariants.{OutOfMemory};

    ghost from_gives = { λ _ error. error ≡ OutOfMemory };

    fn from(_failed: AllocFailed<T>) -> SampleError {
        SampleError::OutOfMemory
    }
}
