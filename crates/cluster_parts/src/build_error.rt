//! Why the functions of a document could not be built.

ghost use Rattle.std.specs.Prelude.{◌≡◌};
ghost use Rattle.cluster_parts.specs.declared.build_error.BuildError.TheVariants.{OutOfMemory};

use bw_function::FunctionFault;
use raw_document::{DocPath, Fault, PathStep};
use std::alloc::{AllocError, AllocFailed};

/// Why functions could not be built: memory, or what is wrong with the one at a path.
#[derive(Drop)]
pub enum BuildError {
    OutOfMemory,
    Refused { path: DocPath, cause: FunctionFault },
}

impl From<AllocError> for BuildError {
    ghost from_gives = { λ _ error. error ≡ OutOfMemory };

    fn from(_error: AllocError) -> BuildError {
        BuildError::OutOfMemory
    }
}

impl<T: Drop> From<AllocFailed<T>> for BuildError {
    ghost from_gives = { λ _ error. error ≡ OutOfMemory };

    fn from(_failed: AllocFailed<T>) -> BuildError {
        BuildError::OutOfMemory
    }
}

impl BuildError {
    ghost use Rattle.cluster_parts.specs.Building.{IsErrorUnder};

    /// The same error, told from one step above.
    pub fn under(self, step: PathStep) -> BuildError
        ensures { IsErrorUnder step self result }
    {
        match self {
            BuildError::OutOfMemory => BuildError::OutOfMemory,
            BuildError::Refused { path, cause } => match Fault::At(path).under(step) {
                Fault::OutOfMemory => BuildError::OutOfMemory,
                Fault::At(path) => BuildError::Refused { path, cause },
            },
        }
    }
}
