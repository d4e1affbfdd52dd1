//! The one answer that a call was out of memory.

use std::alloc::{AllocError, AllocFailed};
use thiserror::Error;

/// The call was out of memory. Nothing ties this answer to a refused growth; every object that the
/// call was lent is as it was.
#[derive(Clone, Copy, Debug, PartialEq, Eq, Error)]
#[error("out of memory")]
pub struct OutOfMemory;

impl From<AllocError> for OutOfMemory {
    fn from(_error: AllocError) -> OutOfMemory {
        OutOfMemory
    }
}

impl<T: Drop> From<AllocFailed<T>> for OutOfMemory {
    fn from(_failed: AllocFailed<T>) -> OutOfMemory {
        OutOfMemory
    }
}
