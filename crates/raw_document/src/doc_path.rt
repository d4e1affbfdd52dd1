//! Paths in a document, and faults there.

ghost use Rattle.std.specs.Prelude.{◌≡◌};
ghost use Rattle.raw_document.specs.declared.doc_path.Fault.TheVariants.{OutOfMemory};

use crate::key::DocKey;
use std::alloc::{AllocError, AllocFailed, Global};

/// One step: from an object to the member of a key, or from a list to the item at a place, from 0.
#[derive(Clone, Copy)]
pub enum PathStep {
    Key { name: DocKey },
    Index { place: u64 },
}

/// The steps from where one stands to a value below it, outermost first. Without a step it is the
/// value itself.
#[derive(Drop)]
pub struct DocPath {
    pub steps: Vec<PathStep>,
}

/// Why a value could not be read: memory, or something wrong at a path from that value on.
#[derive(Drop)]
pub enum Fault {
    OutOfMemory,
    At(DocPath),
}

impl From<AllocError> for Fault {
    ghost from_gives = { λ _ e. e ≡ OutOfMemory };

    fn from(_e: AllocError) -> Fault {
        Fault::OutOfMemory
    }
}

impl<T: Drop> From<AllocFailed<T>> for Fault {
    ghost from_gives = { λ _ e. e ≡ OutOfMemory };

    fn from(_e: AllocFailed<T>) -> Fault {
        Fault::OutOfMemory
    }
}

impl Fault {
    ghost use Rattle.std.specs.Prelude.{[]};
    ghost use Rattle.raw_document.specs.Reading.{IsFaultAt, IsFaultUnder};

    /// A fault of the value itself.
    pub fn here(alloc: Global) -> Fault
        ensures { IsFaultAt [] result }
    {
        Fault::At(DocPath {
            steps: Vec::new(alloc),
        })
    }

    /// The same fault, seen from one step above. A fault is moved at most nine times, so the cost
    /// is small.
    pub fn under(self, step: PathStep) -> Fault
        ensures { IsFaultUnder step self result }
    {
        match self {
            Fault::OutOfMemory => Fault::OutOfMemory,
            Fault::At(mut path) => match path.steps.insert(0, step) {
                Ok(()) => Fault::At(path),
                Err(_) => Fault::OutOfMemory,
            },
        }
    }
}
