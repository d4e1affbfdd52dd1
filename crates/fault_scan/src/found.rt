//! What was found of a value: nothing, or its first fault.

ghost use Rattle.std.specs.Prelude.{◌≡◌, List, [], Err, ⊤, Result as SpecResult};
ghost use Rattle.raw_document.specs.declared.doc_path.PathStep.{PathStep as StepOfPath};
ghost use Rattle.raw_document.specs.Reading.{Fails, check};
ghost use Rattle.fault_scan.specs.Seen.{Tells, earlier};

use raw_document::Fault;
use std::alloc::Global;

/// The first one, if it is a fault, or else the second.
pub fn earlier(first: Result<(), Fault>, second: Result<(), Fault>) -> Result<(), Fault>
    ensures { result ≡ earlier first second }
{
    match first {
        Ok(()) => second,
        Err(fault) => Err(fault),
    }
}

/// A fault of the value itself, where it is not fine.
pub fn fine_if(alloc: Global, is_fine: bool) -> Result<(), Fault>
    ensures { Tells result (check is_fine) }
{
    if is_fine {
        Ok(())
    } else {
        Err(Fault::here(alloc))
    }
}

/// The fault as one of the value itself.
pub fn told_here(alloc: Global, fault: Fault) -> Fault
    ensures { (below here : SpecResult ⊤ (List StepOfPath)) → Fails fault below
        → ((path : List StepOfPath) → below ≡ Err path → here ≡ Err []) → Fails result here }
{
    match fault {
        Fault::OutOfMemory => Fault::OutOfMemory,
        Fault::At(_) => Fault::here(alloc),
    }
}
