//! What was read, told from above.

ghost use Rattle.raw_document.specs.Reading.{IsUnder};

use crate::doc_path::{Fault, PathStep};

/// What was read, told from one step above.
pub fn under<T: Drop>(step: PathStep, read: Result<T, Fault>) -> Result<T, Fault>
    ensures { IsUnder step read result }
{
    match read {
        Ok(value) => Ok(value),
        Err(fault) => Err(fault.under(step)),
    }
}
