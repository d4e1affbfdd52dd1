//! The refusal of events.

ghost use Rattle.std.specs.Prelude.{◌≡◌, IfOk};
ghost use Rattle.enforce_run.specs.RefusalLine.{event_refusal};

use bwe_specs::OutOfMemory;
use std::alloc::Global;

/// The row for events of which this line is the first at fault ("Two-part inputs", docs/FORMAT.md).
pub fn event_refusal_line(alloc: Global, line: u64) -> Result<Vec<u8>, OutOfMemory>
    ensures { IfOk result (λ text. text.items ≡ event_refusal line) }
{
    Ok(format!(in alloc; "refused 16 events at line {line}\n")?.into_bytes())
}
