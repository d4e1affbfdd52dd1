//! The row for samples that are refused.

ghost use Rattle.std.specs.Prelude.{◌≡◌, IfOk};
ghost use Rattle.sample_lines.specs.RefusalLine.{sample_refusal};

use bwe_specs::OutOfMemory;
use std::alloc::Global;

/// The row for samples of which this line is the first at fault ("Two-part inputs",
/// docs/FORMAT.md).
pub fn sample_refusal_line(alloc: Global, line: u64) -> Result<Vec<u8>, OutOfMemory>
    ensures { IfOk result (λ text. text.items ≡ sample_refusal line) }
{
    Ok(format!(in alloc; "refused 17 sample at line {line}\n")?.into_bytes())
}
