//! Inputs that have more bytes than they may, by what stands in them as the document.

ghost use Rattle.std.specs.Prelude.{◌≡◌, IfOk};
ghost use Rattle.one_run.specs.Lengths.{document_is_too_long};

use bwe_specs::{MAX_INPUT, OutOfMemory};
use std::alloc::Global;
use version_scan::is_of_version_4;

/// Whether an input that is one document is too long: it has more than 67,108,864 bytes, and is not
/// of version 4. A shorter one is not looked at, so its answer is what it was before version 4;
/// `parted_input` asks the same of an input of two parts.
///
/// A longer one is passed over once, in as much memory as it has bytes.
pub fn document_is_too_long(alloc: Global, input: &[u8]) -> Result<bool, OutOfMemory>
    ensures { IfOk result (λ is. is ≡ document_is_too_long input.now) }
{
    if input.len() as u64 <= MAX_INPUT {
        return Ok(false);
    }
    let of_version_4 = is_of_version_4(alloc, input)?;
    Ok(!of_version_4)
}
