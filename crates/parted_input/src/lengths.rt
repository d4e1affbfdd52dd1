//! Inputs of two parts that have more bytes than they may, by what stands in them as the document.

ghost use Rattle.std.specs.Prelude.{◌≡◌, IfOk};
ghost use Rattle.parted_input.specs.Lengths.{parts_are_too_long};

use bwe_specs::{MAX_INPUT, OutOfMemory};
use std::alloc::Global;
use two_part::find_parts;
use version_scan::is_of_version_4;

/// Whether an input of two parts is too long: it has more than 67,108,864 bytes, and its document
/// is not of version 4. One without parts is too long. A shorter one is not looked at.
///
/// The document of a longer one is passed over once, in as much memory as it has bytes.
pub fn parts_are_too_long(alloc: Global, input: &[u8]) -> Result<bool, OutOfMemory>
    ensures { IfOk result (λ is. is ≡ parts_are_too_long input.now) }
{
    if input.len() as u64 <= MAX_INPUT {
        return Ok(false);
    }
    let Some(parts) = find_parts(input) else {
        return Ok(true);
    };
    let is_of_4 = is_of_version_4(alloc, parts.document(input))?;
    Ok(!is_of_4)
}
