//! Refusal 2, found by a walk over the tokens.

ghost use Rattle.std.specs.Prelude.{IfSome};
ghost use Rattle.doc_parts.specs.Document.{document};
ghost use Rattle.doc_parts.specs.Passing.{NamesRefusal};

use bwe_specs::MAX_INPUT;
use fault_scan::find_fault;
use plan_doc::DocError;
use std::alloc::Global;

/// Refusal 2, where one walk over the tokens finds the first fault.
pub fn shape_refusal(alloc: Global, bytes: &[u8]) -> Option<DocError>
    ensures { IfSome result (NamesRefusal (document bytes.now)) }
{
    Some(DocError::shape(find_fault(alloc, bytes)?))
}

/// The same of a text above 67,108,864 bytes. A shorter one is not looked at.
pub fn long_shape_refusal(alloc: Global, bytes: &[u8]) -> Option<DocError>
    ensures { IfSome result (NamesRefusal (document bytes.now)) }
{
    if bytes.len() as u64 <= MAX_INPUT {
        return None;
    }
    shape_refusal(alloc, bytes)
}
