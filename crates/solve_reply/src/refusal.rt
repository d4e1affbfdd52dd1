//! The row of a refused document.

ghost use Rattle.std.specs.Prelude.{◌≡◌, Some, IfOk};
ghost use Rattle.refusal_text.specs.RefusalLines.{error_line};

use bwe_specs::OutOfMemory;
use doc_refusals::DocError;
use one_run::Answer;
use refusal_text::refusal_line;
use std::alloc::Global;

/// The one row of a refused document, with exit status 3.
pub fn refused(alloc: Global, error: &DocError) -> Result<Answer, OutOfMemory>
    ensures { IfOk result
        (λ answer. (answer.status ≡ 3) × (error_line error.now ≡ Some answer.text)) }
{
    Ok(Answer {
        status: 3,
        text: refusal_line(alloc, error)?,
    })
}
