//! The line for a line that is refused.

ghost use Rattle.std.specs.Prelude.{◌≡◌, IfOk};
ghost use Rattle.change_text.specs.RefusedText.{cause_number as number_of, refused_text_of};

use bwe_specs::OutOfMemory;
use live_lines::LineCause;
use std::alloc::Global;
use table_text::{end_with_number, push_number};

/// The answer to a line that is refused. Lines are counted from 1.
#[tactic(auto, unfolding(crate::specs::RefusedText::refused_text_of))]
pub fn refused_text(alloc: Global, line: u64, cause: LineCause) -> Result<Vec<u8>, OutOfMemory>
    ensures { IfOk result (λ text. text.items ≡ refused_text_of line cause) }
{
    let mut text = String::new(alloc);
    push_number(&mut text, "refused line ", line)?;
    end_with_number(&mut text, " cause ", cause_number(cause))?;
    Ok(text.into_bytes())
}

fn cause_number(cause: LineCause) -> u64
    ensures { result ≡ number_of cause }
{
    match cause {
        LineCause::NoLine => 1,
        LineCause::UnknownName => 2,
        LineCause::AmountOutOfRange => 3,
        LineCause::NotOwner => 4,
    }
}
