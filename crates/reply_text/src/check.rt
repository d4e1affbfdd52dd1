//! The text of a verdict on closings.

ghost use Rattle.std.specs.Prelude.{◌≡◌, ◌++◌, IfOk, OnOk, string_bytes};
ghost use Rattle.reply_text.specs.CheckText.{cause_text, verdict_line};
ghost use Rattle.doc_names.specs.NameTexts.{texts_of};

use bwe_specs::{Cause, OutOfMemory, Verdict};
use doc_names::Names;
use std::alloc::{AllocError, Global};
use table_text::name_of;

/// The line that says the verdict on a document's closings, with the names of its links ("Check
/// text", docs/FORMAT.md).
///
/// A link that has no name is printed as an empty text.
pub fn check_text(alloc: Global, verdict: &Verdict, names: &Names) -> Result<Vec<u8>, OutOfMemory>
    ensures { IfOk result (λ text. text.items ≡ verdict_line (texts_of names.now) verdict.now) }
{
    let mut text = String::new(alloc);
    push_verdict(&mut text, names, *verdict)?;
    Ok(text.into_bytes())
}

#[tactic(auto, unfolding(crate::specs::CheckText::verdict_line))]
fn push_verdict(text: &mut String, names: &Names, verdict: Verdict) -> Result<(), AllocError>
    ensures { OnOk result
        (string_bytes text.new
        ≡ string_bytes text.old ++ verdict_line (texts_of names.now) verdict) }
{
    match verdict {
        Verdict::Right => text.push_str("right\n"),
        Verdict::Wrong { at, cause } => {
            write!(text, "wrong at {at}: ")?;
            push_cause(text, names, cause)?;
            text.push_str("\n")
        }
    }
}

#[tactic(auto, unfolding(crate::specs::CheckText::cause_text))]
fn push_cause(text: &mut String, names: &Names, cause: Cause) -> Result<(), AllocError>
    ensures { OnOk result
        (string_bytes text.new ≡ string_bytes text.old ++ cause_text (texts_of names.now) cause) }
{
    match cause {
        Cause::NoSuchLink => text.push_str("no such link"),
        Cause::Reclosed => text.push_str("link closed before"),
        Cause::ShareFalls => text.push_str("share falls"),
        Cause::ShareAtTop => text.push_str("share at top"),
        Cause::OverBefore { link } => {
            let link = name_of(&names.links, link);
            write!(text, "link {link} is over at the share")
        }
        Cause::FitsAfter => text.push_str("link fits at the next share"),
        Cause::LowerLink { link } => {
            let link = name_of(&names.links, link);
            write!(text, "lower link {link} is over")
        }
        Cause::OverAtTop { link } => {
            let link = name_of(&names.links, link);
            write!(text, "link {link} is over at top")
        }
    }
}
