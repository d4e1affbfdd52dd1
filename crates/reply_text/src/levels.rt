//! The text of what all groups may have at a share.

ghost use Rattle.std.specs.Prelude.{◌≡◌, ◌<◌, ◌≤◌, ◌^◌, IfOk, length, sum};
ghost use Rattle.bwe_specs.specs.declared.limits.TheConstants.{MAX_TOTAL};
ghost use Rattle.doc_names.specs.NameTexts.{texts_of};
ghost use Rattle.reply_text.specs.LevelsText.{levels_text_of};

use bwe_specs::OutOfMemory;
use doc_names::Names;
use std::alloc::Global;
use table_text::{end_with_number, push_values};

/// The text of the groups' values at the share, with the names of the groups ("Levels text",
/// docs/FORMAT.md).
///
/// A group that has no name is printed as an empty text, as in `table_text`.
#[tactic(auto, unfolding(crate::specs::LevelsText::levels_text_of))]
pub fn levels_text(
    alloc: Global,
    share: u64,
    values: &[u64],
    names: &Names,
) -> Result<Vec<u8>, OutOfMemory>
    requires few { length values.now < 2 ^ 32 }
    requires total { sum values.now ≤ MAX_TOTAL }
    ensures { IfOk result
        (λ text. text.items ≡ levels_text_of (texts_of names.now) share values.now) }
{
    let mut text = String::new(alloc);
    end_with_number(&mut text, "levels ", share)?;
    push_values(&mut text, "level ", &names.groups, " ", values)?;
    end_with_number(&mut text, "total ", values.iter().sum())?;
    Ok(text.into_bytes())
}
