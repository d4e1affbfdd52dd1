//! The text of a table of tiers.

ghost use Rattle.std.specs.Prelude.{◌≡◌, ◌++◌, ◌<◌, IfOk, OnOk, flat_map, length, map, string_bytes};
ghost use Rattle.bwe_specs.specs.Reports.{numbers};
ghost use Rattle.doc_names.specs.NameTexts.{texts_of};
ghost use Rattle.bwe_specs.specs.Lists.{lists_of};
ghost use Rattle.tier_text.specs.TierText.{tier_lines, tier_text_of};

use bwe_specs::{Closing, OutOfMemory};
use doc_names::Names;
use std::alloc::{AllocError, Global};
use table_text::{end_with_number, push_closings, push_limits};
use tiers::TierTable;

/// The text of the table, with the names of its links, groups and tasks.
///
/// A number that has no name is printed as an empty text; the names of a document have one for each
/// number of its tables.
#[tactic(auto, unfolding(crate::specs::TierText::tier_text_of))]
pub fn tier_text(alloc: Global, table: &TierTable, names: &Names) -> Result<Vec<u8>, OutOfMemory>
    ensures { IfOk result (λ text. text.items ≡ tier_text_of (texts_of names.now) table.now) }
{
    let mut text = String::new(alloc);
    end_with_number(&mut text, "tiers ", table.prefix)?;
    push_tiers(&mut text, names, &table.tiers)?;
    push_limits(&mut text, names, &table.loads, &table.groups, &table.limits)?;
    Ok(text.into_bytes())
}

#[tactic(auto, using(table_text::proofs::Lines::one_line_more))]
fn push_tiers(text: &mut String, names: &Names, tiers: &[Vec<Closing>]) -> Result<(), AllocError>
    ensures { OnOk result
        (string_bytes text.new
        ≡ string_bytes text.old
        ++ flat_map (tier_lines (texts_of names.now) (lists_of tiers.now))
        (numbers (length (lists_of tiers.now)))) }
{
    for tier in 0..tiers.len() {
        push_tier(text, names, tiers, tier)?;
    }
    Ok(())
}

fn push_tier(
    text: &mut String,
    names: &Names,
    tiers: &[Vec<Closing>],
    tier: usize,
) -> Result<(), AllocError>
    requires tier { tier < length tiers.now }
    ensures { OnOk result
        (string_bytes text.new
        ≡ string_bytes text.old ++ tier_lines (texts_of names.now) (lists_of tiers.now) tier) }
{
    end_with_number(text, "tier ", tier as u64)?;
    push_closings(text, names, &tiers[tier])
}
