//! The summary of a table.

ghost use Rattle.std.specs.Prelude.{◌≡◌, IfOk};
ghost use Rattle.reply_text.specs.BulkText.{bulk_text_of};

use bwe_specs::OutOfMemory;
use limit_table::{LimitTable, total_in};
use std::alloc::Global;
use table_text::end_with_number;

/// The summary of the table of a document that has so many groups and tasks ("Bulk text",
/// docs/FORMAT.md).
#[tactic(auto, unfolding(crate::specs::BulkText::bulk_text_of))]
pub fn bulk_text(
    alloc: Global,
    groups: u32,
    tasks: u32,
    table: &LimitTable,
) -> Result<Vec<u8>, OutOfMemory>
    ensures { IfOk result (λ text. text.items ≡ bulk_text_of groups tasks table.now) }
{
    let mut text = String::new(alloc);
    end_with_number(&mut text, "groups ", u64::from(groups))?;
    end_with_number(&mut text, "tasks ", u64::from(tasks))?;
    end_with_number(&mut text, "closings ", table.closings.len() as u64)?;
    end_with_number(&mut text, "total ", total_in(&table.groups))?;
    Ok(text.into_bytes())
}
