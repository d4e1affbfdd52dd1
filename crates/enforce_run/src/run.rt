//! The text of written events: what `bwe enforce` writes.

ghost use Rattle.std.specs.Prelude.{◌≡◌, ◌<◌, ◌≤◌, ◌^◌, [], IfOk, length};
ghost use Rattle.std.specs.List.{All};
ghost use Rattle.bwe_specs.specs.Fit.{IsFit};
ghost use Rattle.enforce_run.specs.EventLines.{AreThere};
ghost use Rattle.enforce_run.specs.EnforceText.{enforced_text};
ghost use Rattle.enforce_run.specs.Lawful.{AreLawful, DoSettle};
ghost use Rattle.enforce_run.specs.Playing.{regions_of as regions_of_owners};

use crate::event::EventLine;
use crate::play::play;
use crate::regions::regions_of;
use crate::text::enforce_text;
use bwe_specs::{MAX_REPORTS, OutOfMemory, Report};
use demand_book::Maker;
use doc_names::NameList;
use std::alloc::Global;

/// The text of the events on a world with a region for each reporter ("Enforce text",
/// docs/FORMAT.md).
///
/// Tables are the maker's, which has taken in nothing yet, of the first reports of the script.
/// `owners` has the number of the owner of each task, `names` the name of each task; a task without
/// a name is printed with an empty text.
#[tactic(auto, using(crate::proofs::Owners::regions_fit, crate::proofs::Owners::regions_few, crate::proofs::Owners::regions_counted), unfolding(crate::specs::EnforceText::enforced_text))]
pub fn enforce<M: Maker>(
    alloc: Global,
    maker: M,
    script: &[Report],
    reporters: u32,
    owners: &[u32],
    names: &NameList,
    lines: &[EventLine],
) -> Result<Vec<u8>, OutOfMemory>
    requires empty { M.absorbed maker [] }
    requires few { length script.now ≤ MAX_REPORTS }
    requires fit { All (IsFit (M.plan_tasks (M.plan maker)) (M.plan_links (M.plan maker)))
        script.now }
    requires owners { length owners.now ≡ M.plan_tasks (M.plan maker) }
    requires tasks { length owners.now < 2 ^ 32 }
    requires there { AreThere reporters [] lines.now }
    ensures text { IfOk result (λ text. text.items ≡ enforced_text M.Table.covers M.Table.limit_at
        (M.table_of (M.plan maker)) script.now (regions_of_owners reporters owners.now)
        names.now lines.now) }
    // at every moment of the events that are printed, and for all that come later
    ensures lawful { AreLawful M.Table.frame M.Table.covers M.Table.limit_at
        (M.table_of (M.plan maker))
        script.now (regions_of_owners reporters owners.now) lines.now }
    ensures settles { DoSettle M.Table.covers M.Table.limit_at (M.table_of (M.plan maker))
        script.now (regions_of_owners reporters owners.now) lines.now }
{
    let regions = regions_of(alloc, reporters, owners)?;
    let (answers, world) = play(alloc, maker, script, regions, lines)?;
    enforce_text(alloc, names, &answers, &world)
}
