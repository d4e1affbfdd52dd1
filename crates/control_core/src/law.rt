//! The law on all runs of the control plane.

ghost use Rattle.control_core.specs.Laws.{IsControlLaw};

use demand_book::Maker;

/// The posted prefix never falls; the slices at the revision of a posting are together the table of
/// the posted prefix, and so at every revision where no table is sent in parts; a posted prefix is
/// below the revision at which it was posted, and the reports up to it are the same for ever; and
/// what a reader was told is posted, or saw, the posted prefix reaches for ever ("Control law",
/// docs/DEFINITIONS.md).
pub fn control_law<M: Maker>()
    ensures { (plan : M.Plan)
        → IsControlLaw (λ reports task. M.Table.limit_at (M.table_of plan reports) task) }
{}
