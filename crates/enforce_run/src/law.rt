//! The laws of written events, each the contract of a function that does nothing.

ghost use Rattle.std.specs.Prelude.{◌≡◌};
ghost use Rattle.enforce_run.specs.Lawful.{WrittenEventsAreLawful};

use bwe_specs::MAX_EVENTS;
use demand_book::Maker;

/// Written events are events of the World: at every moment of them the World law holds, and where
/// each region has taken the posted table and not restarted since, the limits in force of all
/// regions together are those of one table, that of the first reports of the script ("Laws of a
/// table" and "World law", docs/DEFINITIONS.md).
pub fn written_events_are_lawful<M: Maker>()
    ensures { (plan : M.Plan)
        → WrittenEventsAreLawful M.Table.frame M.Table.covers M.Table.limit_at (M.table_of plan) }
{}

/// The number of events that docs/FORMAT.md states is that of the code.
pub fn there_are_at_most_2000_events()
    ensures { MAX_EVENTS ≡ 2_000 }
{}
