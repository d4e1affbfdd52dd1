//! The laws on all runs of the world.

ghost use Rattle.enforcer_core.specs.Laws.{IsWorldLaw};
ghost use Rattle.enforcer_core.specs.Settled.{EnforcementSettles};

use demand_book::Posted;

/// What is in force in a region is the limits, for its tasks, of a table that was posted; the
/// prefixes in force along a region never fall, over restarts too; what a region acknowledged is
/// not above its floor, and that not above the posted prefix; and from any moment on no table is
/// put in force with a prefix below what was settled then ("World law", docs/DEFINITIONS.md).
pub fn world_law<T: Posted>()
    ensures { IsWorldLaw T.frame T.covers T.limit_at }
{}

/// Enforcement settles: where each region has taken the posted table and not restarted since, the
/// limits in force of all regions together are those of that one table ("Laws of a table",
/// docs/DEFINITIONS.md).
pub fn enforcement_settles<T: Posted>()
    ensures { EnforcementSettles T.frame T.covers T.limit_at }
{}
