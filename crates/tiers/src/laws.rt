//! The law on tables of tiers, as the contract of a function that does nothing.

ghost use Rattle.tiers.specs.Laws.{TierPromise};

/// No demand of a higher tier matters: two worlds of one plan and tiers that agree on the
/// capacities, and on the demands of all tasks in tiers up to one, agree on the closings, group
/// lines and limits of these tiers.
pub fn tier_promise()
    ensures { TierPromise }
{}
