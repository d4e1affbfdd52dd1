//! The laws, each the contract of a function that does nothing.

ghost use Rattle.max_min.specs.Laws.{LastPathGroupLaw, LevelLaw, MaxMinLaw, PushingOutLaw, WorstOffLaw};

/// Max-min law: where each group has one path group, whoever has a higher share in another
/// assignment has it at the cost of another group over the link that stopped it, which has no more
/// there.
pub fn max_min_law()
    ensures { MaxMinLaw }
{}

/// Worst-off law: no assignment gives every group more than the least share of a table that is
/// max-min fair.
pub fn worst_off_law()
    ensures { WorstOffLaw }
{}

/// Level law: no assignment gives more to all who stopped at one share, and no less to all who
/// stopped before.
pub fn level_law()
    ensures { LevelLaw }
{}

/// Last-path-group law: the max-min law of a link that each group over it uses by no path group but
/// the one on which it stopped, where all keep what they have on their other path groups.
pub fn last_path_group_law()
    ensures { LastPathGroupLaw }
{}

/// Pushing-out law: under any other amounts within the capacity of a closed link a path group over
/// it has less than here, or less than that and its growth to the next share at the closing.
pub fn pushing_out_law()
    ensures { PushingOutLaw }
{}
