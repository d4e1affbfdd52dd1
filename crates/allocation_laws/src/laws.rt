//! The laws, each the contract of a function that does nothing.

ghost use Rattle.allocation_laws.specs.Laws.{FillingReachesTop, NoLinkIsEverOver, FeasibilityLaw, CommonShareLaw, BottleneckLaw, CertificateLaw, RightAmountsLaw, VerdictLaw, DistributionAddsUp, DistributionLiesBetween, ConservationLaw, PlanValuesNeverFall, InterleavingLaw};

/// The filling ends at the top share.
pub fn filling_reaches_top()
    ensures { FillingReachesTop }
{}

/// No link is over at any moment of the filling.
pub fn no_link_is_ever_over()
    ensures { NoLinkIsEverOver }
{}

/// Feasibility law: in the allocation no link's load exceeds the capacity that it then has.
pub fn feasibility_law()
    ensures { FeasibilityLaw }
{}

/// Common-share law: a group's amount is its value at its stop share.
pub fn common_share_law()
    ensures { CommonShareLaw }
{}

/// Bottleneck law: a group that has less than at the top is held back on each of its path groups.
pub fn bottleneck_law()
    ensures { BottleneckLaw }
{}

/// Certificate law: closings are right exactly where they are the filling's.
pub fn certificate_law()
    ensures { CertificateLaw }
{}

/// The amounts of right closings are the filling's.
pub fn right_amounts_law()
    ensures { RightAmountsLaw }
{}

/// The verdict on a list of closings is Right exactly where it is the filling's.
pub fn verdict_law()
    ensures { VerdictLaw }
{}

/// What the children of a node get adds up to the node's amount.
pub fn distribution_adds_up()
    ensures { DistributionAddsUp }
{}

/// Each child gets from its value at the common share to its value at the next.
pub fn distribution_lies_between()
    ensures { DistributionLiesBetween }
{}

/// Conservation law: the limits of a group's tasks add up to its amount.
pub fn conservation_law()
    ensures { ConservationLaw }
{}

/// The values of a plan never fall, whatever was reported.
pub fn plan_values_never_fall()
    ensures { PlanValuesNeverFall }
{}

/// Interleaving law: the order of the reports of different reporters does not matter.
pub fn interleaving_law()
    ensures { InterleavingLaw }
{}
