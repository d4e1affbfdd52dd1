//! A table of tiers.

use bwe_specs::Closing;
use limit_table::GroupLine;
use std::marker::Model;

/// Limits, amounts and loads in kilobits per second, where tiers are filled one after the other.
///
/// `tiers` has the closings of each tier from 0 to the greatest one given, in their order, and none
/// where there is no group. A link that a tier has filled may close again in a later one. Limits
/// are by task, lines by group and loads by link. All groups get at most 1,048,576,000,000,000,000
/// together. `prefix` is the number of reports that it covers.
#[derive(Debug, Drop)]
pub struct TierTable {
    pub prefix: u64,
    pub tiers: Vec<Vec<Closing>>,
    pub limits: Vec<u64>,
    pub groups: Vec<GroupLine>,
    pub loads: Vec<u64>,
}

impl Model for TierTable {
    ghost use Rattle.tiers.specs.Tiered.{Tiered};
    ghost use Rattle.tiers.specs.Tables.{IsTierTable};
    ghost use Rattle.bwe_specs.specs.Lists.{lists_of};

    ghost Value = { Tiered };

    ghost view = { λ table. record {
      prefix = table.prefix;
      tiers = lists_of table.tiers.items;
      limits = table.limits.items;
      groups = table.groups.items;
      loads = table.loads.items;
    } };

    ghost invariant = { λ table. IsTierTable (record {
      prefix = table.prefix;
      tiers = lists_of table.tiers.items;
      limits = table.limits.items;
      groups = table.groups.items;
      loads = table.loads.items;
    }) };
}
