//! A table of limits.

ghost use Rattle.std.specs.Prelude.{◌≡◌, ◌<◌, ◌^◌, sum_by};

use crate::line::GroupLine;
use bwe_specs::Closing;
use std::marker::Model;

/// Limits, amounts and loads in kilobits per second, for the demands and capacities after the first
/// `prefix` reports.
///
/// Limits are by task, lines by group and loads by link. Closings stand in their order.
/// All groups get at most `MAX_TOTAL` together.
#[derive(Debug, Drop)]
pub struct LimitTable {
    pub prefix: u64,
    pub limits: Vec<u64>,
    pub groups: Vec<GroupLine>,
    pub loads: Vec<u64>,
    pub closings: Vec<Closing>,
}

impl Model for LimitTable {
    ghost use Rattle.bwe_specs.specs.Allocation.{Table};
    ghost use Rattle.limit_table.specs.Tables.{IsTable};

    ghost Value = { Table };

    ghost view = { λ table. record {
      prefix = table.prefix;
      limits = table.limits.items;
      groups = table.groups.items;
      loads = table.loads.items;
      closings = table.closings.items;
    } };

    ghost invariant = { λ table. IsTable (record {
      prefix = table.prefix;
      limits = table.limits.items;
      groups = table.groups.items;
      loads = table.loads.items;
      closings = table.closings.items;
    }) };
}

/// What the lines' groups get together.
pub fn total_in(lines: &[GroupLine]) -> u64
    requires { sum_by (λ line. line.amount) lines.now < 2 ^ 64 }
    ensures { result ≡ sum_by (λ line. line.amount) lines.now }
{
    let mut total = 0;
    for line in lines {
        total += line.amount;
    }
    total
}
