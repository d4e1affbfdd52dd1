//! A tree and a network after a script.

ghost use Rattle.std.specs.Prelude.{◌≡◌, ◌+◌, ℕ, List, length, replicate, All, OnOk};
ghost use Rattle.bwe_specs.specs.Fit.{IsFit};
ghost use Rattle.plain_table.specs.Reported.{reported_in, reported_with, with_report};
ghost use Rattle.plain_table.specs.Scripts.{IsAfterScript};

use bwe_specs::{OutOfMemory, Report, Target};
use policy_tree::PolicyTree;
use wan_topology::Topology;

/// Takes in all reports of a script in their order. No demand was set before.
///
/// Out of memory, some of them were taken in.
pub(crate) fn take_in_all(
    tree: &mut PolicyTree,
    topology: &mut Topology,
    script: &[Report],
) -> Result<(), OutOfMemory>
    requires idle { tree.old.demands ≡ replicate (length tree.old.demands) 0 }
    requires fit { All (IsFit (length tree.old.demands) (length topology.old.capacities))
        script.now }
    ensures { OnOk result (IsAfterScript (reported_in tree.old topology.old 0)
        (reported_with tree.new topology.new topology.old.capacities (length script.now))
        script.now) }
{
    for report in script {
        take_in(tree, topology, *report)?;
    }
    Ok(())
}

// Takes in one report: the demand of its task, or the capacity of its link.
fn take_in(
    tree: &mut PolicyTree,
    topology: &mut Topology,
    report: Report,
) -> Result<(), OutOfMemory>
    requires { IsFit (length tree.old.demands) (length topology.old.capacities) report }
    ensures { OnOk result ((given : List ℕ) (prefix : ℕ)
        → reported_with tree.new topology.new given (prefix + 1)
        ≡ with_report (reported_with tree.old topology.old given prefix) report) }
{
    match report.target {
        Target::Task { number } => tree.set_demand(number, report.amount),
        Target::Link { number } => {
            topology.set_capacity(number, report.amount);
            Ok(())
        }
    }
}
