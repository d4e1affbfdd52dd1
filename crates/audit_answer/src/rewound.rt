//! An allocator that is to begin anew.

ghost use Rattle.std.specs.Prelude.{◌≡◌, ◌≤◌, All, IfOk, OnOk, [], length, replicate};
ghost use Rattle.bwe_specs.specs.declared.limits.TheConstants.{MAX_AMOUNT};
ghost use Rattle.allocator.specs.Frames.{task_count};

use allocator::Allocator;
use bwe_specs::OutOfMemory;
use demand_book::Maker;
use policy_tree::PolicyTree;
use wan_topology::Topology;

/// The allocator of the same plan before any report. `given` are the plan's capacities.
///
/// It costs a step for each task and each link, and reads no document again.
pub(crate) fn rewound(allocator: Allocator, given: &[u64]) -> Result<Allocator, OutOfMemory>
    requires given { given.now ≡ (⟦<Allocator as Maker>⟧.plan allocator).capacities }
    requires range { All (λ capacity. capacity ≤ MAX_AMOUNT) given.now }
    ensures plan { IfOk result (λ again.
        ⟦<Allocator as Maker>⟧.plan again ≡ ⟦<Allocator as Maker>⟧.plan allocator) }
    ensures first { IfOk result (λ again. ⟦<Allocator as Maker>⟧.absorbed again []) }
{
    let (mut tree, mut topology, plan) = allocator.into_parts();
    ask_nothing(&mut tree)?;
    give(&mut topology, given);
    Ok(Allocator::new(tree, topology, plan))
}

// Sets each task's demand to 0.
fn ask_nothing(tree: &mut PolicyTree) -> Result<(), OutOfMemory>
    ensures top { OnOk result (tree.new.top ≡ tree.old.top) }
    ensures clusters { OnOk result (tree.new.clusters ≡ tree.old.clusters) }
    ensures idle { OnOk result (tree.new.demands ≡ replicate (length tree.new.demands) 0) }
{
    for task in 0..tree.tasks() {
        tree.set_demand(task, 0)?;
    }
    Ok(())
}

// Sets each link's capacity.
fn give(topology: &mut Topology, given: &[u64])
    requires links { length given.now ≡ length topology.old.capacities }
    requires range { All (λ capacity. capacity ≤ MAX_AMOUNT) given.now }
    ensures { topology.new ≡ record topology.old { capacities = given.now } }
{
    for link in 0..topology.links() {
        topology.set_capacity(link, given[link as usize]);
    }
}
