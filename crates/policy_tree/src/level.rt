//! The nodes of one level, be they jobs, users or clusters.

ghost use Rattle.std.specs.Prelude.{◌≡◌, ℕ, ◌≤◌, map, sum_by, All, IfOk};

use bwe_specs::{MAX_TASKS, OutOfMemory};
use function_sum::{Outline, ShareFunction};
use std::alloc::Global;

/// A node of a level.
pub(crate) trait LevelNode: Drop {
    type Spec: Drop;

    ghost HasWeights: { Self.Spec → Type 0 };

    ghost weights: { Self.Spec → ℕ };

    ghost idle: { Self.Spec → Self };

    ghost IsState: { Self → Type 0 };

    /// The node of a spec. Every demand is 0. `is_searched` tells whether a node above has a
    /// configured function, so that shares are searched for by the values of this one.
    fn new(alloc: Global, spec: Self::Spec, is_searched: bool) -> Result<Self, OutOfMemory>
        requires weights { HasWeights spec }
        requires few { weights spec ≤ MAX_TASKS }
        ensures idle { IfOk result (λ node. node ≡ idle spec) }
        ensures is { IfOk result (λ node. IsState node) };

    /// Makes the value cheap again: up to `top`, searches begin along new outlines.
    fn rematch(&mut self, top: u64)
        ensures { self.new ≡ self.old };

    /// Makes the value cheap again where few are asked for: it draws no outlines.
    fn refresh(&mut self)
        ensures { self.new ≡ self.old };
}

/// The nodes of their specs.
pub(crate) fn nodes_of<N: LevelNode>(
    alloc: Global,
    specs: Vec<N::Spec>,
    is_searched: bool,
) -> Result<Vec<N>, OutOfMemory>
    requires weights { All N.HasWeights specs.items }
    requires few { sum_by N.weights specs.items ≤ MAX_TASKS }
    ensures idle { IfOk result (λ nodes. nodes.items ≡ map N.idle specs.items) }
    ensures are { IfOk result (λ nodes. All N.IsState nodes.items) }
{
    let mut nodes = Vec::with_capacity(alloc, specs.len())?;
    for spec in specs {
        let node = N::new(alloc, spec, is_searched)?;
        nodes.push(node)?;
    }
    Ok(nodes)
}

/// Makes the value of each node cheap again.
pub(crate) fn rematch_all<N: LevelNode>(nodes: &mut [N], top: u64)
    ensures { nodes.new ≡ nodes.old }
{
    for node in nodes.iter_mut() {
        node.rematch(top);
    }
}

/// The same for few values of each.
pub(crate) fn refresh_all<N: LevelNode>(nodes: &mut [N])
    ensures { nodes.new ≡ nodes.old }
{
    for node in nodes.iter_mut() {
        node.refresh();
    }
}

/// The outline of a node's children, where shares are searched for by their values: below or above
/// a configured function. Elsewhere it never has a point, since the one search for a table takes
/// less than its drawing.
pub(crate) fn outline_of<P: ShareFunction>(
    alloc: Global,
    children: &[P],
    is_searched: bool,
) -> Result<Outline, OutOfMemory> {
    let drawn = if is_searched {
        children
    } else {
        &children[..0]
    };
    Outline::new(alloc, drawn)
}
