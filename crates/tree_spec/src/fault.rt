//! Why a tree is refused.

use bwe_specs::OutOfMemory;
use thiserror::Error;

/// What is wrong with a tree, in the order in which it is looked for.
#[derive(Clone, Copy, Debug, PartialEq, Eq, Error)]
pub enum TreeFault {
    /// The node has no child, and no lower node has none. A job without tasks is one.
    #[error("node {node} has no child")]
    EmptyNode { node: u32 },
    /// There are more tasks than any document may have: 1,048,576.
    #[error("there are {count} tasks")]
    TooManyTasks { count: u64 },
}

/// Why `PolicyTree::build` made no tree.
#[derive(Clone, Copy, Debug, PartialEq, Eq, Error)]
pub enum TreeError {
    /// The tree has this fault.
    #[error("{fault}")]
    Refused { fault: TreeFault },
    /// Memory ran out.
    #[error("out of memory")]
    OutOfMemory,
}

impl From<OutOfMemory> for TreeError {
    ghost use Rattle.std.specs.Prelude.{◌≡◌};
    ghost use Rattle.tree_spec.specs.declared.fault.TreeError.TheVariants.{OutOfMemory};

    ghost from_gives = { λ _ error. error ≡ OutOfMemory };

    fn from(_error: OutOfMemory) -> TreeError {
        TreeError::OutOfMemory
    }
}
