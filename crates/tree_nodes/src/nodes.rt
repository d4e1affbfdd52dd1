//! What a tree tells of its numbered nodes.

ghost use Rattle.std.specs.Prelude.{◌≡◌, ◌<◌, length, IfOk};
ghost use Rattle.policy_tree.specs.Trees.{Tree};
ghost use Rattle.policy_tree.specs.Walk.{walk};
ghost use Rattle.tree_nodes.specs.Children.{child_numbers};
ghost use Rattle.tree_nodes.specs.Seen.{kind_of, node_in, group_node_in, value_of};

use crate::kind::Kind;
use crate::walked::{children_of, count_of, kind_among, value_among};
use bwe_specs::OutOfMemory;
use policy_tree::PolicyTree;
use std::alloc::Global;

/// A tree whose nodes are asked for by their numbers.
pub trait NodeNumbers {
    ghost tree: { Self → Tree };

    /// How many nodes there are: clusters, users and jobs. They are counted at each call.
    fn nodes(&self) -> u32
        ensures { result ≡ length (walk (tree self.now).clusters) };

    /// Of which kind a node is ("Numbering rule", docs/DEFINITIONS.md).
    ///
    /// A node is looked for in the order of the numbers, here and in `node_value`.
    fn kind(&self, node: u32) -> Kind
        requires { node < length (walk (tree self.now).clusters) }
        ensures { result ≡ kind_of (node_in (tree self.now) node) };

    /// The numbers of a node's children in their order: of its users, its jobs, or its tasks.
    ///
    /// The tree keeps no such list: each call makes those of all nodes, in one walk. No clause says
    /// when memory runs out.
    fn children(&self, alloc: Global, node: u32) -> Result<Vec<u32>, OutOfMemory>
        requires { node < length (walk (tree self.now).clusters) }
        ensures { IfOk result (λ numbers.
            numbers.items ≡ child_numbers node (node_in (tree self.now) node)) };

    /// The number of a group's cluster.
    fn group_node(&self, group: u32) -> u32
        requires { group < length (tree self.now).clusters }
        ensures { result ≡ group_node_in (tree self.now) group };

    /// What a node may have at a share, in kilobits per second.
    fn node_value(&self, node: u32, share: u64) -> u64
        requires { node < length (walk (tree self.now).clusters) }
        ensures { result ≡ value_of (tree self.now) (node_in (tree self.now) node) share };
}

impl NodeNumbers for PolicyTree {
    ghost tree = { λ tree. tree };

    fn nodes(&self) -> u32 {
        count_of(self.clusters())
    }

    fn kind(&self, node: u32) -> Kind {
        match kind_among(self.clusters(), node) {
            Ok(kind) => kind,
            Err(_) => Kind::Job,
        }
    }

    fn children(&self, alloc: Global, node: u32) -> Result<Vec<u32>, OutOfMemory> {
        let lists = children_of(alloc, self.clusters())?;
        let numbers = Vec::from_slice(alloc, lists[node as usize].as_slice())?;
        Ok(numbers)
    }

    fn group_node(&self, group: u32) -> u32 {
        count_of(&self.clusters()[..group as usize])
    }

    fn node_value(&self, node: u32, share: u64) -> u64 {
        match value_among(self.clusters(), node, share) {
            Ok(value) => value,
            Err(_) => 0,
        }
    }
}
