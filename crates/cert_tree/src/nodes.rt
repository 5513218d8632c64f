//! Trees of nodes in preorder.
ghost use Rattle.std.specs.Prelude.{◌≡◌};
ghost use Rattle.cert_tree.specs.Trees.{IsWhole};

use lin_bound::Mult;
use sqlite_items::Items;
use std::marker::Model;

/// A node of a tree: a box that multipliers close, a box split at `var <= at`, whose halves follow, or a box where
/// nothing was done.
#[derive(Debug, Drop)]
pub enum TreeNode {
    Leaf(Mult),
    Split { var: u32, at: u64, mult: Mult },
    Open,
}

/// One whole tree: a split's lower half follows it, and then its upper half.
#[derive(Debug, Drop)]
pub struct Tree {
    nodes: Items<TreeNode>,
}

impl Model for Tree {
    ghost use Rattle.std.specs.Prelude.{List};
    ghost use Rattle.cert_tree.specs.declared.nodes.TreeNode.{TreeNode};
    ghost use Rattle.cert_tree.specs.Trees.{IsWhole};

    ghost Value = { List TreeNode };

    ghost view = { λ tree. tree.nodes };

    ghost invariant = { λ tree. IsWhole 1 tree.nodes };
}

impl Tree {
    /// The tree of these nodes, which are one whole tree.
    pub(crate) fn new(nodes: Items<TreeNode>) -> Tree
        requires { IsWhole 1 nodes }
        ensures { result ≡ nodes }
    {
        Tree { nodes }
    }

    /// The nodes in preorder.
    pub fn nodes(&self) -> &[TreeNode]
        ensures nodes { result.now ≡ self.now }
        ensures whole { IsWhole 1 self.now }
    {
        self.nodes.as_slice()
    }
}
