// Laws: the nodes of a tree in preorder say which tree it is.
ghost use Rattle.std.specs.Prelude.{◌≡◌};
ghost use Rattle.branch_tree.specs.Trees.{BranchTree, preorder};

/// A law: a list of nodes is the preorder of at most one tree.
pub fn one_tree()
    ensures { (t u : BranchTree) → preorder t ≡ preorder u → t ≡ u }
{}
