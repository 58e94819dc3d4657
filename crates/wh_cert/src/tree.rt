//! Trees that say why no one-way strategy costs less, as lists of their nodes, so that they are read and judged in one pass.

ghost use Rattle.std.specs.Prelude.{◌≡◌, ◌≤◌, ◌++◌, MatchOption, IsTrue, ◌↔◌};
ghost use Rattle.wh_cert.specs.Tree.{CaseTree, IsTreeOf, tree_of};
ghost use Rattle.wh_cert.specs.Inner.Preorder.{IsTreeFirst, NoTreeFirst};

use std::marker::Model;
use wh_dag::Couple;
use wh_strategy::Strategy;

/// How deep a tree may be; its root is 1 deep.
pub const MAX_DEPTH: usize = 1000;

/// A node of a tree, without those below it.
#[derive(Debug, Drop)]
pub enum TreeNode {
    /// A leaf: by the couples that are decided above, the bound is at least the work, so no strategy that keeps to them costs less.
    Bound,
    /// A leaf: by the couples that are decided above, these expressions are a cycle, each to stand before the next one and the last one
    /// before the first. No strategy keeps to them.
    Cycle(Strategy),
    /// A couple that is not decided above: the tree that follows decides that its lower view is installed first, the one
    /// after that the contrary.
    Branch(Couple),
}

/// A tree that says why no one-way strategy costs less, right or not: its nodes in preorder. It is at most [`MAX_DEPTH`]
/// deep.
#[derive(Debug, Drop)]
pub struct Tree {
    nodes: Vec<TreeNode>,
}

impl Model for Tree {
    ghost use Rattle.std.specs.Prelude.{List};
    ghost use Rattle.wh_cert.specs.Tree.{IsTreeOf, tree_of};
    ghost use Rattle.wh_cert.specs.declared.tree.TreeNode.{TreeNode};

    ghost Value = { List TreeNode };

    ghost view = { λ t. t.nodes.items };

    ghost invariant = { λ t. IsTreeOf t.nodes.items (tree_of t.nodes.items) };
}

impl Tree {
    /// Takes the nodes of a tree in preorder. `None` where they are those of no tree, or of one that is deeper than
    /// [`MAX_DEPTH`]; the nodes are then dropped. Whether the tree is right is for `certify` to judge. Takes O(N) for N
    /// nodes.
    pub fn new(nodes: Vec<TreeNode>) -> Option<Tree>
        ensures { MatchOption result ((tree : CaseTree) → IsTreeOf nodes.items tree → ⊥) (λ t. t ≡ nodes.items) }
    {
        if is_whole(&nodes) {
            Some(Tree { nodes })
        } else {
            None
        }
    }

    /// Returns the nodes in preorder.
    pub fn as_slice(&self) -> &[TreeNode]
        ensures nodes { result.now ≡ self.now }
        ensures tree { IsTreeOf self.now (tree_of self.now) }
    {
        &self.nodes
    }

    /// Gives the nodes back, in preorder.
    pub fn into_vec(self) -> Vec<TreeNode>
        ensures { result.items ≡ self }
    {
        self.nodes
    }
}

/// Returns the nodes after the first tree of these, where there is one that is at most so deep.
fn after_tree(nodes: &[TreeNode], deep: usize) -> Option<&[TreeNode]>
    ensures { MatchOption result (NoTreeFirst deep nodes.now) (λ rest. IsTreeFirst deep nodes.now rest.now) }
{
    let [node, rest @ ..] = nodes else {
        return None;
    };
    if deep == 0 {
        return None;
    }
    match node {
        TreeNode::Bound => Some(rest),
        TreeNode::Cycle(_) => Some(rest),
        TreeNode::Branch(_) => match after_tree(rest, deep - 1) {
            Some(right) => after_tree(right, deep - 1),
            None => None,
        },
    }
}

/// Returns whether the nodes are those of one tree that is not too deep.
fn is_whole(nodes: &[TreeNode]) -> bool
    ensures { IsTrue result ↔ IsTreeOf nodes.now (tree_of nodes.now) }
{
    match after_tree(nodes, MAX_DEPTH) {
        Some(rest) => rest.is_empty(),
        None => false,
    }
}
