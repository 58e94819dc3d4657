//! The way down a tree, by which its nodes are judged in preorder without recursion.

ghost use Rattle.std.specs.Prelude.{◌≡◌, ◌<◌, ◌≤◌, ◌∷◌, [], length};
ghost use Rattle.wh_cert.specs.Inner.Descent.{past, turned};

use crate::tree::{MAX_DEPTH, TreeNode};
use std::marker::Model;

/// The couples that are decided above a node of a tree, the nearest first. They stand at the end of a table, so a walk
/// down a tree takes no memory.
#[derive(Drop)]
pub(crate) struct Descent {
    table: [(usize, usize); MAX_DEPTH],
    top: usize,
}

impl Model for Descent {
    ghost use Rattle.std.specs.Prelude.{◌≤◌, List, ℕ, drop};

    ghost Value = { List (ℕ × ℕ) };

    ghost view = { λ d. drop d.top d.table };

    ghost invariant = { λ d. d.top ≤ 1000 };
}

impl Descent {
    /// Makes the way to the root: nothing is decided above it.
    pub(crate) fn new() -> Descent
        ensures { result ≡ [] }
    {
        Descent {
            table: [(0, 0); MAX_DEPTH],
            top: MAX_DEPTH,
        }
    }

    /// Returns the decisions, the nearest first.
    pub(crate) fn as_slice(&self) -> &[(usize, usize)]
        ensures { result.now ≡ self.now }
    {
        &self.table[self.top..]
    }

    fn push(&mut self, first: usize, second: usize)
        requires { length self.old < 1000 }
        ensures { self.new ≡ (first, second) ∷ self.old }
    {
        self.top -= 1;
        self.table[self.top] = (first, second);
    }

    /// Goes on from the end of a subtree to the other subtree of the nearest branch whose first one this was.
    fn turn(&mut self)
        ensures { self.new ≡ turned self.old }
    {
        while self.top < MAX_DEPTH {
            let (first, second) = self.table[self.top];
            if first < second {
                self.table[self.top] = (second, first);
                return;
            }
            self.top += 1;
        }
    }

    /// Goes on from a node to the next one in preorder.
    pub(crate) fn go_past(&mut self, node: &TreeNode)
        requires { length self.old < 1000 }
        ensures { self.new ≡ past node.now self.old }
    {
        match node {
            TreeNode::Bound | TreeNode::Cycle(_) => self.turn(),
            TreeNode::Branch(couple) => self.push(couple.lower, couple.higher),
        }
    }
}
