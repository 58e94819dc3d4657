//! Where, after some nodes of a tree in preorder, trees are still to stand. So a line too many is found when it is read.
ghost use Rattle.std.specs.Prelude.{◌≡◌, ◌==◌, ◌∷◌, [], length, IfOk};
ghost use Rattle.wh_text_lines.specs.TreeGrowth.{after_node};

use std::alloc::{AllocError, Global};
use std::marker::Model;
use wh_cert::{MAX_DEPTH, TreeNode};

/// The places where trees are still to stand, each as its depth. Seen with the next one first.
#[derive(Drop)]
pub(super) struct Places {
    next: Option<usize>,
    // Those after the next one, of which the next one stands last.
    later: Vec<usize>,
}

impl Model for Places {
    ghost use Rattle.std.specs.Prelude.{◌≡◌, ◌++◌, List, [], ℕ, None, reverse};
    ghost use Rattle.std.specs.Option.{option_to_list};

    ghost Value = { List ℕ };

    ghost view = { λ p. option_to_list p.next ++ reverse p.later.items };

    ghost invariant = { λ p. p.next ≡ None → p.later.items ≡ [] };
}

impl Places {
    /// Makes the place of a root.
    pub(super) fn root(alloc: Global) -> Places
        ensures { result ≡ 1 ∷ [] }
    {
        Places {
            next: Some(1),
            later: Vec::new(alloc),
        }
    }

    /// Returns whether no place is left.
    pub(super) fn is_empty(&self) -> bool
        ensures { result ≡ (length self.now == 0) }
    {
        self.next.is_none()
    }

    /// Returns the places after a node at the next one, or `None` where there is none or it lies too deep.
    pub(super) fn after(self, node: &TreeNode) -> Result<Option<Places>, AllocError>
        ensures { IfOk result (λ places. places ≡ after_node node.now self) }
    {
        let Places { next, mut later } = self;
        let Some(depth) = next else {
            return Ok(None);
        };
        if depth > MAX_DEPTH {
            return Ok(None);
        }
        if let TreeNode::Branch(_) = node {
            later.push(depth + 1)?;
            return Ok(Some(Places {
                next: Some(depth + 1),
                later,
            }));
        }
        Ok(Some(Places {
            next: later.pop(),
            later,
        }))
    }
}
