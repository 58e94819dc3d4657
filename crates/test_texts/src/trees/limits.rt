//! How deep a tree may be, and which lists of nodes are none.

use crate::trees::given::{Step, verdict};
use std::alloc::{AllocError, Global};
use std::test::Fail;
use wh_cert::{Tree, TreeNode, Verdict};
use wh_dag::Couple;

/// So many branches, each of which but the first stands right below the one before, and as many bounds as given.
fn chain(alloc: Global, branches: usize, bounds: usize) -> Result<Vec<TreeNode>, AllocError> {
    let mut nodes = Vec::new(alloc);
    for _ in 0..branches {
        nodes.push(TreeNode::Branch(Couple {
            lower: 0,
            higher: 1,
        }))?;
    }
    for _ in 0..bounds {
        nodes.push(TreeNode::Bound)?;
    }
    Ok(nodes)
}

#[test]
fn a_tree_is_at_most_1000_deep(rt: HostRuntime) -> Result<(), Fail> {
    let alloc = rt.alloc();
    assert!(rt; Tree::new(chain(alloc, 999, 1000)?).is_some());
    assert!(rt; Tree::new(chain(alloc, 1000, 1001)?).is_none());
    Ok(())
}

#[test]
fn the_nodes_are_those_of_one_tree(rt: HostRuntime) -> Result<(), Fail> {
    let alloc = rt.alloc();
    assert!(rt; Tree::new(chain(alloc, 0, 0)?).is_none());
    assert!(rt; Tree::new(chain(alloc, 2, 2)?).is_none());
    assert!(rt; Tree::new(chain(alloc, 2, 3)?).is_some());
    assert!(rt; Tree::new(chain(alloc, 2, 4)?).is_none());
    Ok(())
}

#[test]
fn a_tree_1000_deep_is_judged(rt: HostRuntime) -> Result<(), Fail> {
    let alloc = rt.alloc();
    let mut steps = Vec::new(alloc);
    for _ in 0..999 {
        steps.push(Step::Branch(0, 1))?;
    }
    for _ in 0..1000 {
        steps.push(Step::Bound)?;
    }
    assert_eq!(rt; verdict(&rt, alloc, &steps)?, Verdict::Rejected(2));
    Ok(())
}
