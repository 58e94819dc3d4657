//! Writes the tree of a plan as text: a line for each node, in preorder.
ghost use Rattle.std.specs.Prelude.{◌≡◌, ◌++◌, OnOk};
ghost use Rattle.std.specs.List.{join_with_byte};
ghost use Rattle.wh_text_lines.specs.TreeText.{branch_words, cycle_text, node_text, parted_text, tree_text};

use crate::expression::{append_expression, append_name};
use std::alloc::AllocError;
use wh_cert::TreeNode;
use wh_dag::Couple;
use wh_strategy::Expression;
use wh_text::Names;

/// Appends a semicolon, a space and the text of each of these expressions.
fn append_parted(out: &mut Vec<u8>, names: &Names, list: &[Expression]) -> Result<(), AllocError>
    ensures { OnOk result (out.new.items ≡ out.old.items ++ parted_text names.now list.now) }
{
    for expression in list {
        out.extend_from_slice(b"; ")?;
        append_expression(out, names, expression)?;
    }
    Ok(())
}

/// Appends the line of a cycle, without its LF.
fn append_cycle(out: &mut Vec<u8>, names: &Names, list: &[Expression]) -> Result<(), AllocError>
    ensures { OnOk result (out.new.items ≡ out.old.items ++ cycle_text names.now list.now) }
{
    let [first, rest @ ..] = list else {
        return out.extend_from_slice(b"cycle");
    };
    out.extend_from_slice(b"cycle ")?;
    append_expression(out, names, first)?;
    append_parted(out, names, rest)
}

/// Appends the line of a branch, without its LF.
fn append_branch(out: &mut Vec<u8>, names: &Names, couple: Couple) -> Result<(), AllocError>
    ensures { OnOk result (out.new.items ≡ out.old.items ++ join_with_byte 32 (branch_words names.now couple)) }
{
    out.extend_from_slice(b"branch ")?;
    append_name(out, names, couple.lower)?;
    out.push(b' ')?;
    append_name(out, names, couple.higher)
}

/// Appends the line of a node, without its LF.
fn append_node(out: &mut Vec<u8>, names: &Names, node: &TreeNode) -> Result<(), AllocError>
    ensures { OnOk result (out.new.items ≡ out.old.items ++ node_text names.now node.now) }
{
    match node {
        TreeNode::Bound => out.extend_from_slice(b"bound"),
        TreeNode::Cycle(list) => append_cycle(out, names, list.as_slice()),
        TreeNode::Branch(couple) => append_branch(out, names, *couple),
    }
}

/// Appends the nodes of a tree as they are written. A number that is no view's is written as an empty name.
pub(crate) fn append_tree(
    out: &mut Vec<u8>,
    names: &Names,
    nodes: &[TreeNode],
) -> Result<(), AllocError>
    ensures { OnOk result (out.new.items ≡ out.old.items ++ tree_text names.now nodes.now) }
{
    for node in nodes {
        append_node(out, names, node)?;
        out.push(b'\n')?;
    }
    Ok(())
}
