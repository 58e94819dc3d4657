// Plans over bases A and B and V over both.

mod given;

use crate::texts::cases::{Reads, agree, fault_line, text_of, two_children, two_children_names};
use given::{FAULTS, PLAN_ALL, PLANS};
use std::alloc::{AllocError, Global};
use wh_cert::{Certificate, Planned, Scope, TreeNode};
use wh_dag::Shape;
use wh_load::{Names, Plan, read_plan, read_sizes, write_plan, write_strategy};
use wh_minwork::min_work;
use wh_strategy::Costs;

/// The lines of a plan: its scope and work, its strategy, and its certificate.
fn plan_lines(alloc: Global, names: &Names, plan: &Plan) -> Result<String, AllocError> {
    let scope = if plan.scope == Scope::All {
        "all"
    } else {
        "one-way"
    };
    let work = plan.work;
    let mut list = Vec::new(alloc);
    write_strategy(&mut list, names, &plan.strategy)?;
    let list = text_of(alloc, &list)?;
    let mut text = format!(in alloc; "{scope} {work}\n{list}")?;
    match &plan.certificate {
        Certificate::Pairs(pairs) => {
            for pair in pairs.as_slice() {
                let (parent, first, second, least) = (
                    pair.parent,
                    pair.first,
                    pair.second,
                    pair.least,
                );
                text.push_str(format!(in alloc;
                    "pair {parent} {first} {second} {least}\n"
                )?.as_str())?;
            }
        }
        Certificate::Search(tree) => {
            for node in tree.as_slice() {
                text.push_str(node_line(alloc, names, node)?.as_str())?;
            }
        }
    }
    Ok(text)
}

/// The lines of a node of a certificate.
fn node_line(alloc: Global, names: &Names, node: &TreeNode) -> Result<String, AllocError> {
    match node {
        TreeNode::Bound => String::from_str(alloc, "bound\n"),
        TreeNode::Branch(couple) => {
            let (lower, higher) = (couple.lower, couple.higher);
            Ok(format!(in alloc; "branch {lower} {higher}\n")?)
        }
        TreeNode::Cycle(list) => {
            let mut text = Vec::new(alloc);
            write_strategy(&mut text, names, list)?;
            let text = text_of(alloc, &text)?;
            Ok(format!(in alloc; "cycle\n{text}")?)
        }
    }
}

/// What a plan says, or the fault.
pub(crate) fn outcome(alloc: Global, text: &[u8]) -> Result<String, AllocError> {
    let Ok(names) = two_children_names(alloc) else {
        return String::from_str(alloc, "no names");
    };
    match read_plan(alloc, &names, text) {
        Ok(plan) => plan_lines(alloc, &names, &plan),
        Err(fault) => fault_line(alloc, &fault),
    }
}

#[test]
fn plans_are_read_or_their_fault_is_told(rt: HostRuntime) -> Result<(), AllocError> {
    agree(&rt, rt.alloc(), Reads::Plan, "", PLANS)?;
    agree(&rt, rt.alloc(), Reads::Plan, "", FAULTS)
}

/// A plan for one view over two.
fn plan_all(alloc: Global, shape: &Shape) -> Option<Planned> {
    let rows = b"view,pre,post,change\nA,10,12,4\nB,100,70,30\nV,50,44,6\n";
    let sizes = read_sizes(alloc, shape, rows).ok()?;
    let costs = Costs::new(1, 1)?;
    min_work(alloc, shape, &sizes, costs).ok()
}

/// The text of a plan for one view over two.
fn plan_all_text(alloc: Global) -> Result<Vec<u8>, AllocError> {
    let Ok(shape) = two_children(alloc) else {
        return Ok(Vec::new(alloc));
    };
    match plan_all(alloc, &shape) {
        Some(planned) => plan_text(alloc, &shape, &planned),
        None => Ok(Vec::new(alloc)),
    }
}

/// The text of a plan.
fn plan_text(alloc: Global, shape: &Shape, planned: &Planned) -> Result<Vec<u8>, AllocError> {
    let names = Names::of(alloc, shape)?;
    let mut out = Vec::new(alloc);
    write_plan(alloc, &mut out, &names, planned)?;
    Ok(out)
}

#[test]
fn the_plan_of_plan_all_is_written(rt: HostRuntime) -> Result<(), AllocError> {
    let text = plan_all_text(rt.alloc())?;
    assert_eq!(&rt; text.as_slice(), PLAN_ALL.as_bytes());
    Ok(())
}
