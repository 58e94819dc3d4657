//! One-way plans as texts: read, judged and written again, and the first line that is at fault.

use crate::trees::given::{STRATEGY, judged, the_names};
use std::alloc::{AllocError, Global};
use std::process::Abort;
use std::test::Fail;
use wh_cert::{Certificate, Scope, TreeNode, Verdict};
use wh_load::{LoadFault, Plan, read_plan};

static CYCLE: &str = "cycle inst V1; comp V2 from B; inst B; comp V1 from C\n";

/// The plan of two lines, the eight of the list, and these.
fn plan_text(alloc: Global, tree: &str) -> Result<String, AllocError> {
    Ok(format!(in alloc; "scope one-way\nwork 490\n{STRATEGY}{tree}")?)
}

/// The plan with this tree.
fn plan_of(alloc: Global, tree: &str) -> Result<Plan, Fail> {
    let names = the_names(alloc)?;
    let text = plan_text(alloc, tree)?;
    Ok(read_plan(alloc, &names, text.as_bytes())?)
}

/// The first faulty line of the plan with these lines for its tree, if there is one.
fn faulty_line(alloc: Global, tree: &str) -> Result<Option<usize>, Fail> {
    let names = the_names(alloc)?;
    let text = plan_text(alloc, tree)?;
    match read_plan(alloc, &names, text.as_bytes()) {
        Ok(_) => Ok(None),
        Err(LoadFault::Plan(line)) => Ok(Some(line)),
        Err(fault) => Err(fault.into()),
    }
}

/// What is certified of the plan with these lines for its tree.
fn verdict(rt: &impl Abort, alloc: Global, tree: &str) -> Result<Verdict, Fail> {
    let plan = plan_of(alloc, tree)?;
    assert_eq!(rt; plan.scope, Scope::OneWay);
    assert_eq!(rt; plan.work, 490);
    judged(rt, alloc, plan.strategy, &plan.certificate)
}

/// So many lines of this text, and then so many of the other.
fn lines(
    alloc: Global,
    count: usize,
    text: &str,
    more: usize,
    other: &str,
) -> Result<String, AllocError> {
    let mut all = String::new(alloc);
    for _ in 0..count {
        all.push_str(text)?;
    }
    for _ in 0..more {
        all.push_str(other)?;
    }
    Ok(all)
}

#[test]
fn certify_tree_as_text(rt: HostRuntime) -> Result<(), Fail> {
    let alloc = rt.alloc();
    let tree = format!(in alloc; "branch B V1\nbound\nbranch B C\n{CYCLE}bound\n")?;
    assert_eq!(rt; verdict(&rt, alloc, &tree)?, Verdict::OneWay);
    assert_eq!(rt; verdict(&rt, alloc, "bound\n")?, Verdict::Rejected(1));
    Ok(())
}

#[test]
fn rejected_trees_as_texts(rt: HostRuntime) -> Result<(), Fail> {
    let alloc = rt.alloc();
    let twice = "branch B C\nbranch B C\nbound\nbound\nbound\n";
    assert_eq!(rt; verdict(&rt, alloc, twice)?, Verdict::Rejected(2));
    assert_eq!(rt; verdict(&rt, alloc, CYCLE)?, Verdict::Rejected(1));
    // Views that are no couple, one twice, and a Comp from two: these are for the certificate's judge.
    assert_eq!(rt;
        verdict(&rt, alloc, "branch V1 B\nbound\nbound\n")?,
        Verdict::Rejected(1)
    );
    assert_eq!(rt;
        verdict(&rt, alloc, "branch B B\nbound\nbound\n")?,
        Verdict::Rejected(1)
    );
    assert_eq!(rt;
        verdict(&rt, alloc, "cycle comp V1 from B C; inst B\n")?,
        Verdict::Rejected(1)
    );
    Ok(())
}

#[test]
fn the_nodes_of_a_tree_are_read_in_their_order(rt: HostRuntime) -> Result<(), Fail> {
    let alloc = rt.alloc();
    let tree = format!(in alloc; "branch B V1\nbound\n{CYCLE}")?;
    let plan = plan_of(alloc, &tree)?;
    let Certificate::Search(tree) = &plan.certificate else {
        assert!(&rt; false, "the certificate is a tree");
        return Ok(());
    };
    match tree.as_slice() {
        [
            TreeNode::Branch(couple),
            TreeNode::Bound,
            TreeNode::Cycle(list),
        ] => {
            assert_eq!(&rt; (couple.lower, couple.higher), (0, 2));
            assert_eq!(&rt; list.as_slice().len(), 4);
        }
        _ => assert!(&rt; false, "a branch, the bound and a cycle"),
    }
    Ok(())
}

#[test]
fn plan_tree_limits(rt: HostRuntime) -> Result<(), Fail> {
    let alloc = rt.alloc();
    let cut = format!(in alloc; "branch B V1\nbound\nbranch B C\n{CYCLE}")?;
    assert_eq!(rt; faulty_line(alloc, &cut)?, Some(15));
    let whole = format!(in alloc; "{cut}bound\n")?;
    assert_eq!(rt; faulty_line(alloc, &whole)?, None);
    let longer = format!(in alloc; "{whole}bound\n")?;
    assert_eq!(rt; faulty_line(alloc, &longer)?, Some(16));
    let deep = lines(alloc, 1001, "branch B C\n", 0, "")?;
    assert_eq!(rt; faulty_line(alloc, &deep)?, Some(1011));
    Ok(())
}

#[test]
fn a_tree_1000_deep_is_read(rt: HostRuntime) -> Result<(), Fail> {
    let alloc = rt.alloc();
    let deep = lines(alloc, 999, "branch B C\n", 1000, "bound\n")?;
    assert_eq!(rt; faulty_line(alloc, &deep)?, None);
    assert_eq!(rt; verdict(&rt, alloc, &deep)?, Verdict::Rejected(2));
    Ok(())
}

#[test]
fn a_tree_1001_deep_names_the_line_that_goes_too_deep(rt: HostRuntime) -> Result<(), Fail> {
    let alloc = rt.alloc();
    // Any node may go too deep.
    let by_bound = lines(alloc, 1000, "branch B C\n", 1001, "bound\n")?;
    assert_eq!(rt; faulty_line(alloc, &by_bound)?, Some(1011));
    let by_cycle = lines(alloc, 1000, "branch B C\n", 1, CYCLE)?;
    assert_eq!(rt; faulty_line(alloc, &by_cycle)?, Some(1011));
    // Where no line does, the text has ended too early.
    let cut = lines(alloc, 1000, "branch B C\n", 0, "")?;
    assert_eq!(rt; faulty_line(alloc, &cut)?, Some(1011));
    let on_the_right = lines(alloc, 999, "branch B C\n", 1, "bound\nbranch B C\n")?;
    let deeper = format!(in alloc; "{on_the_right}bound\n")?;
    assert_eq!(rt; faulty_line(alloc, &deeper)?, Some(1012));
    Ok(())
}

#[test]
fn lines_out_of_place_are_faults(rt: HostRuntime) -> Result<(), Fail> {
    let alloc = rt.alloc();
    assert_eq!(rt; faulty_line(alloc, "")?, Some(11));
    assert_eq!(rt; faulty_line(alloc, "\n\n")?, Some(13));
    assert_eq!(rt; faulty_line(alloc, "pair V1 B C 140\n")?, Some(11));
    assert_eq!(rt; faulty_line(alloc, "bound\ninst B\n")?, Some(12));
    assert_eq!(rt;
        faulty_line(alloc, "branch B C\nbound\n\nbound\n\ninst B\n")?,
        Some(16)
    );
    assert_eq!(rt; faulty_line(alloc, "cycle\n")?, Some(11));
    assert_eq!(rt; faulty_line(alloc, "branch B X\nbound\nbound\n")?, Some(11));
    Ok(())
}
