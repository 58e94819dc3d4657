//! Trees that are accepted or rejected at a node.

use crate::trees::given::{Step, verdict};
use std::test::Fail;
use wh_cert::Verdict;

static CYCLE: Step = Step::Cycle("inst V1\ncomp V2 from B\ninst B\ncomp V1 from C\n");

#[test]
fn certify_tree(rt: HostRuntime) -> Result<(), Fail> {
    let tree = [
        Step::Branch(0, 2),
        Step::Bound,
        Step::Branch(0, 1),
        CYCLE,
        Step::Bound,
    ];
    assert_eq!(rt; verdict(&rt, rt.alloc(), &tree)?, Verdict::OneWay);
    // The pair bound of 480 is below the work of 490.
    assert_eq!(rt;
        verdict(&rt, rt.alloc(), &[Step::Bound])?,
        Verdict::Rejected(1)
    );
    Ok(())
}

#[test]
fn rejected_trees(rt: HostRuntime) -> Result<(), Fail> {
    let twice = [
        Step::Branch(0, 1),
        Step::Branch(0, 1),
        Step::Bound,
        Step::Bound,
        Step::Bound,
    ];
    assert_eq!(rt; verdict(&rt, rt.alloc(), &twice)?, Verdict::Rejected(2));
    assert_eq!(rt; verdict(&rt, rt.alloc(), &[CYCLE])?, Verdict::Rejected(1));
    Ok(())
}
