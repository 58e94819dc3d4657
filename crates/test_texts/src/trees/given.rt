//! A catalogue whose ordered graph has a cycle, and a strategy over it that is least among one-way ones.

use std::alloc::Global;
use std::process::Abort;
use std::test::Fail;
use wh_cert::{Certificate, Tree, TreeNode, Verdict, certify};
use wh_dag::Couple;
use wh_load::{Names, read_shape, read_sizes, read_strategy};
use wh_strategy::{Costs, Strategy, check};

static CATALOGUE: &str =
    "view = [{ name = \"B\" }, { name = \"C\" }, { name = \"V1\", over = [\"B\", \"C\"] }, { name = \"V2\", over = [\"B\", \"V1\"] }]";

static SIZES: &str = "view,pre,post,change\nB,100,90,20\nC,50,55,5\nV1,80,60,40\nV2,200,190,30\n";

/// The list, of work 490 at costs of 1.
pub(crate) static STRATEGY: &str =
    "comp V1 from B\ncomp V2 from B\ninst B\ncomp V1 from C\ncomp V2 from V1\ninst C\ninst V1\ninst V2\n";

/// A node of a tree over the views B, C, V1 and V2, which are 0 to 3.
#[derive(Clone, Copy)]
pub(crate) enum Step {
    /// The bound.
    Bound,
    /// A cycle, an expression a line.
    Cycle(&'static str),
    /// A couple, by its numbers.
    Branch(usize, usize),
}

/// The nodes of a certificate, by steps.
fn nodes(alloc: Global, names: &Names, steps: &[Step]) -> Result<Vec<TreeNode>, Fail> {
    let mut nodes = Vec::new(alloc);
    for step in steps {
        nodes.push(match step {
            Step::Bound => TreeNode::Bound,
            Step::Cycle(list) => TreeNode::Cycle(read_strategy(alloc, names, list.as_bytes())?),
            Step::Branch(lower, higher) => TreeNode::Branch(Couple {
                lower: *lower,
                higher: *higher,
            }),
        })?;
    }
    Ok(nodes)
}

/// The verdict on the strategy with the tree of these nodes, at costs of 1.
pub(crate) fn verdict(rt: &impl Abort, alloc: Global, steps: &[Step]) -> Result<Verdict, Fail> {
    let names = the_names(alloc)?;
    let tree = Tree::new(nodes(alloc, &names, steps)?).expect(rt, "the nodes of a tree");
    let list = read_strategy(alloc, &names, STRATEGY.as_bytes())?;
    judged(rt, alloc, list, &Certificate::Search(tree))
}

/// The names B, C, V1 and V2.
pub(crate) fn the_names(alloc: Global) -> Result<Names, Fail> {
    let shape = read_shape(alloc, CATALOGUE.as_bytes())?;
    Ok(Names::of(alloc, &shape)?)
}

/// The verdict on a list with this certificate, at costs of 1.
pub(crate) fn judged(
    rt: &impl Abort,
    alloc: Global,
    list: Strategy,
    certificate: &Certificate,
) -> Result<Verdict, Fail> {
    let shape = read_shape(alloc, CATALOGUE.as_bytes())?;
    let sizes = read_sizes(alloc, &shape, SIZES.as_bytes())?;
    let correct = check(alloc, &shape, list)?;
    let costs = Costs::new(1, 1).expect(rt, "costs of 1");
    assert!(rt; correct.is_of(&shape) && sizes.len() == shape.len());
    Ok(certify(&shape, &sizes, costs, &correct, certificate))
}
