//! Which rule a list breaks and where, what it costs, and which sizes are refused.

use crate::plans::given::{
    Measured, SIX, SIX_SIZES, TWO_BASES, TWO_BASES_SIZES, given, given_weighed, listed, sized,
    weighed,
};
use std::alloc::{AllocError, Global};
use std::process::Abort;
use std::test::Fail;
use test_given::shapes::shaped;
use wh_dag::{Shape, ShapeFault};
use wh_strategy::{CheckFault, Costs, OutOfRange, check, work};

/// What a check and the work of a list answer at costs of 1.
#[derive(Debug, Clone, Copy, PartialEq, Eq)]
enum Verdict {
    Work(u128),
    Broken(u8, usize),
    Memory,
}

/// The verdict on a list, and its work where it is correct.
fn judged(
    rt: &impl Abort,
    alloc: Global,
    given: &Measured,
    steps: &str,
) -> Result<Verdict, AllocError> {
    let Measured { shape, sizes } = given;
    assert_eq!(rt; sizes.len(), shape.len());
    let costs = Costs::new(1, 1).expect(rt, "costs of 1");
    match check(alloc, shape, listed(alloc, shape, steps)?) {
        Ok(correct) => Ok(Verdict::Work(work(shape, sizes, costs, &correct))),
        Err(CheckFault::Broken { rule, place }) => Ok(Verdict::Broken(rule.number(), place)),
        Err(CheckFault::Memory) => Ok(Verdict::Memory),
    }
}

// V over A and B; in two rows a rule of a higher number is broken too, at a lower place.
static OVER_TWO_BASES: [(&str, &str, Verdict); 13] = [
    ("one_way_check", "V<B B V<A A V", Verdict::Work(154)),
    (
        "two_comps_before_inst",
        "V<B V<A B A V",
        Verdict::Broken(4, 2),
    ),
    ("both_children_at_once", "V<A+B A B V", Verdict::Work(218)),
    ("missing_inst", "V<B B V<A A", Verdict::Broken(2, 5)),
    ("an empty list", "", Verdict::Broken(1, 1)),
    ("a Comp of a base view", "A<B", Verdict::Broken(1, 1)),
    ("a source twice", "V<B+B", Verdict::Broken(1, 1)),
    (
        "a source in two Comps",
        "V<B B V<A+B",
        Verdict::Broken(1, 3),
    ),
    (
        "a Comp of no view, after a second Inst",
        "V<A+B B B Z<B",
        Verdict::Broken(1, 4),
    ),
    ("a second Inst", "V<A+B B B A V", Verdict::Broken(2, 3)),
    (
        "an Inst of no view, after an Inst before its Comp",
        "B V<A+B A V Z",
        Verdict::Broken(2, 5),
    ),
    (
        "an Inst before its Comp",
        "B V<A+B A V",
        Verdict::Broken(3, 2),
    ),
    (
        "a Comp after its own Inst",
        "V V<A+B B A",
        Verdict::Broken(5, 2),
    ),
];

#[test]
fn lists_over_two_bases_are_judged_as_worked_by_hand(rt: HostRuntime) -> Result<(), Fail> {
    let alloc = rt.alloc();
    let given = given(&rt, alloc, &TWO_BASES, &TWO_BASES_SIZES)?;
    for (name, steps, verdict) in &OVER_TWO_BASES {
        assert_eq!(rt; judged(&rt, alloc, &given, steps)?, *verdict, "{name}");
    }
    Ok(())
}

// Each row of A weighs 10, so A counts as 100 rows, then 120, of which 40 change: 130 + 30 + 110 + 40 + 6.
#[test]
fn weighted_work(rt: HostRuntime) -> Result<(), Fail> {
    let alloc = rt.alloc();
    let given = given_weighed(&rt, alloc, &TWO_BASES_SIZES, &[10, 1, 1])?;
    let verdict = judged(&rt, alloc, &given, "V<B B V<A A V")?;
    assert_eq!(rt; verdict, Verdict::Work(316));
    Ok(())
}

static CHAIN: [(&str, &str); 3] = [("A", "-"), ("V", "A"), ("W", "V")];

static CHAIN_SIZES: [(u64, u64, u64); 3] = [(10, 10, 1), (10, 10, 1), (10, 10, 1)];

#[test]
fn a_view_is_complete_before_it_is_read(rt: HostRuntime) -> Result<(), Fail> {
    let alloc = rt.alloc();
    let given = given(&rt, alloc, &CHAIN, &CHAIN_SIZES)?;
    let late = judged(&rt, alloc, &given, "W<V V<A A V W")?;
    assert_eq!(rt; late, Verdict::Broken(6, 2));
    let in_time = judged(&rt, alloc, &given, "V<A W<V A V W")?;
    assert_eq!(rt; in_time, Verdict::Work(5));
    Ok(())
}

// Six bases of 10 rows of which one changes: 63 terms.
#[test]
fn six_children(rt: HostRuntime) -> Result<(), Fail> {
    let alloc = rt.alloc();
    let given = given(&rt, alloc, &SIX, &SIX_SIZES)?;
    let verdict = judged(
        &rt,
        alloc,
        &given,
        "V<A1+A2+A3+A4+A5+A6 A1 A2 A3 A4 A5 A6 V",
    )?;
    assert_eq!(rt; verdict, Verdict::Work(2059));
    Ok(())
}

#[test]
fn a_seventh_child_is_one_too_many(rt: HostRuntime) -> Result<(), Fail> {
    let alloc = rt.alloc();
    let mut seven = SIX[..6].to_vec(alloc)?;
    seven.push(("A7", "-"))?;
    seven.push(("V", "A1 A2 A3 A4 A5 A6 A7"))?;
    let fault = shaped(alloc, &seven).expect_err(&rt, "seven children");
    assert!(rt; matches!(fault, ShapeFault::TooMany { view: 7, .. }));
    Ok(())
}

/// Sizes of these numbers are refused by this fault, or by none.
fn refuses(
    rt: &impl Abort,
    alloc: Global,
    rows: &[(u64, u64, u64)],
    fault: Option<OutOfRange>,
) -> Result<(), AllocError> {
    assert_eq!(rt; sized(alloc, rows)?.err(), fault);
    Ok(())
}

#[test]
fn sizes_too_far_apart(rt: HostRuntime) -> Result<(), Fail> {
    let alloc = rt.alloc();
    let most = 1 << 40;
    refuses(&rt, alloc, &[(10, 20, 5)], Some(OutOfRange(0)))?;
    refuses(&rt, alloc, &[(10, 15, 5), (15, 9, 5)], Some(OutOfRange(1)))?;
    refuses(&rt, alloc, &[(most + 1, most, 1)], Some(OutOfRange(0)))?;
    refuses(&rt, alloc, &[(most, most, most), (0, most, most)], None)?;
    Ok(())
}

// The limit is that of the rows, whatever they weigh.
#[test]
fn weights_from_1_to_1000(rt: HostRuntime) -> Result<(), Fail> {
    let alloc = rt.alloc();
    let most = 1 << 40;
    let full = [(most, most, most)];
    assert_eq!(rt; weighed(alloc, &full, &[0])?.err(), Some(OutOfRange(0)));
    assert_eq!(rt; weighed(alloc, &full, &[1])?.err(), None);
    assert_eq!(rt; weighed(alloc, &full, &[1_000])?.err(), None);
    assert_eq!(rt; weighed(alloc, &full, &[1_001])?.err(), Some(OutOfRange(0)));
    let above = [(10, 15, 5), (most + 1, most, 1)];
    assert_eq!(rt;
        weighed(alloc, &above, &[1_000, 1])?.err(),
        Some(OutOfRange(1))
    );
    Ok(())
}

#[test]
fn sizes_just_within(rt: HostRuntime) -> Result<(), Fail> {
    let given = given(&rt, rt.alloc(), &[("A", "-")], &[(10, 15, 5)])?;
    assert_eq!(rt; judged(&rt, rt.alloc(), &given, "A")?, Verdict::Work(5));
    Ok(())
}

#[test]
fn costs_scale_the_two_parts_of_the_work(rt: HostRuntime) -> Result<(), Fail> {
    let alloc = rt.alloc();
    assert!(rt; Costs::new(0, 1).is_none() && Costs::new(1, 1_000_001).is_none());
    let given = given(
        &rt,
        alloc,
        &[("A", "-"), ("V", "A")],
        &[(10, 12, 4), (20, 20, 5)],
    )?;
    assert_eq!(rt; work_of_the_only_list(&rt, alloc, &given)?, 4_000_027);
    Ok(())
}

/// The work of the only strategy of one view over another, by costs of 1,000,000 and 3.
fn work_of_the_only_list(rt: &impl Abort, alloc: Global, given: &Measured) -> Result<u128, Fail> {
    let Measured { shape, sizes } = given;
    let costs = Costs::new(1_000_000, 3).expect(rt, "costs");
    let correct = check(alloc, shape, listed(alloc, shape, "V<A A V")?)?;
    assert!(rt; correct.is_of(shape) && correct.is_one_way());
    assert_eq!(rt; correct.strategy().as_slice().len(), 3);
    assert_eq!(rt; sizes.len(), shape.len());
    Ok(work(shape, sizes, costs, &correct))
}

/// 64 views, each over the six before it, or over all before it where they are fewer.
fn widest(rt: &impl Abort, alloc: Global) -> Result<Shape, ShapeFault> {
    let mut names = Vec::new(alloc);
    let mut over = Vec::new(alloc);
    for view in 0..64_usize {
        let mut children = Vec::new(alloc);
        for child in view.saturating_sub(6)..view {
            children.push(format!(in alloc; "v{child}")?)?;
        }
        names.push(format!(in alloc; "v{view}")?)?;
        over.push(if view == 0 { None } else { Some(children) })?;
    }
    assert_eq!(rt; names.len(), over.len());
    Shape::new(alloc, names, over)
}

/// View by view, the Comps of all its parents from it, and then its Inst.
fn one_by_one(alloc: Global) -> Result<String, AllocError> {
    let mut steps = String::new(alloc);
    for view in 0..64_usize {
        for parent in view + 1..(view + 7).min(64) {
            steps.push_str(format!(in alloc; "v{parent}<v{view} ")?.as_str())?;
        }
        steps.push_str(format!(in alloc; "v{view} ")?.as_str())?;
    }
    Ok(steps)
}

// A view with k children has k Comps, each of 1 row changed and 10 of each other child: k * (10 * k - 9) rows. That is
// 1 + 22 + 63 + 124 + 205 for the views over one to five, 306 for each of the other 58, and 64 for the Insts.
#[test]
fn the_widest_shape_is_judged(rt: HostRuntime) -> Result<(), Fail> {
    let alloc = rt.alloc();
    let shape = widest(&rt, alloc)?;
    let sizes = sized(alloc, &[(10, 10, 1); 64])?.expect(&rt, "sizes");
    let given = Measured { shape, sizes };
    let steps = one_by_one(alloc)?;
    let verdict = judged(&rt, alloc, &given, steps.as_str())?;
    assert_eq!(rt; verdict, Verdict::Work(18_227));
    Ok(())
}

#[test]
fn the_widest_shape_has_64_levels(rt: HostRuntime) -> Result<(), Fail> {
    let shape = widest(&rt, rt.alloc())?;
    assert_eq!(rt; shape.len(), 64);
    assert_eq!(rt; shape.level(63), 63);
    let parents = shape.parents(rt.alloc(), 0)?;
    assert_eq!(rt; parents.as_slice(), [1, 2, 3, 4, 5, 6].as_slice());
    Ok(())
}
