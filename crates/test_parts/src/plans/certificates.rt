//! Pair bounds, and certificates that are accepted or rejected at a line.

use crate::plans::given::{
    CYCLIC, CYCLIC_SIZES, Measured, SHRINKING_SIZES, SIX, SIX_SIZES, TWO_BASES, TWO_BASES_SIZES,
    given, given_weighed, listed,
};
use std::alloc::{AllocError, Global};
use std::process::Abort;
use std::test::Fail;
use wh_cert::{Certificate, PairMin, PairMins, Verdict, certify, pair_bound};
use wh_dag::{Shape, ShapeFault};
use wh_strategy::{Correct, Costs, check};

/// The correct strategy of these steps.
fn correct(
    rt: &impl Abort,
    alloc: Global,
    shape: &Shape,
    steps: &str,
) -> Result<Correct, AllocError> {
    let list = listed(alloc, shape, steps)?;
    Ok(check(alloc, shape, list).expect(rt, "a correct strategy"))
}

/// A line of a certificate: parent, first, second and least.
type Line = (usize, usize, usize, u128);

/// The lines of a certificate.
fn pair_mins(alloc: Global, lines: &[Line]) -> Result<PairMins, AllocError> {
    let mut all = Vec::new(alloc);
    for (parent, first, second, least) in lines {
        all.push(PairMin {
            parent: *parent,
            first: *first,
            second: *second,
            least: *least,
        })?;
    }
    Ok(PairMins::new(all))
}

/// The certificate of these lines.
fn by_pairs(alloc: Global, lines: &[Line]) -> Result<Certificate, AllocError> {
    Ok(Certificate::Pairs(pair_mins(alloc, lines)?))
}

/// The verdict on a certificate of these lines at costs of 1.
fn judged(
    rt: &impl Abort,
    alloc: Global,
    given: &Measured,
    correct: &Correct,
    lines: &[Line],
) -> Result<Verdict, AllocError> {
    let Measured { shape, sizes } = given;
    assert!(rt; correct.is_of(shape) && sizes.len() == shape.len());
    let costs = Costs::new(1, 1).expect(rt, "costs of 1");
    let certificate = by_pairs(alloc, lines)?;
    Ok(certify(shape, sizes, costs, correct, &certificate))
}

static ONE_BY_ONE: &str = "V<A1 A1 V<A2 A2 V<A3 A3 V<A4 A4 V<A5 A5 V<A6 A6 V";

static JUDGED: [(&str, &[Line], Verdict); 6] = [
    ("plan_all", &[(2, 1, 0, 80)], Verdict::All),
    ("a minimum of 81", &[(2, 1, 0, 81)], Verdict::Rejected(1)),
    ("the other order", &[(2, 0, 1, 80)], Verdict::Rejected(1)),
    ("another parent", &[(1, 1, 0, 80)], Verdict::Rejected(1)),
    ("a missing line", &[], Verdict::Rejected(1)),
    (
        "a line too many",
        &[(2, 1, 0, 80), (2, 1, 0, 80)],
        Verdict::Rejected(2),
    ),
];

#[test]
fn certificates_over_two_bases_are_judged_as_worked_by_hand(rt: HostRuntime) -> Result<(), Fail> {
    let alloc = rt.alloc();
    let given = given(&rt, alloc, &TWO_BASES, &TWO_BASES_SIZES)?;
    let correct = correct(&rt, alloc, &given.shape, "V<B B V<A A V")?;
    for (name, lines, verdict) in &JUDGED {
        assert_eq!(rt;
            judged(&rt, alloc, &given, &correct, lines)?,
            *verdict,
            "{name}"
        );
    }
    Ok(())
}

/// What is judged of a plan, by the weight of each row of A.
static WEIGHED: [(u64, &str, Line, Verdict); 5] = [
    (1, "V<B B V<A A V", (2, 1, 0, 107), Verdict::All),
    (2, "V<B B V<A A V", (2, 1, 0, 107), Verdict::Rejected(1)),
    (2, "V<A A V<B B V", (2, 0, 1, 116), Verdict::All),
    (1, "V<A A V<B B V", (2, 0, 1, 116), Verdict::Rejected(1)),
    (2, "V<B B V<A A V", (2, 0, 1, 116), Verdict::Rejected(0)),
];

#[test]
fn a_plan_made_under_other_weights_is_rejected(rt: HostRuntime) -> Result<(), Fail> {
    let alloc = rt.alloc();
    for (weight, steps, line, verdict) in &WEIGHED {
        let given = given_weighed(&rt, alloc, &SHRINKING_SIZES, &[*weight, 1, 1])?;
        let correct = correct(&rt, alloc, &given.shape, steps)?;
        let found = judged(&rt, alloc, &given, &correct, &[*line])?;
        assert_eq!(rt; found, *verdict, "{steps} where A weighs {weight}");
    }
    Ok(())
}

static RIGHT: [Line; 1] = [(2, 1, 0, 80)];

#[test]
fn right_lines_of_a_dearer_strategy_are_rejected_at_0(rt: HostRuntime) -> Result<(), Fail> {
    let alloc = rt.alloc();
    let given = given(&rt, alloc, &TWO_BASES, &TWO_BASES_SIZES)?;
    let at_once = correct(&rt, alloc, &given.shape, "V<A+B A B V")?;
    let verdict = judged(&rt, alloc, &given, &at_once, &RIGHT)?;
    assert_eq!(rt; verdict, Verdict::Rejected(0));
    Ok(())
}

#[test]
fn lines_read_back(rt: HostRuntime) -> Result<(), Fail> {
    let lines = pair_mins(rt.alloc(), &RIGHT)?;
    assert_eq!(rt; lines.as_slice().len(), 1);
    assert_eq!(rt; lines.into_vec().len(), 1);
    Ok(())
}

/// The lines of the shape's sibling pairs, the lower number first, each with this minimum.
fn lines_at(alloc: Global, shape: &Shape, least: u128) -> Result<Vec<Line>, AllocError> {
    let mut lines = Vec::new(alloc);
    for pair in &shape.sibling_pairs(alloc)? {
        lines.push((pair.parent, pair.lower, pair.higher, least))?;
    }
    Ok(lines)
}

/// The pair bound at costs of 1.
fn bound(
    rt: &impl Abort,
    alloc: Global,
    views: &[(&str, &str)],
    rows: &[(u64, u64, u64)],
) -> Result<u128, ShapeFault> {
    let given = given(rt, alloc, views, rows)?;
    let costs = Costs::new(1, 1).expect(rt, "costs of 1");
    assert_eq!(rt; given.sizes.len(), given.shape.len());
    Ok(pair_bound(&given.shape, &given.sizes, costs))
}

// 80 + 34 + 40; 140 + 160 + 85 + 95; 15 pairs of 20, six changes and seven Insts.
#[test]
fn bounds_are_as_worked_by_hand(rt: HostRuntime) -> Result<(), Fail> {
    let alloc = rt.alloc();
    assert_eq!(rt; bound(&rt, alloc, &TWO_BASES, &TWO_BASES_SIZES)?, 154);
    assert_eq!(rt; bound(&rt, alloc, &CYCLIC, &CYCLIC_SIZES)?, 480);
    assert_eq!(rt; bound(&rt, alloc, &SIX, &SIX_SIZES)?, 313);
    Ok(())
}

// Six bases of 10 rows of which one changes: at equal growth the lower number comes first.
#[test]
fn six_children(rt: HostRuntime) -> Result<(), Fail> {
    let alloc = rt.alloc();
    let given = given(&rt, alloc, &SIX, &SIX_SIZES)?;
    let lines = lines_at(alloc, &given.shape, 20)?;
    assert_eq!(rt; lines.len(), 15);
    let all = judged_of_six(&rt, alloc, &given, &lines)?;
    assert_eq!(rt; all, Verdict::All);
    let short = judged_of_six(&rt, alloc, &given, &lines[..14])?;
    assert_eq!(rt; short, Verdict::Rejected(15));
    Ok(())
}

/// The verdict on these lines for the bases one by one.
fn judged_of_six(
    rt: &impl Abort,
    alloc: Global,
    given: &Measured,
    lines: &[Line],
) -> Result<Verdict, AllocError> {
    let correct = correct(rt, alloc, &given.shape, ONE_BY_ONE)?;
    judged(rt, alloc, given, &correct, lines)
}
