//! Plans of least work: which list is found, and which cycle.

use crate::plans::given::{
    CYCLIC, CYCLIC_SIZES, Measured, SHRINKING_SIZES, SIX, SIX_SIZES, TIED_SIZES, TWO_BASES,
    TWO_BASES_SIZES, given, given_weighed, sized, written,
};
use std::alloc::{AllocError, Global};
use std::process::Abort;
use std::test::Fail;
use test_given::shapes::shaped;
use wh_cert::{Certificate, PairMin, Planned, Scope};
use wh_dag::Shape;
use wh_minwork::{Decided, Graph, MinFault, SortFault, desired_order, min_work};
use wh_strategy::Costs;

/// What MinWork answers in words: the list, the work and the lines of the certificate, or the cycle.
fn planned(
    rt: &impl Abort,
    alloc: Global,
    given: &Measured,
) -> Result<(String, u128, Vec<PairMin>), Fail> {
    match asked(rt, alloc, given) {
        Ok(plan) => Ok(told(rt, alloc, &given.shape, plan)?),
        Err(MinFault::Cyclic(cycle)) => {
            Ok((written(alloc, &given.shape, &cycle)?, 0, Vec::new(alloc)))
        }
        Err(MinFault::Memory) => Err(AllocError.into()),
    }
}

/// What `min_work` answers, where rows cost 1 each.
fn asked(rt: &impl Abort, alloc: Global, given: &Measured) -> Result<Planned, MinFault> {
    let Measured { shape, sizes } = given;
    let costs = Costs::new(1, 1).expect(rt, "costs of 1");
    assert_eq!(rt; sizes.len(), shape.len());
    min_work(alloc, shape, sizes, costs)
}

/// A plan's list in words, its work and the lines of its certificate.
fn told(
    rt: &impl Abort,
    alloc: Global,
    shape: &Shape,
    plan: Planned,
) -> Result<(String, u128, Vec<PairMin>), AllocError> {
    let Planned {
        correct,
        work,
        scope,
        certificate,
    } = plan;
    assert!(rt; scope == Scope::All);
    let list = written(alloc, shape, correct.strategy().as_slice())?;
    match certificate {
        Certificate::Pairs(pairs) => Ok((list, work, pairs.into_vec())),
        Certificate::Search(_) => Ok((list, work, Vec::new(alloc))),
    }
}

/// Finds a plan of this list and this work, with so many lines that are all of this minimum.
fn is_planned(
    rt: &impl Abort,
    alloc: Global,
    views: &[(&str, &str)],
    rows: &[(u64, u64, u64)],
    wanted: (&str, u128, usize, u128),
) -> Result<(), Fail> {
    let (list, work, lines, least) = wanted;
    let given = given(rt, alloc, views, rows)?;
    let (found, found_work, pairs) = planned(rt, alloc, &given)?;
    assert_eq!(rt; found.as_str(), list);
    assert_eq!(rt; found_work, work);
    assert_eq!(rt; pairs.len(), lines);
    assert!(rt; pairs.iter().all(|pair| pair.least == least));
    Ok(())
}

#[test]
fn plans_are_as_worked_by_hand(rt: HostRuntime) -> Result<(), Fail> {
    let alloc = rt.alloc();
    let b_first = ("V<B B V<A A V", 154, 1, 80);
    is_planned(&rt, alloc, &TWO_BASES, &TWO_BASES_SIZES, b_first)?;
    let bases = [("A", "-"), ("B", "-")];
    let sizes = [(10, 12, 4), (5, 5, 0)];
    is_planned(&rt, alloc, &bases, &sizes, ("A B", 4, 0, 0))?;
    let list = "V<A1 A1 V<A2 A2 V<A3 A3 V<A4 A4 V<A5 A5 V<A6 A6 V";
    is_planned(&rt, alloc, &SIX, &SIX_SIZES, (list, 313, 15, 20))
}

// V1 is to come before B and B before C, so V2's Comp from B waits for V1's Inst, and that for V1's Comp from C.
#[test]
fn a_cycle_goes_back_from_the_smallest_node_that_is_left(rt: HostRuntime) -> Result<(), Fail> {
    let alloc = rt.alloc();
    let cycle = ("V1 V2<B B V1<C", 0, 0, 0);
    is_planned(&rt, alloc, &CYCLIC, &CYCLIC_SIZES, cycle)?;
    is_planned(&rt, alloc, &CYCLIC, &TIED_SIZES, cycle)
}

/// A line of the pair that V is over.
fn line_of_v(first: usize, second: usize, least: u128) -> PairMin {
    PairMin {
        parent: 2,
        first,
        second,
        least,
    }
}

#[test]
fn a_line_names_the_view_that_is_installed_first(rt: HostRuntime) -> Result<(), Fail> {
    let alloc = rt.alloc();
    let given = given(&rt, alloc, &TWO_BASES, &TWO_BASES_SIZES)?;
    let (_, _, pairs) = planned(&rt, alloc, &given)?;
    assert_eq!(rt; pairs.as_slice(), [line_of_v(1, 0, 80)].as_slice());
    Ok(())
}

/// By the weight of each row of A, the list, the work, and the pair's order and minimum.
static WEIGHED: [(u64, &str, u128, (usize, usize, u128)); 2] = [
    (1, "V<B B V<A A V", 117, (1, 0, 107)),
    (2, "V<A A V<B B V", 130, (0, 1, 116)),
];

#[test]
fn weights_change_the_order(rt: HostRuntime) -> Result<(), Fail> {
    let alloc = rt.alloc();
    for (weight, list, work, (first, second, least)) in &WEIGHED {
        let given = given_weighed(&rt, alloc, &SHRINKING_SIZES, &[*weight, 1, 1])?;
        let (found, found_work, pairs) = planned(&rt, alloc, &given)?;
        assert_eq!(rt; found.as_str(), *list);
        assert_eq!(rt; found_work, *work);
        let line = line_of_v(*first, *second, *least);
        assert_eq!(rt; pairs.as_slice(), [line].as_slice());
    }
    Ok(())
}

#[test]
fn the_desired_order_goes_by_net_growth_then_by_number(rt: HostRuntime) -> Result<(), Fail> {
    let alloc = rt.alloc();
    let sizes = sized(alloc, &CYCLIC_SIZES)?.expect(&rt, "sizes");
    assert_eq!(rt;
        desired_order(alloc, &sizes)?.as_slice(),
        [2, 0, 3, 1].as_slice()
    );
    Ok(())
}

/// The list of the sorted graph, or its cycle, in words.
fn sorted_text(alloc: Global, shape: &Shape, decided: &Decided) -> Result<String, Fail> {
    match Graph::of(shape, decided).sorted(alloc) {
        Ok(list) => Ok(written(alloc, shape, list.as_slice())?),
        Err(SortFault::Cycle(cycle)) => Ok(written(alloc, shape, &cycle)?),
        Err(SortFault::Memory) => Err(AllocError.into()),
    }
}

/// The decisions on these couples.
fn decided(
    rt: &impl Abort,
    alloc: Global,
    couples: &[(usize, usize)],
) -> Result<Decided, AllocError> {
    let mut decided = Decided::new(alloc);
    for (first, second) in couples {
        assert!(rt; first != second);
        assert!(rt; !decided.decides(*first, *second));
        assert!(rt; !decided.decides(*second, *first));
        decided.push(*first, *second)?;
    }
    Ok(decided)
}

#[test]
fn decisions_read_back(rt: HostRuntime) -> Result<(), Fail> {
    let decided = decided(&rt, rt.alloc(), &[(0, 1), (2, 0)])?;
    assert_eq!(rt; decided.as_slice(), [(0, 1), (2, 0)].as_slice());
    Ok(())
}

#[test]
fn a_graph_without_decisions_is_sorted(rt: HostRuntime) -> Result<(), Fail> {
    let alloc = rt.alloc();
    let shape = shaped(alloc, &CYCLIC)?;
    let list = sorted_text(alloc, &shape, &Decided::new(alloc))?;
    assert_eq!(rt; list.as_str(), "V1<B V1<C V2<B V2<V1 B C V1 V2");
    Ok(())
}

#[test]
fn decisions_make_a_cycle(rt: HostRuntime) -> Result<(), Fail> {
    let alloc = rt.alloc();
    let shape = shaped(alloc, &CYCLIC)?;
    let decided = decided(&rt, alloc, &[(0, 1), (2, 0)])?;
    let cycle = sorted_text(alloc, &shape, &decided)?;
    assert_eq!(rt; cycle.as_str(), "V1 V2<B B V1<C");
    Ok(())
}
