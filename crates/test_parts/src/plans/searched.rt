//! Plans of all shapes, and what a search answers where its budget ends.

use crate::plans::given::{
    CYCLIC, CYCLIC_SIZES, Measured, SIX, SIX_SIZES, TIED_SIZES, TWO_BASES, TWO_BASES_SIZES, given,
    written,
};
use std::alloc::{AllocError, Global};
use std::process::Abort;
use std::test::Fail;
use wh_cert::{Certificate, PairMin, Planned, Scope, Verdict, certify};
use wh_prune::{PruneFault, plan, prune};
use wh_strategy::Costs;

/// Who plans.
#[derive(Clone, Copy)]
enum By {
    Plan,
    Prune,
}

/// A plan in words: its list and its scope, its work, and the lines of its certificate, none where that is a tree.
#[derive(Drop)]
struct Words {
    list: String,
    scope: Scope,
    work: u128,
    lines: Vec<PairMin>,
}

/// The plan at costs of 1, or what was spent. `certify` accepts its certificate for its scope.
fn found(
    rt: &impl Abort,
    alloc: Global,
    by: By,
    views: &[(&str, &str)],
    rows: &[(u64, u64, u64)],
    budget: u64,
) -> Result<Result<Words, (u64, u128)>, Fail> {
    let given = given(rt, alloc, views, rows)?;
    match asked(rt, alloc, by, &given, budget) {
        Ok(planned) => Ok(Ok(in_words(rt, alloc, &given, planned)?)),
        Err(PruneFault::Budget { opened, best }) => Ok(Err((opened, best))),
        Err(PruneFault::Memory) => Err(AllocError.into()),
    }
}

/// What `plan` or `prune` answers within this budget of nodes, where rows cost 1 each.
fn asked(
    rt: &impl Abort,
    alloc: Global,
    by: By,
    given: &Measured,
    budget: u64,
) -> Result<Planned, PruneFault> {
    let Measured { shape, sizes } = given;
    let costs = Costs::new(1, 1).expect(rt, "costs of 1");
    assert_eq!(rt; sizes.len(), shape.len());
    assert!(rt; 1 <= budget && budget < 1 << 63);
    match by {
        By::Plan => plan(alloc, shape, sizes, costs, budget),
        By::Prune => prune(alloc, shape, sizes, costs, budget),
    }
}

/// The plan in words, once `certify` has accepted it with its scope.
fn in_words(
    rt: &impl Abort,
    alloc: Global,
    given: &Measured,
    planned: Planned,
) -> Result<Words, Fail> {
    let accepted = match planned.scope {
        Scope::All => Verdict::All,
        Scope::OneWay => Verdict::OneWay,
    };
    assert_eq!(rt; judged(rt, given, &planned), accepted);
    let Planned {
        correct,
        work,
        scope,
        certificate,
    } = planned;
    let list = written(alloc, &given.shape, correct.strategy().as_slice())?;
    let lines = match certificate {
        Certificate::Pairs(pairs) => pairs.into_vec(),
        Certificate::Search(_tree) => Vec::new(alloc),
    };
    Ok(Words {
        list,
        scope,
        work,
        lines,
    })
}

/// What `certify` says of the plan's certificate.
fn judged(rt: &impl Abort, given: &Measured, planned: &Planned) -> Verdict {
    let Measured { shape, sizes } = given;
    let costs = Costs::new(1, 1).expect(rt, "costs of 1");
    assert!(rt; planned.correct.is_of(shape) && sizes.len() == shape.len());
    certify(shape, sizes, costs, &planned.correct, &planned.certificate)
}

/// Finds a plan of this list, this scope and this work, with so many lines.
fn finds(
    rt: &(impl Abort + AllocGlobal),
    by: By,
    views: &[(&str, &str)],
    rows: &[(u64, u64, u64)],
    budget: u64,
    wanted: (&str, Scope, u128, usize),
) -> Result<Vec<PairMin>, Fail> {
    let (list, scope, work, lines) = wanted;
    let alloc = rt.alloc();
    match found(rt, alloc, by, views, rows, budget)? {
        Ok(found) => {
            assert_eq!(rt; found.list.as_str(), list);
            assert_eq!(rt; found.scope, scope);
            assert_eq!(rt; found.work, work);
            assert_eq!(rt; found.lines.len(), lines);
            Ok(found.lines)
        }
        Err(_) => {
            assert!(rt; false, "the budget was spent");
            Ok(Vec::new(alloc))
        }
    }
}

/// The list for B and C, V1 over both, V2 over B and V1, that is least among one-way ones.
static ONE_WAY: (&str, Scope, u128, usize) = (
    "V1<B V2<B B V1<C V2<V1 C V1 V2",
    Scope::OneWay,
    490,
    0,
);

static TIED: (&str, Scope, u128, usize) = ("V1<C C V1<B V2<V1 V1 V2<B B V2", Scope::All, 490, 2);

// The pair bound is 480. The search opens five nodes: B and V1 first, which bounds the first side, then B and C.
#[test]
fn a_cyclic_order_is_searched(rt: HostRuntime) -> Result<(), Fail> {
    let alloc = rt.alloc();
    finds(&rt, By::Plan, &CYCLIC, &CYCLIC_SIZES, 5, ONE_WAY)?;
    finds(&rt, By::Prune, &CYCLIC, &CYCLIC_SIZES, 5, ONE_WAY)?;
    Ok(())
}

// Cyclic by a tie alone: C may go before B at the same cost.
#[test]
fn a_search_may_reach_the_pair_bound(rt: HostRuntime) -> Result<(), Fail> {
    let alloc = rt.alloc();
    let lines = finds(&rt, By::Plan, &CYCLIC, &TIED_SIZES, 5, TIED)?;
    let right = [
        PairMin {
            parent: 2,
            first: 0,
            second: 1,
            least: 140,
        },
        PairMin {
            parent: 3,
            first: 2,
            second: 0,
            least: 160,
        },
    ];
    assert_eq!(rt; lines.as_slice(), right.as_slice());
    finds(&rt, By::Prune, &CYCLIC, &TIED_SIZES, 5, TIED)?;
    Ok(())
}

// The lower number of each couple first costs 490, and 500 where C shrinks as much as B. A budget of four is a node too few.
#[test]
fn a_spent_budget_tells_the_best_work(rt: HostRuntime) -> Result<(), Fail> {
    let alloc = rt.alloc();
    for (by, budget) in [(By::Plan, 1), (By::Plan, 4), (By::Prune, 4)] {
        let spent = found(&rt, alloc, by, &CYCLIC, &CYCLIC_SIZES, budget)?.err();
        assert_eq!(rt; spent, Some((budget, 490)));
        let spent = found(&rt, alloc, by, &CYCLIC, &TIED_SIZES, budget)?.err();
        assert_eq!(rt; spent, Some((budget, 500)));
    }
    Ok(())
}

// The lower number of each couple first costs 90; the second node gives a strategy of 83, and the fifth is the last one.
#[test]
fn a_spent_budget_tells_a_work_that_was_found_later(rt: HostRuntime) -> Result<(), Fail> {
    let alloc = rt.alloc();
    let views = [
        ("A", "-"),
        ("B", "-"),
        ("U", "B A"),
        ("V", "B A U"),
        ("W", "B U V"),
    ];
    let sizes = [(1, 0, 6), (2, 4, 3), (0, 6, 7), (5, 4, 1), (6, 2, 5)];
    for (budget, best) in [(1, 90), (2, 83), (4, 83)] {
        let spent = found(&rt, alloc, By::Prune, &views, &sizes, budget)?.err();
        assert_eq!(rt; spent, Some((budget, best)));
    }
    Ok(())
}

#[test]
fn refusals_of_a_search_have_their_numbers(rt: HostRuntime) {
    let spent = PruneFault::Budget {
        opened: 1,
        best: 490,
    };
    assert_eq!(rt; spent.number(), 1);
    assert_eq!(rt; PruneFault::Memory.number(), 2);
}

#[test]
fn a_plan_without_a_search_needs_no_budget(rt: HostRuntime) -> Result<(), Fail> {
    let alloc = rt.alloc();
    let b_first = ("V<B B V<A A V", Scope::All, 154, 1);
    finds(&rt, By::Plan, &TWO_BASES, &TWO_BASES_SIZES, 1, b_first)?;
    let bases = [("A", "-"), ("B", "-")];
    let sizes = [(10, 12, 4), (5, 5, 0)];
    let alone = ("A B", Scope::All, 4, 0);
    finds(&rt, By::Plan, &bases, &sizes, 1, alone)?;
    finds(&rt, By::Prune, &bases, &sizes, 1, alone)?;
    let list = "V<A1 A1 V<A2 A2 V<A3 A3 V<A4 A4 V<A5 A5 V<A6 A6 V";
    let lines = finds(
        &rt,
        By::Plan,
        &SIX,
        &SIX_SIZES,
        1,
        (list, Scope::All, 313, 15),
    )?;
    assert!(rt; lines.iter().all(|line| line.least == 20));
    // A search that gave up at once would spend this budget.
    let wanted = (list, Scope::All, 313, 15);
    finds(&rt, By::Prune, &SIX, &SIX_SIZES, 1, wanted)?;
    Ok(())
}
