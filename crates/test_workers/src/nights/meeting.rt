//! Two Comps that meet: the first job of a wave waits until the second is taken.

ghost use Rattle.std.specs.Prelude.{◌≤◌};

use crate::nights::workers::{added, job, threads_of};
use std::alloc::Global;
use std::process::Abort;
use std::sync::Wait;
use std::sync::atomic::{AtomicU64, Ordering};
use std::test::Fail;
use std::thread::Threads;
use test_given::catalogs::{Cell, Every};
use test_given::shapes::shaped;
use wh_dag::{Catalog, Definition, Output};
use wh_desk::open_warehouse;
use wh_formula::{Combiner, Expr, Filter, Pred};
use wh_maint::are_bags;
use wh_night::{Gate, NightRequest, are_fit_for, night};
use wh_row::Bag;
use wh_store::Store;
use wh_strategy::{Expression, Sources, Strategy, check};
use wh_threads::ThreadBudget;

/// Keeps the first job 0 until job 1 was taken, for at most 50,000,000 turns.
#[derive(Drop)]
struct Meeting {
    met: AtomicU64,
    late: AtomicU64,
}

impl Meeting {
    fn new() -> Meeting {
        Meeting {
            met: AtomicU64::new(0),
            late: AtomicU64::new(0),
        }
    }

    fn has_met(&self) -> bool {
        self.met.load(Ordering::SeqCst) == 1 && self.late.load(Ordering::SeqCst) == 0
    }
}

impl Gate for Meeting {
    fn taken(&self, job: usize) {
        if job == 1 {
            self.met.store(1, Ordering::SeqCst);
        }
        if job != 0 {
            return;
        }
        for _ in 0..50_000_000 {
            if self.met.load(Ordering::SeqCst) == 1 {
                return;
            }
        }
        self.late.store(1, Ordering::SeqCst);
    }

    fn finished(&self, _job: usize) {}
}

/// A view over two of one column, which keeps the one of this place.
fn keeps(rt: &impl Abort, alloc: Global, place: usize) -> Result<Definition<Every, Cell>, Fail> {
    assert!(rt; place < 2);
    let mut kept = Vec::new(alloc);
    kept.push(Combiner::new(Expr::column(place), 2, Cell { place }))?;
    let join = Vec::new(alloc);
    let filter = Filter::new(Pred::always(), 2, Every);
    let out = Output::Keep(kept);
    assert!(rt; Definition::fits(&join, &filter, &out));
    Ok(Definition::new(join, filter, out))
}

/// B and C of one column x, V1 over both, which keeps B.x, and V2 over B and V1, which keeps V1.x.
pub(crate) fn catalog(rt: &impl Abort, alloc: Global) -> Result<Catalog<Every, Cell>, Fail> {
    let shape = shaped(
        alloc,
        &[("B", "-"), ("C", "-"), ("V1", "B C"), ("V2", "B V1")],
    )?;
    let mut definitions = Vec::new(alloc);
    definitions.push(keeps(rt, alloc, 0)?)?;
    definitions.push(keeps(rt, alloc, 1)?)?;
    let widths = vec![in alloc; 1, 1]?;
    assert!(rt; Catalog::fits(&shape, &widths, &definitions));
    Ok(Catalog::new(alloc, shape, widths, definitions)?)
}

/// Four empty tables.
fn empty(alloc: Global) -> Result<Vec<Bag>, Fail> {
    let mut tables = Vec::new(alloc);
    for _ in 0..4 {
        tables.push(Bag::new(alloc))?;
    }
    Ok(tables)
}

fn comp(alloc: Global, view: usize, from: usize) -> Result<Expression, Fail> {
    Ok(Expression::Comp(view, Sources::new(vec![in alloc; from]?)))
}

/// comp V1 from B; comp V2 from B; inst B; comp V1 from C; comp V2 from V1; inst C; inst V1; inst V2
pub(crate) fn one_way(alloc: Global) -> Result<Strategy, Fail> {
    let mut list = Vec::new(alloc);
    list.push(comp(alloc, 2, 0)?)?;
    list.push(comp(alloc, 3, 0)?)?;
    list.push(Expression::Inst(0))?;
    list.push(comp(alloc, 2, 1)?)?;
    list.push(comp(alloc, 3, 2)?)?;
    list.push(Expression::Inst(1))?;
    list.push(Expression::Inst(2))?;
    list.push(Expression::Inst(3))?;
    Ok(Strategy::new(list))
}

/// Whether the night goes out from empty tables without a change, by two workers.
fn goes_out<R: Threads + Wait + Sync + Abort>(
    rt: &R,
    alloc: Global,
    catalog: &Catalog<Every, Cell>,
    list: Strategy,
    gate: &Meeting,
) -> Result<bool, Fail> {
    let Ok(correct) = check(alloc, catalog.shape(), list) else {
        return Ok(false);
    };
    let tables = empty(alloc)?;
    let changes = empty(alloc)?;
    if !are_bags(catalog, &tables) || !are_bags(catalog, &changes) {
        return Ok(false);
    }
    let Ok(true) = are_fit_for(alloc, catalog, &tables, &changes, &correct) else {
        return Ok(false);
    };
    let store = Store::new(alloc, &tables, 2)?;
    let Ok((mut writer, _desks)) = open_warehouse(rt, alloc, store, 1) else {
        return Ok(false);
    };
    let budget = ThreadBudget {
        rt,
        alloc,
        threads: 2,
    };
    let asked = NightRequest {
        budget: &budget,
        catalog,
        changes: &changes,
        correct: &correct,
        page_keys: 256,
        gate,
    };
    let night = night(&mut writer, &asked);
    writer.end(rt);
    Ok(night.is_ok())
}

#[test]
fn two_comps_meet_in_a_wave(rt: HostRuntime) -> Result<(), Fail> {
    let alloc = rt.alloc();
    let catalog = catalog(&rt, alloc)?;
    let tables = empty(alloc)?;
    let mut jobs = Vec::new(alloc);
    jobs.push(job(alloc, 2, 0)?)?;
    jobs.push(job(alloc, 3, 0)?)?;
    let gate = Meeting::new();
    let budget = threads_of(&rt, alloc, 2);
    let added = added(&budget, &catalog, &jobs, &tables, &tables, &gate)?;
    assert!(&rt; added.is_some_and(|added| added.len() == 2));
    assert!(&rt; gate.has_met());
    Ok(())
}

#[test]
fn two_comps_meet_in_a_night(rt: HostRuntime) -> Result<(), Fail> {
    let alloc = rt.alloc();
    let catalog = catalog(&rt, alloc)?;
    let gate = Meeting::new();
    assert!(&rt; goes_out(&rt, alloc, &catalog, one_way(alloc)?, &gate)?);
    assert!(&rt; gate.has_met());
    Ok(())
}
