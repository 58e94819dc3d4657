// What machines are given: a, or a and v that keeps its only column, and their nights.
ghost use Rattle.std.specs.Prelude.{◌≡◌, ◌≤◌, ◌<◌, ℕ, length, slice_get, IfOk, IsTrue, Some};
ghost use Rattle.wh_row.specs.Bag.{IsTable};
ghost use Rattle.wh_maint.specs.Asked.{AreBags};
ghost use Rattle.wh_maint.specs.Comp.{bag_at};
ghost use Rattle.wh_maint.specs.Contents.{AreContents};
ghost use Rattle.wh_maint.specs.Definition.{graph_of};
ghost use Rattle.wh_strategy.specs.Rules.{IsCorrect};
ghost use Rattle.wh_core.specs.Laws.{IsGivenNight};
ghost use Rattle.wh_core.specs.Nights.{GivenNight};
ghost use Rattle.wh_core.specs.Standing.{AreJudged, IsFresh, IsStanding, given_of, nights_of};

use std::alloc::Global;
use std::process::Abort;
use std::test::Fail;
use std::thread::Threads;
use test_given::catalogs::{Cell, Every, over_one};
use test_given::shapes::shaped;
use test_given::tables::bags;
use wh_core::{Core, Event, MachineOptions, Reply};
use wh_dag::{Catalog, Definition, Output, Shape};
use wh_formula::{Combiner, Expr, Filter, Pred};
use wh_headline::carry_out;
use wh_maint::{are_bags, opening_contents};
use wh_row::Bag;
use wh_strategy::{Correct, Expression, Sources, Strategy, check};
use wh_threads::ThreadBudget;

/// The rows of each view with their counts.
pub(crate) type Lists<'a> = &'a [&'a [(&'a [i64], i64)]];

/// The catalogue of this shape, whose base views have one column.
fn catalog_of(
    rt: &impl Abort,
    alloc: Global,
    shape: Shape,
    definitions: Vec<Definition<Every, Cell>>,
) -> Result<Catalog<Every, Cell>, Fail> {
    let widths = vec![in alloc; 1]?;
    assert!(rt; Catalog::fits(&shape, &widths, &definitions));
    Ok(Catalog::new(alloc, shape, widths, definitions)?)
}

/// a(x) alone.
pub(crate) fn alone(rt: &impl Abort, alloc: Global) -> Result<Catalog<Every, Cell>, Fail> {
    let shape = shaped(alloc, &[("a", "-")])?;
    catalog_of(rt, alloc, shape, Vec::new(alloc))
}

/// a(x), and v, which keeps a.x.
pub(crate) fn copied(rt: &impl Abort, alloc: Global) -> Result<Catalog<Every, Cell>, Fail> {
    let mut kept = Vec::new(alloc);
    kept.push(Combiner::new(Expr::column(0), 1, Cell { place: 0 }))?;
    let filter = Filter::new(Pred::always(), 1, Every);
    let join = Vec::new(alloc);
    let out = Output::Keep(kept);
    assert!(rt; Definition::fits(&join, &filter, &out));
    let mut definitions = Vec::new(alloc);
    definitions.push(Definition::new(join, filter, out))?;
    let shape = over_one(alloc)?;
    catalog_of(rt, alloc, shape, definitions)
}

/// inst a
fn inst(alloc: Global) -> Result<Strategy, Fail> {
    let mut list = Vec::new(alloc);
    list.push(Expression::Inst(0))?;
    Ok(Strategy::new(list))
}

/// comp v from a; inst a; inst v
pub(crate) fn comp_and_insts(alloc: Global) -> Result<Strategy, Fail> {
    let mut list = Vec::new(alloc);
    list.push(Expression::Comp(1, Sources::new(vec![in alloc; 0]?)))?;
    list.push(Expression::Inst(0))?;
    list.push(Expression::Inst(1))?;
    Ok(Strategy::new(list))
}

/// The strategy of so many views: a alone, or a and v.
fn list_over(alloc: Global, views: usize) -> Result<Strategy, Fail> {
    if views == 1 {
        inst(alloc)
    } else {
        comp_and_insts(alloc)
    }
}

/// The catalogue of so many views: a alone, or a and v.
fn catalog_over(
    rt: &impl Abort,
    alloc: Global,
    views: usize,
) -> Result<Catalog<Every, Cell>, Fail> {
    if views == 1 {
        alone(rt, alloc)
    } else {
        copied(rt, alloc)
    }
}

/// Whether these are tables.
fn are_tables(tables: &[Bag]) -> bool
    ensures { IsTrue result → (v : ℕ) → v < length tables.now → IsTable (bag_at tables.now v) }
{
    for view in 0..tables.len() {
        if !tables[view].is_table() {
            return false;
        }
    }
    true
}

/// The contents of this base.
fn contents_over(
    rt: &(impl Threads + Sync),
    alloc: Global,
    catalog: &Catalog<Every, Cell>,
    base: Vec<Bag>,
) -> Result<Vec<Bag>, Fail>
    requires bags { AreBags catalog.now base.items }
    requires tables { (v : ℕ) → v < length base.items → IsTable (bag_at base.items v) }
    ensures bags { IfOk result (λ tables. AreBags catalog.now tables.items) }
    ensures contents { IfOk result (λ tables. AreContents (graph_of catalog.now) (bag_at tables.items)) }
{
    let _shape = catalog.shape();
    let budget = ThreadBudget {
        rt,
        alloc,
        threads: 2,
    };
    match opening_contents(&budget, catalog, base) {
        Ok(tables) => Ok(tables),
        Err(_) => Err(Fail::from("contents")),
    }
}

/// The contents of this base, once it is found to be of tables.
fn opened(
    rt: &(impl Abort + Threads + Sync),
    alloc: Global,
    catalog: &Catalog<Every, Cell>,
    base: Vec<Bag>,
) -> Result<Vec<Bag>, Fail>
    ensures bags { IfOk result (λ tables. AreBags catalog.now tables.items) }
    ensures contents { IfOk result (λ tables. AreContents (graph_of catalog.now) (bag_at tables.items)) }
{
    assert!(rt; are_bags(catalog, &base));
    assert!(rt; are_tables(&base));
    contents_over(rt, alloc, catalog, base)
}

/// A strategy that is correct over this catalogue's shape.
fn judged(rt: &impl Abort, alloc: Global, catalog: &Catalog<Every, Cell>, list: Strategy) -> Correct
    ensures shape { result.children ≡ catalog.now.views.children }
    ensures correct { IsCorrect catalog.now.views.children result.list }
{
    let correct = check(alloc, catalog.shape(), list).ok();
    correct.expect(rt, "a correct strategy")
}

/// The night that brings these changes.
fn night(
    rt: &impl Abort,
    alloc: Global,
    catalog: &Catalog<Every, Cell>,
    changes: Lists<'_>,
) -> Result<(Vec<Bag>, Correct), Fail>
    ensures given { IfOk result (λ night. IsGivenNight catalog.now (given_of night)) }
    ensures judged { IfOk result (λ night. night.1.children ≡ catalog.now.views.children) }
{
    let correct = judged(rt, alloc, catalog, list_over(alloc, changes.len())?);
    let changes = bags(alloc, changes)?;
    assert!(rt; are_bags(catalog, &changes));
    Ok((changes, correct))
}

/// The nights that bring these changes.
fn nights(
    rt: &impl Abort,
    alloc: Global,
    catalog: &Catalog<Every, Cell>,
    changes: &[Lists<'_>],
) -> Result<Vec<(Vec<Bag>, Correct)>, Fail>
    ensures given { IfOk result (λ nights. (n : ℕ) (given : GivenNight) → slice_get (nights_of nights.items) n ≡ Some given → IsGivenNight catalog.now given) }
    ensures judged { IfOk result (λ nights. AreJudged catalog.now nights.items) }
{
    let mut nights = Vec::new(alloc);
    for changes in changes {
        nights.push(night(rt, alloc, catalog, changes)?)?;
    }
    Ok(nights)
}

/// Adds the night that brings these changes.
pub(crate) fn add_night(
    rt: &impl Abort,
    alloc: Global,
    core: &mut Core<Every, Cell>,
    changes: Lists<'_>,
) -> Result<(), Fail>
    requires { IsStanding core.old }
    ensures { IsStanding core.new }
{
    let night = night(rt, alloc, core.catalog(), changes)?;
    Ok(core.add_night(night)?)
}

/// A machine over the contents of this base that has done nothing yet: of a alone, or of a and v.
pub(crate) fn machine(
    rt: &(impl Abort + Threads + Sync),
    alloc: Global,
    base: Lists<'_>,
    changes: &[Lists<'_>],
    options: MachineOptions,
) -> Result<Core<Every, Cell>, Fail>
    ensures { IfOk result (λ core. IsFresh core) }
{
    let catalog = catalog_over(rt, alloc, base.len())?;
    let nights = nights(rt, alloc, &catalog, changes)?;
    let tables = opened(rt, alloc, &catalog, bags(alloc, base)?)?;
    core_of(rt, alloc, catalog, tables, nights, options)
}

fn core_of(
    rt: &impl Abort,
    alloc: Global,
    catalog: Catalog<Every, Cell>,
    tables: Vec<Bag>,
    nights: Vec<(Vec<Bag>, Correct)>,
    options: MachineOptions,
) -> Result<Core<Every, Cell>, Fail>
    requires bags { AreBags catalog tables.items }
    requires contents { AreContents (graph_of catalog) (bag_at tables.items) }
    requires given { (n : ℕ) (given : GivenNight) → slice_get (nights_of nights.items) n ≡ Some given → IsGivenNight catalog given }
    requires judged { AreJudged catalog nights.items }
    ensures { IfOk result (λ core. IsFresh core) }
{
    let _shape = catalog.shape();
    assert!(rt; options.desks >= 1 && options.desks <= 16);
    assert!(rt; options.workers >= 1 && options.workers <= 16);
    assert!(rt; options.page_keys >= 1 && options.page_keys <= 256);
    assert!(rt; options.versions >= 2 && options.versions <= 4);
    Ok(Core::new(alloc, catalog, tables, nights, options)?)
}

/// The replies to these events, by one call, over the contents of this base: of a alone, or of a and v.
pub(crate) fn carried(
    rt: &(impl Abort + Threads + Sync + AllocGlobal),
    alloc: Global,
    base: Lists<'_>,
    changes: &[Lists<'_>],
    options: MachineOptions,
    events: &[Event],
) -> Result<Vec<Reply>, Fail> {
    let catalog = catalog_over(rt, alloc, base.len())?;
    let nights = nights(rt, alloc, &catalog, changes)?;
    let tables = opened(rt, alloc, &catalog, bags(alloc, base)?)?;
    replies_to(rt, catalog, tables, nights, options, events)
}

fn replies_to(
    rt: &(impl Abort + AllocGlobal),
    catalog: Catalog<Every, Cell>,
    tables: Vec<Bag>,
    nights: Vec<(Vec<Bag>, Correct)>,
    options: MachineOptions,
    events: &[Event],
) -> Result<Vec<Reply>, Fail>
    requires bags { AreBags catalog tables.items }
    requires contents { AreContents (graph_of catalog) (bag_at tables.items) }
    requires given { (n : ℕ) (given : GivenNight) → slice_get (nights_of nights.items) n ≡ Some given → IsGivenNight catalog given }
    requires judged { AreJudged catalog nights.items }
{
    let _shape = catalog.shape();
    assert!(rt; options.desks >= 1 && options.desks <= 16);
    assert!(rt; options.workers >= 1 && options.workers <= 16);
    assert!(rt; options.page_keys >= 1 && options.page_keys <= 256);
    assert!(rt; options.versions >= 2 && options.versions <= 4);
    Ok(carry_out(rt.alloc(), catalog, tables, nights, options, events)?)
}
