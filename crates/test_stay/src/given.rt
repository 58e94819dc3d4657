// A warehouse of a(x), a column of texts, and v, which keeps a.x.
ghost use Rattle.std.specs.Prelude.{◌≡◌, ◌≤◌, ◌<◌, ℕ, [], length, map, IfOk, IsTrue};
ghost use Rattle.wh_row.specs.Bag.{IsTable};
ghost use Rattle.wh_maint.specs.Asked.{AreBags};
ghost use Rattle.wh_maint.specs.Comp.{bag_at};
ghost use Rattle.wh_maint.specs.Contents.{AreContents};
ghost use Rattle.wh_maint.specs.Definition.{graph_of};
ghost use Rattle.wh_text_catalogue.specs.Definitions.{shown_view};
ghost use Rattle.wh_stay.specs.Standing.{IsLive, widths_of};

use std::alloc::Global;
use std::process::Abort;
use std::test::Fail;
use std::thread::Threads;
use test_given::catalogs::{Cell, Every, over_one};
use wh_core::MachineOptions;
use wh_dag::{Catalog, Definition, Output};
use wh_formula::{Combiner, Expr, Filter, Pred};
use wh_load::{NightInput, Opening, WrittenView, read_for_night};
use wh_maint::{are_bags, opening_contents};
use wh_row::Bag;
use wh_stay::{Live, StandingTexts};
use wh_threads::ThreadBudget;

/// The views, and one row.
const OPENING: &[u8] = b"@catalogue
[[view]]
name = \"a\"
columns = [\"x:text\"]
[[view]]
name = \"v\"
over = [\"a\"]
keep = [[\"x\", \"a.x\"]]
@data a
x
one
@strategy
";

/// The strategy of nights that write none.
const STANDING: &str = "comp v from a\ninst a\ninst v\n";

/// a(x), and v, which keeps a.x.
fn copied(rt: &impl Abort, alloc: Global) -> Result<Catalog<Every, Cell>, Fail> {
    let mut kept = Vec::new(alloc);
    kept.push(Combiner::new(Expr::column(0), 1, Cell { place: 0 }))?;
    let filter = Filter::new(Pred::always(), 1, Every);
    let join = Vec::new(alloc);
    let out = Output::Keep(kept);
    assert!(rt; Definition::fits(&join, &filter, &out));
    let mut definitions = Vec::new(alloc);
    definitions.push(Definition::new(join, filter, out))?;
    let shape = over_one(alloc)?;
    let widths = vec![in alloc; 1]?;
    assert!(rt; Catalog::fits(&shape, &widths, &definitions));
    Ok(Catalog::new(alloc, shape, widths, definitions)?)
}

/// Whether these are tables.
fn are_tables(tables: &[Bag]) -> bool
    ensures { IsTrue result → (v : ℕ) → v < length tables.now → IsTable (bag_at tables.now v) }
{
    for view in 0..tables.len() {
        if !tables[view].is_table() {
            return false;
        }
    }
    true
}

/// Whether the views have as many columns as those of the catalogue.
fn have_widths(catalog: &Catalog<Every, Cell>, views: &[WrittenView]) -> bool
    ensures { IsTrue result → widths_of (map shown_view views.now) ≡ catalog.now.widths }
{
    if catalog.shape().len() != views.len() {
        return false;
    }
    for view in 0..views.len() {
        if views[view].columns.len() != catalog.width(view) {
            return false;
        }
    }
    true
}

/// The contents of this base.
fn contents_over(
    rt: &(impl Threads + Sync),
    alloc: Global,
    catalog: &Catalog<Every, Cell>,
    base: Vec<Bag>,
) -> Result<Vec<Bag>, Fail>
    requires bags { AreBags catalog.now base.items }
    requires tables { (v : ℕ) → v < length base.items → IsTable (bag_at base.items v) }
    ensures bags { IfOk result (λ tables. AreBags catalog.now tables.items) }
    ensures contents { IfOk result (λ tables. AreContents (graph_of catalog.now) (bag_at tables.items)) }
{
    let _shape = catalog.shape();
    let budget = ThreadBudget {
        rt,
        alloc,
        threads: 2,
    };
    match opening_contents(&budget, catalog, base) {
        Ok(tables) => Ok(tables),
        Err(_) => Err(Fail::from("contents")),
    }
}

/// A machine of two desks and one worker.
const SMALL: MachineOptions = MachineOptions {
    desks: 2,
    workers: 1,
    page_keys: 256,
    versions: 2,
};

/// The warehouse over these contents.
fn live_over(
    rt: &impl Abort,
    alloc: Global,
    catalog: Catalog<Every, Cell>,
    tables: Vec<Bag>,
    standing: StandingTexts,
) -> Result<Live<Every, Cell>, Fail>
    requires bags { AreBags catalog tables.items }
    requires contents { AreContents (graph_of catalog) (bag_at tables.items) }
    ensures { IfOk result (λ live. IsLive live) }
{
    let _shape = catalog.shape();
    assert!(rt; have_widths(&catalog, &standing.views));
    Ok(Live::new(alloc, catalog, tables, standing, SMALL)?)
}

/// The warehouse, before anything was done.
pub(crate) fn opened(
    rt: &(impl Abort + Threads + Sync),
    alloc: Global,
) -> Result<Live<Every, Cell>, Fail>
    ensures { IfOk result (λ live. IsLive live) }
{
    let budget = ThreadBudget {
        rt,
        alloc,
        threads: 1,
    };
    let NightInput {
        shape: _shape,
        opening,
        given: _given,
    } = read_for_night(&budget, OPENING)
        .ok()
        .expect(rt, "an opening");
    let Opening {
        views,
        texts,
        tables,
    } = opening;
    let catalog = copied(rt, alloc)?;
    assert!(rt; are_bags(&catalog, &tables));
    assert!(rt; are_tables(&tables));
    let tables = contents_over(rt, alloc, &catalog, tables)?;
    let strategy = Some(STANDING.as_bytes().to_vec(alloc)?);
    let standing = StandingTexts {
        views,
        texts,
        strategy,
    };
    live_over(rt, alloc, catalog, tables, standing)
}
