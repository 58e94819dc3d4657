// Joins of four thousand rows with ten, what they save, and an index by itself.
ghost use Rattle.std.specs.Prelude.{◌≡◌};

use crate::nights::calls::{Asked, change_of, comp_of, contents_of, note, rows_of, value_of};
use std::alloc::Global;
use std::process::Abort;
use std::test::Fail;
use test_given::catalogs::{Cell, Every, first_and_fourth, joined};
use test_given::shapes::shaped;
use wh_dag::{Catalog, Definition, Output};
use wh_formula::{Filter, Pred};
use wh_join::Index;
use wh_maint::{Pending, Wants};
use wh_row::Bag;

/// a holds (k, k mod 10) for k from 0 to 3999, each so often.
pub(crate) fn of_a(alloc: Global, times: i64) -> Result<Bag, Fail> {
    let mut rows = Bag::new(alloc);
    for k in 0..4000_i64 {
        rows.add(&[k, k % 10], times)?;
    }
    Ok(rows)
}

/// b holds (j, j + 100) for j from 0 to 9.
pub(crate) fn of_b(alloc: Global) -> Result<Bag, Fail> {
    let mut rows = Bag::new(alloc);
    for j in 0..10_i64 {
        rows.add(&[j, j + 100], 1)?;
    }
    Ok(rows)
}

/// These rows of a, those of b, and a view without rows.
pub(crate) fn tables(alloc: Global, a: Bag, b: Bag) -> Result<Vec<Bag>, Fail> {
    let mut tables = Vec::new(alloc);
    tables.push(a)?;
    tables.push(b)?;
    tables.push(Bag::new(alloc))?;
    Ok(tables)
}

#[test]
fn a_view_joins_four_thousand_rows(rt: HostRuntime) -> Result<(), Fail> {
    let alloc = rt.alloc();
    let catalog = joined(alloc)?;
    let tables = tables(alloc, of_a(alloc, 1)?, of_b(alloc)?)?;
    let value = value_of(&rt, alloc, &catalog, 2, &tables);
    let value = value.ok().expect(&rt, "a value");
    assert_eq!(&rt; value.total(), 4000);
    assert_eq!(&rt; value.count(&[3999, 109]), 1);
    assert_eq!(&rt; value.count(&[3999, 108]), 0);
    Ok(())
}

#[test]
fn all_rows_of_a_leave(rt: HostRuntime) -> Result<(), Fail> {
    let alloc = rt.alloc();
    let catalog = joined(alloc)?;
    let old = tables(alloc, of_a(alloc, 1)?, of_b(alloc)?)?;
    let changes = tables(alloc, of_a(alloc, -1)?, Bag::new(alloc))?;
    assert_eq!(&rt; rows_of(&rt, &catalog, 2, &[0], &old, &changes), 4010);
    let pending = comp_of(&rt, alloc, &catalog, (2, &[0]), &old, &changes);
    let pending = pending.ok().expect(&rt, "a comp");
    let change = change_of(&rt, alloc, &catalog, 2, &pending, &Bag::new(alloc));
    let change = change.ok().expect(&rt, "a change");
    assert_eq!(&rt; change.total(), 4000);
    assert_eq!(&rt; change.count(&[0, 100]), -1);
    assert!(&rt; change.rows().all(|(_, count)| count == -1));
    Ok(())
}

/// Grants what so many Comps from b miss, of which each adds a row to b, with what was missed before.
fn granted(
    rt: &impl Abort,
    alloc: Global,
    wants: &mut Wants,
    tables: &mut [Bag],
    times: usize,
) -> Result<(), Fail> {
    let catalog = joined(alloc)?;
    let changes = one_of_b(alloc)?;
    for _ in 0..times {
        let asked = Asked {
            view: 2,
            sources: &[1],
            tables,
            changes: &changes,
        };
        note(rt, wants, &catalog, &asked)?;
    }
    wants.build_indexes(alloc, tables, 1)?;
    Ok(())
}

/// The change by which b gets (3, 7).
fn one_of_b(alloc: Global) -> Result<Vec<Bag>, Fail> {
    let mut rows = Bag::new(alloc);
    rows.add(&[3, 7], 1)?;
    tables(alloc, Bag::new(alloc), rows)
}

/// Whether these are four hundred rows, the first (3, 7) and the last (3993, 7), each of which counts once.
fn are_of_three(added: &Pending) -> bool {
    let counts = added.counts();
    counts.total() == 400 && counts.count(&[3, 7]) == 1 && counts.count(&[3993, 7]) == 1
}

/// Whether the first table keeps its rows behind their second cells.
fn is_laid_out(tables: &[Bag]) -> bool {
    match tables.first() {
        Some(table) => table.keyed_by(&[1]).is_some(),
        None => false,
    }
}

#[test]
fn a_table_is_laid_out_where_many_comps_want_it(rt: HostRuntime) -> Result<(), Fail> {
    let alloc = rt.alloc();
    let catalog = joined(alloc)?;
    let changes = one_of_b(alloc)?;
    let mut tables = tables(alloc, of_a(alloc, 1)?, of_b(alloc)?)?;
    granted(&rt, alloc, &mut Wants::new(alloc), &mut tables, 2)?;
    assert!(&rt; !is_laid_out(&tables));
    let added = comp_of(&rt, alloc, &catalog, (2, &[1]), &tables, &changes);
    assert!(&rt; are_of_three(&added.ok().expect(&rt, "a comp")));
    granted(&rt, alloc, &mut Wants::new(alloc), &mut tables, 20)?;
    assert!(&rt; is_laid_out(&tables));
    let added = comp_of(&rt, alloc, &catalog, (2, &[1]), &tables, &changes);
    assert!(&rt; are_of_three(&added.ok().expect(&rt, "a comp")));
    Ok(())
}

#[test]
fn a_table_is_laid_out_where_few_comps_want_it_again_and_again(
    rt: HostRuntime,
) -> Result<(), Fail> {
    let alloc = rt.alloc();
    let mut tables = tables(alloc, of_a(alloc, 1)?, of_b(alloc)?)?;
    let mut wants = Wants::new(alloc);
    for _ in 0..6 {
        granted(&rt, alloc, &mut wants, &mut tables, 2)?;
        assert!(&rt; !is_laid_out(&tables));
    }
    granted(&rt, alloc, &mut wants, &mut tables, 2)?;
    assert!(&rt; is_laid_out(&tables));
    Ok(())
}

#[test]
fn a_table_is_not_laid_out_where_no_comp_asks_for_it_any_more(rt: HostRuntime) -> Result<(), Fail> {
    let alloc = rt.alloc();
    let catalog = joined(alloc)?;
    let changes = one_of_b(alloc)?;
    let mut tables = tables(alloc, of_a(alloc, 1)?, of_b(alloc)?)?;
    let mut wants = Wants::new(alloc);
    for _ in 0..20 {
        let asked = Asked {
            view: 2,
            sources: &[1],
            tables: &tables,
            changes: &changes,
        };
        note(&rt, &mut wants, &catalog, &asked)?;
    }
    wants.build_indexes(alloc, &mut tables, 16)?;
    assert!(&rt; !is_laid_out(&tables));
    wants.build_indexes(alloc, &mut tables, 1)?;
    assert!(&rt; !is_laid_out(&tables));
    granted(&rt, alloc, &mut wants, &mut tables, 1)?;
    assert!(&rt; is_laid_out(&tables));
    Ok(())
}

#[test]
fn what_was_missed_counts_from_0_once_a_table_is_laid_out(rt: HostRuntime) -> Result<(), Fail> {
    let alloc = rt.alloc();
    let mut first = tables(alloc, of_a(alloc, 1)?, of_b(alloc)?)?;
    let mut wants = Wants::new(alloc);
    granted(&rt, alloc, &mut wants, &mut first, 14)?;
    assert!(&rt; is_laid_out(&first));
    let mut again = tables(alloc, of_a(alloc, 2)?, of_b(alloc)?)?;
    granted(&rt, alloc, &mut wants, &mut again, 2)?;
    assert!(&rt; !is_laid_out(&again));
    Ok(())
}

/// As [`joined`], with seven views that are alike.
fn joined_often(alloc: Global) -> Result<Catalog<Every, Cell>, Fail> {
    let shape = shaped(
        alloc,
        &[
            ("a", "-"),
            ("b", "-"),
            ("t", "a b"),
            ("u", "a b"),
            ("v", "a b"),
            ("w", "a b"),
            ("x", "a b"),
            ("y", "a b"),
            ("z", "a b"),
        ],
    )?;
    let mut definitions = Vec::new(alloc);
    for _view in 2..shape.len() {
        let out = Output::Keep(first_and_fourth(alloc)?);
        let join = vec![in alloc; (1, 2)]?;
        let filter = Filter::new(Pred::always(), 4, Every);
        if !Definition::fits(&join, &filter, &out) {
            return Err(Fail::new("a definition that does not fit"));
        }
        definitions.push(Definition::new(join, filter, out))?;
    }
    let widths = vec![in alloc; 2, 2]?;
    if !Catalog::fits(&shape, &widths, &definitions) {
        return Err(Fail::new("definitions that do not fit the shape"));
    }
    Ok(Catalog::new(alloc, shape, widths, definitions)?)
}

#[test]
fn a_table_is_laid_out_as_many_views_over_it_are_opened(rt: HostRuntime) -> Result<(), Fail> {
    let alloc = rt.alloc();
    let catalog = joined_often(alloc)?;
    let mut base = tables(alloc, of_a(alloc, 1)?, of_b(alloc)?)?;
    for _view in base.len()..catalog.shape().len() {
        base.push(Bag::new(alloc))?;
    }
    let opened = contents_of(&rt, alloc, &catalog, base);
    let opened = opened.ok().expect(&rt, "contents");
    assert!(&rt; is_laid_out(&opened));
    let value = opened.last().expect(&rt, "a view");
    assert_eq!(&rt; (value.total(), value.count(&[3999, 109])), (4000, 1));
    Ok(())
}

/// Whether an index finds just these rows with a key, each of which counts once.
fn finds(index: &Index<'_>, key: &[i64], rows: &[&[i64]]) -> bool {
    let mut found = index.rows(key);
    for row in rows {
        let Some((cells, count)) = found.next() else {
            return false;
        };
        if cells != *row || count != 1 {
            return false;
        }
    }
    found.next().is_none()
}

/// Whether an index finds so many rows with a key.
fn finds_many(index: &Index<'_>, key: &[i64], many: usize) -> bool {
    let mut found = index.rows(key);
    for _ in 0..many {
        if found.next().is_none() {
            return false;
        }
    }
    found.next().is_none()
}

#[test]
fn an_index_has_the_rows_of_a_key(rt: HostRuntime) -> Result<(), Fail> {
    let alloc = rt.alloc();
    let rows = of_a(alloc, 1)?;
    assert!(&rt; rows.has_width(2));
    let index = Index::new(alloc, &rows, vec![in alloc; 1]?)?;
    assert!(&rt; finds_many(&index, &[3], 400));
    assert_eq!(&rt; index.rows(&[3]).next(), Some(([3, 3].as_slice(), 1)));
    assert_eq!(&rt; index.rows(&[3]).last(), Some(([3993, 3].as_slice(), 1)));
    assert!(&rt; finds_many(&index, &[10], 0));
    Ok(())
}

#[test]
fn an_index_on_leading_columns_finds_rows_that_start_with_the_key(
    rt: HostRuntime,
) -> Result<(), Fail> {
    let alloc = rt.alloc();
    let rows = of_a(alloc, 1)?;
    assert!(&rt; rows.has_width(2));
    let index = Index::new(alloc, &rows, vec![in alloc; 0]?)?;
    assert!(&rt; finds(&index, &[3993], &[&[3993, 3]]));
    assert!(&rt; finds(&index, &[4000], &[]));
    let index = Index::new(alloc, &rows, vec![in alloc; 0, 1]?)?;
    assert!(&rt; finds(&index, &[3993, 3], &[&[3993, 3]]));
    assert!(&rt; finds(&index, &[3993, 4], &[]));
    Ok(())
}

#[test]
fn an_index_finds_rows_by_columns_in_another_order(rt: HostRuntime) -> Result<(), Fail> {
    let alloc = rt.alloc();
    let mut rows = Bag::new(alloc);
    for row in [[5, 1, 7], [5, 2, 7], [6, 1, 5], [7, 1, 5], [7, 3, 5]] {
        rows.add(&row, 1)?;
    }
    assert!(&rt; rows.has_width(3));
    let index = Index::new(alloc, &rows, vec![in alloc; 2, 0]?)?;
    assert!(&rt; finds(&index, &[7, 5], &[&[5, 1, 7], &[5, 2, 7]]));
    assert!(&rt; finds(&index, &[5, 7], &[&[7, 1, 5], &[7, 3, 5]]));
    assert!(&rt; finds(&index, &[5, 5], &[]));
    Ok(())
}

#[test]
fn an_index_on_no_column_finds_each_row(rt: HostRuntime) -> Result<(), Fail> {
    let alloc = rt.alloc();
    let rows = of_b(alloc)?;
    let index = Index::new(alloc, &rows, Vec::new(alloc))?;
    assert!(&rt; finds_many(&index, &[], 10));
    assert_eq!(&rt; index.rows(&[]).next(), Some(([0, 100].as_slice(), 1)));
    assert!(&rt; finds_many(&index, &[0], 0));
    Ok(())
}

#[test]
fn a_key_of_another_length_finds_nothing(rt: HostRuntime) -> Result<(), Fail> {
    let alloc = rt.alloc();
    let rows = of_b(alloc)?;
    assert!(&rt; rows.has_width(2));
    let index = Index::new(alloc, &rows, vec![in alloc; 0, 1]?)?;
    assert!(&rt; finds_many(&index, &[3], 0));
    assert!(&rt; finds_many(&index, &[3, 103], 1));
    assert!(&rt; finds_many(&index, &[3, 103, 0], 0));
    let index = Index::new(alloc, &rows, vec![in alloc; 1]?)?;
    assert!(&rt; finds_many(&index, &[], 0));
    assert!(&rt; finds_many(&index, &[103, 3], 0));
    Ok(())
}

#[test]
fn an_index_of_no_rows_finds_none(rt: HostRuntime) -> Result<(), Fail> {
    let alloc = rt.alloc();
    let rows = Bag::new(alloc);
    assert!(&rt; rows.has_width(2));
    let index = Index::new(alloc, &rows, vec![in alloc; 1]?)?;
    assert!(&rt; finds(&index, &[3], &[]));
    Ok(())
}
