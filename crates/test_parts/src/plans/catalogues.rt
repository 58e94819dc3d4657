//! Catalogues of two nights: what was given reads back, what is stored answers on combined rows, and what does not fit.

use std::process::Abort;
use std::test::Fail;
use test_given::catalogs::{Cell, Every, first_and_fourth, joined, second, summed};
use test_given::shapes::shaped;
use wh_dag::{Catalog, Definition, Output};
use wh_formula::{Combiner, Filter, Pred};

/// Each combiner's value at the row.
fn gives(rt: &impl Abort, combiners: &[Combiner<Cell>], row: &[i64], values: &[i64]) {
    assert_eq!(rt; combiners.len(), values.len());
    for (combiner, value) in combiners.iter().zip(values) {
        assert_eq!(rt; combiner.width(), row.len());
        assert_eq!(rt; combiner.combine(row), Some(*value));
    }
}

#[test]
fn a_join_of_two_tables_reads_back(rt: HostRuntime) -> Result<(), Fail> {
    let catalog = joined(rt.alloc())?;
    widths_read_back(&rt, &catalog);
    assert!(rt; catalog.shape().len() == 3 && !catalog.is_base(2));
    join_reads_back(&rt, catalog.derived(2));
    Ok(())
}

/// The catalogue gives back how wide its views are, and which of them are base views.
fn widths_read_back(rt: &impl Abort, catalog: &Catalog<Every, Cell>) {
    assert_eq!(rt; catalog.shape().len(), 3);
    assert_eq!(rt; (catalog.width(0), catalog.width(2)), (2, 2));
    assert_eq!(rt;
        (catalog.combined_width(0), catalog.combined_width(2)),
        (0, 4)
    );
    assert!(rt; catalog.definition(1).is_none() && catalog.is_base(1));
}

/// The definition gives back its join, its filter and the columns that it keeps.
fn join_reads_back(rt: &impl Abort, definition: &Definition<Every, Cell>) {
    assert_eq!(rt; definition.join(), [(1, 2)].as_slice());
    assert_eq!(rt; definition.filter().width(), 4);
    assert!(rt; definition.filter().accepts(&[1, 10, 10, 5]));
    match definition.output() {
        Output::Keep(kept) => gives(rt, kept, &[1, 10, 10, 5], &[1, 5]),
        Output::Sums { .. } => assert!(rt; false, "a summary"),
    }
}

#[test]
fn a_summary_reads_back(rt: HostRuntime) -> Result<(), Fail> {
    let catalog = summed(rt.alloc())?;
    assert!(rt; catalog.shape().len() == 2 && !catalog.is_base(1));
    assert_eq!(rt; (catalog.width(1), catalog.combined_width(1)), (3, 2));
    match catalog.derived(1).output() {
        Output::Sums { group, sums } => {
            assert_eq!(rt; group.as_slice(), [0].as_slice());
            gives(&rt, sums, &[2, 3], &[3]);
        }
        Output::Keep(_) => assert!(rt; false, "a join"),
    }
    Ok(())
}

#[test]
fn places_past_the_row_do_not_fit(rt: HostRuntime) -> Result<(), Fail> {
    let filter = Filter::new(Pred::always(), 4, Every);
    let out = Output::Keep(first_and_fourth(rt.alloc())?);
    assert!(rt; Definition::fits(&[(1, 3)], &filter, &out));
    assert!(rt; !Definition::fits(&[(1, 4)], &filter, &out));
    assert!(rt; !out.is_over(3));
    Ok(())
}

#[test]
fn a_group_past_the_row_is_not_over_it(rt: HostRuntime) -> Result<(), Fail> {
    let alloc = rt.alloc();
    let sums = second(alloc)?;
    let group = vec![in alloc; 2]?;
    let out = Output::Sums { group, sums };
    assert!(rt; !out.is_over(2));
    Ok(())
}

static WIDTHS: [(&[usize], bool); 5] = [
    (&[64], true),
    (&[65], false),
    (&[0], false),
    (&[], false),
    (&[1, 1], false),
];

// By exactly one width.
#[test]
fn a_base_view_has_1_to_64_columns(rt: HostRuntime) -> Result<(), Fail> {
    let shape = shaped(rt.alloc(), &[("a", "-")])?;
    let none: Vec<Definition<Every, Cell>> = Vec::new(rt.alloc());
    for (widths, wanted) in &WIDTHS {
        assert_eq!(rt; Catalog::fits(&shape, widths, &none), *wanted);
    }
    Ok(())
}

#[test]
fn a_derived_view_needs_its_definition(rt: HostRuntime) -> Result<(), Fail> {
    let shape = shaped(rt.alloc(), &[("a", "-"), ("v", "a")])?;
    let none: Vec<Definition<Every, Cell>> = Vec::new(rt.alloc());
    assert!(rt; !Catalog::fits(&shape, &[1], &none));
    assert!(rt; !Catalog::fits(&shape, &[1, 1], &none));
    Ok(())
}
