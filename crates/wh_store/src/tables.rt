//! Shows the rows of all views, as a store keeps them.

ghost use Rattle.std.specs.Prelude.{◌≡◌, ◌+◌, ◌<◌, ◌≤◌, ◌^◌, map, length, IfOk, OnOk, OnErr};
ghost use Rattle.std.specs.List.{AllByRecursion};
ghost use Rattle.wh_row.specs.Stored.{plain};
ghost use Rattle.wh_store.specs.Inner.Kept.{Begins, IsPut, IsUnseen, Returns, back_rows, begun_rows, opened_rows, paired};
ghost use Rattle.wh_store.specs.Kept.{AreTables};
ghost use Rattle.wh_versions.specs.Tables.{HaveCounts, IsNewToNight, ViewRows};

use std::alloc::{AllocError, Global};
use wh_row::{Bag, Row};
use wh_versions::VersionTable;

/// Returns the rows of these tables, each table as version 0 alone.
pub(crate) fn first_tables<const N: usize>(
    alloc: Global,
    tables: &[Bag],
) -> Result<Vec<VersionTable<N>>, AllocError>
    requires versions { 2 ≤ N }
    requires few { N ≤ 4 }
    requires tables { AreTables tables.now }
    ensures { IfOk result (λ first. first.items ≡ map opened_rows tables.now) }
{
    let mut first = Vec::new(alloc);
    for table in tables {
        first.push(VersionTable::new(alloc, table)?)?;
    }
    Ok(first)
}

/// Begins the next night of a view.
fn begin_one<const N: usize>(table: &mut VersionTable<N>)
    requires enough { 2 ≤ N }
    requires number { table.old.night + 1 < 2 ^ 64 }
    ensures rows { table.new ≡ begun_rows N table.old }
    ensures keeps { Begins N table.old }
{
    table.are_in_form();
    table.begin();
    table.are_in_form();
}

/// Begins the next night of each view.
pub(crate) fn begin_each<const N: usize>(tables: &mut [VersionTable<N>])
    requires enough { 2 ≤ N }
    requires numbers { AllByRecursion (λ (t : ViewRows). t.night + 1 < 2 ^ 64) tables.old }
    ensures rows { tables.new ≡ map (begun_rows N) tables.old }
    ensures keeps { AllByRecursion (Begins N) tables.old }
{
    for table in tables.iter_mut() {
        begin_one(table);
    }
}

/// Takes away what the night of a view wrote.
fn give_up_one<const N: usize>(table: &mut VersionTable<N>)
    requires { 0 < table.old.night }
    ensures rows { table.new ≡ back_rows table.old }
    ensures returns { Returns table.old }
{
    table.are_in_form();
    table.give_up();
    table.are_in_form();
}

/// Takes away what the night of each view wrote.
pub(crate) fn give_up_each<const N: usize>(tables: &mut [VersionTable<N>])
    requires { AllByRecursion (λ (t : ViewRows). 0 < t.night) tables.old }
    ensures rows { tables.new ≡ map back_rows tables.old }
    ensures returns { AllByRecursion Returns tables.old }
{
    for table in tables.iter_mut() {
        give_up_one(table);
    }
}

/// Writes counts of rows of a view in its night.
pub(crate) fn put_one<const N: usize>(
    table: &mut VersionTable<N>,
    rows: &[(Row, i64)],
) -> Result<(), AllocError>
    requires enough { 2 ≤ N }
    requires begun { 0 < table.old.night }
    requires counts { HaveCounts (plain rows.now) }
    ensures ok { OnOk result (IsPut N (plain rows.now) table.old table.new) }
    ensures err { OnErr result (IsUnseen table.old table.new) }
    ensures memory { OnErr result (IsNewToNight (plain rows.now) (paired table.old)) }
{
    table.are_in_form();
    let written = table.put(rows);
    table.are_in_form();
    written
}

/// Makes copies of the tables of all views.
pub(crate) fn copy_each<const N: usize>(
    alloc: Global,
    tables: &[VersionTable<N>],
) -> Result<Vec<VersionTable<N>>, AllocError>
    ensures { IfOk result (λ copy. copy.items ≡ tables.now) }
{
    let mut copy = Vec::new(alloc);
    for table in tables {
        copy.push(table.copy(alloc)?)?;
    }
    Ok(copy)
}
