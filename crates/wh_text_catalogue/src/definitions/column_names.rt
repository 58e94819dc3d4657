//! Collects names of columns, of which none may stand twice.
ghost use Rattle.std.specs.Prelude.{◌≡◌, ◌⊎◌, [], map, Ok, Err, IfErr, IsOk, OnOk};
ghost use Rattle.wh_text_catalogue.specs.ColumnNames.{fresh_columns, fresh_name};

use indexmap::IndexSet;
use std::alloc::Global;
use wh_text::{Column, LoadFault, Word};

/// Returns the fault of a column that is unknown or repeated, or Memory.
pub(crate) fn column_fault(alloc: Global, name: &str) -> LoadFault
    ensures { (result ≡ LoadFault.Memory) ⊎ (result ≡ LoadFault.Column name.now) }
{
    match Word::new(alloc, name.as_bytes()) {
        Ok(name) => LoadFault::Column(name),
        Err(_) => LoadFault::Memory,
    }
}

/// Notes a name, which must not have stood earlier.
pub(crate) fn fresh_name<'a>(
    alloc: Global,
    seen: &mut IndexSet<&'a str>,
    name: &'a str,
) -> Result<(), LoadFault>
    ensures ok { OnOk result (fresh_name (map (λ n. n.now) seen.old.keys) name.now ≡ Ok (map (λ n. n.now) seen.new.keys)) }
    ensures err { IfErr result (λ f. (f ≡ LoadFault.Memory) ⊎ (fresh_name (map (λ n. n.now) seen.old.keys) name.now ≡ Err f)) }
{
    if seen.insert(name)? {
        Ok(())
    } else {
        Err(column_fault(alloc, name))
    }
}

/// Tests that no name stands twice among the columns, or returns the fault of the first that does.
pub(crate) fn distinct_columns(alloc: Global, columns: &[Column]) -> Result<(), LoadFault>
    ensures ok { OnOk result (IsOk (fresh_columns [] columns.now)) }
    ensures err { IfErr result (λ f. (f ≡ LoadFault.Memory) ⊎ (fresh_columns [] columns.now ≡ Err f)) }
{
    let mut seen = IndexSet::new(alloc);
    for column in columns {
        fresh_name(alloc, &mut seen, column.name())?;
    }
    Ok(())
}
