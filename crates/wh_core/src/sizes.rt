//! Tells how many rows the tables of the current version have, and which versions can be read.

ghost use Rattle.std.specs.Prelude.{◌≡◌, ◌++◌, IfOk, OnOk, List, is_some, map};
ghost use Rattle.wh_core.specs.Log.{Log};
ghost use Rattle.wh_core.specs.Nights.{Setup};
ghost use Rattle.wh_core.specs.Standing.{Stands};
ghost use Rattle.wh_core.specs.Tables.{kept_before, readable_now, sizes_now, sizes_of};
ghost use Rattle.wh_store.specs.Operations.{Operation};
ghost use Rattle.wh_store.specs.Pages.{Contents};
ghost use Rattle.wh_store.specs.Versions.{versions_of};
ghost use Rattle.wh_store.specs.Windows.{Shows};

use crate::machine::Machine;
use std::alloc::{AllocError, Global};
use wh_row::Bag;
use wh_store::Store;

/// How many rows each of these tables has.
fn sizes_of(alloc: Global, tables: &[Bag]) -> Result<Vec<u128>, AllocError>
    ensures { IfOk result (λ sizes. sizes.items ≡ sizes_of tables.now) }
{
    tables.iter().map(|table| table.total()).collect(alloc)
}

/// How many rows each table of the store's current version has. Each is copied for it, one after another.
fn stored_sizes(alloc: Global, store: &Store) -> Result<Vec<u128>, AllocError>
    ensures { IfOk result (λ sizes. (opening : Contents) (ops : List Operation) → Shows store.now opening ops → sizes.items ≡ sizes_of (versions_of opening ops).newest) }
{
    let mut sizes = Vec::new(alloc);
    for view in 0..store.current_views() {
        let table = store.table(view)?;
        sizes.push(table.total())?;
    }
    Ok(sizes)
}

/// Appends the version so many before the current one, where there is one and sessions of it can be read.
fn push_kept(versions: &mut Vec<u64>, store: &Store, back: u64) -> Result<(), AllocError>
    ensures { OnOk result (versions.new.items ≡ versions.old.items ++ kept_before store.now.limit store.now.number (is_some store.now.draft) back) }
{
    let current = store.number();
    if back <= current && store.unexpired(current - back) {
        versions.push(current - back)?;
    }
    Ok(())
}

impl Machine {
    /// How many rows the tables of the current version have. Where no night is open and the tables are kept, no row is walked through.
    pub(crate) fn sizes(&self) -> Result<Vec<u128>, AllocError>
        ensures { IfOk result (λ sizes. (s : Setup) (log : Log) → Stands s log self.now → sizes.items ≡ sizes_now s log) }
    {
        match &self.tables {
            Some(tables) if !self.store.is_active() => sizes_of(self.alloc, tables),
            _ => stored_sizes(self.alloc, &self.store),
        }
    }

    /// The versions that sessions can be read of, the current one last.
    pub(crate) fn readable(&self) -> Result<Vec<u64>, AllocError>
        ensures { IfOk result (λ versions. (s : Setup) (log : Log) → Stands s log self.now → versions.items ≡ readable_now s log) }
    {
        let mut versions = Vec::new(self.alloc);
        push_kept(&mut versions, &self.store, 3)?;
        push_kept(&mut versions, &self.store, 2)?;
        push_kept(&mut versions, &self.store, 1)?;
        push_kept(&mut versions, &self.store, 0)?;
        Ok(versions)
    }
}
