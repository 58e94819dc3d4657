//! A store of whole tables: what a store shows, the plain way.

use std::alloc::Global;
use std::process::Abort;
use std::test::Fail;
use wh_row::{Bag, Row};
use wh_store::Op;

/// The tables of the versions that sessions can still read, the newest first, and in a night before them those that are being written.
#[derive(Drop)]
pub(crate) struct Plain {
    limit: usize,
    number: u64,
    active: bool,
    held: Vec<Vec<Bag>>,
}

/// The same tables again.
fn copy_of(alloc: Global, tables: &[Bag]) -> Result<Vec<Bag>, Fail> {
    let mut copy = Vec::new(alloc);
    for table in tables {
        copy.push(table.copy(alloc)?)?;
    }
    Ok(copy)
}

/// Gives rows of a table new counts.
fn write_over(table: &mut Bag, rows: &[(Row, i64)]) -> Result<(), Fail> {
    for (row, count) in rows {
        let more = count.wrapping_sub(table.count(row.as_slice()));
        table.add(row.as_slice(), more)?;
    }
    Ok(())
}

impl Plain {
    /// Version 0, of these tables, in no night, where so many versions are kept.
    pub(crate) fn new(alloc: Global, tables: Vec<Bag>, limit: usize) -> Result<Plain, Fail> {
        let mut held = Vec::new(alloc);
        held.push(tables)?;
        Ok(Plain {
            limit,
            number: 0,
            active: false,
            held,
        })
    }

    /// The number of the current version.
    pub(crate) fn number(&self) -> u64 {
        self.number
    }

    /// Whether a night is open.
    pub(crate) fn is_active(&self) -> bool {
        self.active
    }

    /// The tables of a version that sessions can be read of.
    pub(crate) fn tables(&self, version: u64) -> Option<&Vec<Bag>> {
        let back = self.number.checked_sub(version)? as usize;
        let place = back.checked_add(usize::from(self.active))?;
        self.held.get(place)
    }

    fn begin(&mut self, alloc: Global) -> Result<(), Fail> {
        if let Some(tables) = self.held.get(0) {
            let draft = copy_of(alloc, tables.as_slice())?;
            self.held.truncate(self.limit.saturating_sub(1));
            self.held.insert(0, draft)?;
        }
        self.active = true;
        Ok(())
    }

    fn put(&mut self, rt: &impl Abort, view: usize, rows: &[(Row, i64)]) -> Result<(), Fail> {
        let Some(tables) = self.held.get_mut(0) else {
            panic!(rt; "no tables")
        };
        let Some(table) = tables.get_mut(view) else {
            panic!(rt; "no such view")
        };
        write_over(table, rows)
    }

    fn give_up(&mut self, rt: &impl Abort, alloc: Global) -> Result<(), Fail> {
        let Some(before) = self.held.get(1) else {
            panic!(rt; "no version before")
        };
        let again = copy_of(alloc, before.as_slice())?;
        if let Some(first) = self.held.get_mut(0) {
            *first = again;
        }
        self.end();
        Ok(())
    }

    fn end(&mut self) {
        self.number = self.number.saturating_add(1);
        self.active = false;
    }

    /// Does an operation that may come.
    pub(crate) fn apply(&mut self, rt: &impl Abort, alloc: Global, op: &Op) -> Result<(), Fail> {
        match op {
            Op::Begin => self.begin(alloc),
            Op::Put(view, rows) => self.put(rt, *view, rows.as_slice()),
            Op::Commit => {
                self.end();
                Ok(())
            }
            Op::GiveUp => self.give_up(rt, alloc),
        }
    }
}
