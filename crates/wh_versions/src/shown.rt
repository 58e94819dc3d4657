//! Finds what a version shows of the rows of a view.

ghost use Rattle.std.specs.Prelude.{◌≡◌, ◌≢◌, ◌<◌, ◌≤◌, ◌*◌, ◌++◌, ◌↔◌, [], take, length, min, nat_le, IsTrue, IfOk, OnOk, OnErr};
ghost use Rattle.wh_pieces.specs.Flat.{flat};
ghost use Rattle.wh_row.specs.Bag.{empty};
ghost use Rattle.wh_versions.specs.Inner.Pages.{leading};
ghost use Rattle.wh_versions.specs.Pages.{shown_of};
ghost use Rattle.wh_versions.specs.Tables.{shown};

use crate::row::VersionRow;
use std::alloc::{AllocError, Global};
use wh_pieces::{Entries, RowMap};
use wh_row::{Bag, BagFault, Records};

/// How many rows are read at a time, where many and where few are asked for: time alone hangs on it.
const MANY: usize = 256;

const FEW: usize = 8;

/// Returns the first of these rows that a version shows, at most so many, and whether it shows none after them.
pub(crate) fn first_shown<const N: usize>(
    alloc: Global,
    entries: Entries<'_, VersionRow<N>>,
    version: u64,
    limit: usize,
) -> Result<(Records, bool), AllocError>
    requires most { limit ≤ MANY }
    ensures rows { IfOk result (λ page. page.0 ≡ take limit (shown_of version entries.entry)) }
    ensures last { IfOk result (λ page. page.1 ≡ nat_le (length (shown_of version entries.entry)) limit) }
    ensures memory { OnErr result (take limit (shown_of version entries.entry) ≢ []) }
{
    if limit <= FEW {
        return shown_by_runs::<FEW, N>(alloc, entries, version, limit);
    }
    shown_by_runs::<MANY, N>(alloc, entries, version, limit)
}

/// The rows that a session of this version sees, at most `limit` of them, and whether they are the last; `RUN` rows are looked at
/// a time.
fn shown_by_runs<const RUN: usize, const N: usize>(
    alloc: Global,
    mut entries: Entries<'_, VersionRow<N>>,
    version: u64,
    limit: usize,
) -> Result<(Records, bool), AllocError>
    requires run { (0 < RUN) × (RUN ≤ MANY) }
    requires most { limit ≤ MANY }
    ensures rows { IfOk result (λ page. page.0 ≡ take limit (shown_of version entries.entry)) }
    ensures last { IfOk result (λ page. page.1 ≡ nat_le (length (shown_of version entries.entry)) limit) }
    ensures memory { OnErr result (take limit (shown_of version entries.entry) ≢ []) }
{
    let room = few_of(&entries, limit);
    let mut rows = Records::new(alloc);
    while rows.len() < limit {
        let most = RUN.min(limit - rows.len());
        let Some((width, cells, pairs)) = entries.run(most) else {
            return Ok((rows, true));
        };
        add_shown::<RUN, N>(&mut rows, room, width, cells, pairs, version)?;
    }
    Ok((rows, is_none_shown(entries, version)))
}

/// How many of these rows there are, at most so many.
fn few_of<const N: usize>(entries: &Entries<'_, VersionRow<N>>, most: usize) -> usize
    ensures { result ≡ min most (length entries.now) }
{
    let mut rest = entries.fork();
    let mut few = 0;
    while few < most {
        let Some((_, _, pairs)) = rest.run(most - few) else {
            break;
        };
        few += pairs.len();
    }
    few
}

/// Adds those of a run's rows that a version shows, the first rows with room for so many.
fn add_shown<const RUN: usize, const N: usize>(
    rows: &mut Records,
    room: usize,
    width: usize,
    cells: &[i64],
    pairs: &[VersionRow<N>],
    version: u64,
) -> Result<(), AllocError>
    requires even { length cells.now ≡ width * length pairs.now }
    requires run { RUN ≤ MANY }
    requires few { length pairs.now ≤ RUN }
    requires room { room ≤ MANY }
    ensures ok { OnOk result (rows.new ≡ rows.old ++ shown_of version (flat width cells.now pairs.now)) }
    ensures memory { OnErr result (shown_of version (flat width cells.now pairs.now) ≢ []) }
{
    let mut counts = [0; RUN];
    let mut from = 0;
    while from < pairs.len() {
        let to = from + read_leading(&mut counts, &pairs[from..], version);
        add_run(
            rows,
            room,
            width,
            &cells[width * from..width * to],
            &counts[..to - from],
        )?;
        from = to + 1;
    }
    Ok(())
}

/// Adds records of one width, the first with room for so many.
fn add_run(
    rows: &mut Records,
    room: usize,
    width: usize,
    cells: &[i64],
    counts: &[i64],
) -> Result<(), AllocError>
    requires even { length cells.now ≡ width * length counts.now }
    requires room { room ≤ MANY }
    ensures ok { OnOk result (rows.new ≡ rows.old ++ flat width cells.now counts.now) }
    ensures memory { OnErr result (counts.now ≢ []) }
{
    if counts.is_empty() {
        return Ok(());
    }
    if rows.is_empty() {
        rows.reserve(width, room)?;
    }
    rows.append(width, cells, counts)
}

/// Reads what a version counts of the rows before the first that it does not show, and says how many these are.
fn read_leading<const N: usize>(counts: &mut [i64], pairs: &[VersionRow<N>], version: u64) -> usize
    requires { length pairs.now ≤ length counts.old }
    ensures counts { take result counts.new ≡ leading version pairs.now }
    ensures room { length counts.new ≡ length counts.old }
    ensures few { result ≡ length (leading version pairs.now) }
{
    for place in 0..pairs.len() {
        let count = pairs[place].read(version);
        if count == 0 {
            return place;
        }
        counts[place] = count;
    }
    pairs.len()
}

/// Whether a version shows none of these rows.
fn is_none_shown<const N: usize>(entries: Entries<'_, VersionRow<N>>, version: u64) -> bool
    ensures { IsTrue result ↔ (shown_of version entries.entry ≡ []) }
{
    for (_, pairs) in entries {
        if pairs.read(version) != 0 {
            return false;
        }
    }
    true
}

/// Returns the table that a version shows of rows.
pub(crate) fn table_of<const N: usize>(
    alloc: Global,
    rows: &RowMap<VersionRow<N>>,
    version: u64,
) -> Result<Bag, AllocError>
    ensures ok { IfOk result (λ table. table ≡ shown version rows.now) }
    ensures memory { OnErr result (shown version rows.now ≢ empty) }
{
    let mut table = Bag::new(alloc);
    for (row, pairs) in rows.entries() {
        match table.add(row, pairs.read(version)) {
            Ok(()) => {}
            Err(BagFault::Memory) => return Err(AllocError),
            Err(BagFault::Large) => unreachable!(),
        }
    }
    Ok(table)
}
