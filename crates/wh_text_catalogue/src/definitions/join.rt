//! Reads the pairs of columns that are equal in a joined row.
ghost use Rattle.std.specs.Prelude.{◌≡◌, ◌⊎◌, [], codes, map, option_map, Ok, Err, IfOk, IfErr};
ghost use Rattle.std.specs.Option.{option_copied};
ghost use Rattle.toml.specs.Data.{get};
ghost use Rattle.toml.specs.View.{view};
ghost use Rattle.wh_text_catalogue.specs.Join.{join_of, joined, joined_link, link_of, linked_cell, links_in, links_written, same_kind, unknown_in_link, unknown_in_links};
ghost use Rattle.wh_text_catalogue.specs.Inner.Join.{seen_link};

use super::column_names::column_fault;
use super::formula_columns::unknown;
use super::header::{Cell, Header};
use super::pairs::reference_in;
use crate::catalogue::array_of;
use std::alloc::{AllocError, Global};
use toml::Value;
use wh_text::{Key, Kind, LoadFault};

/// Two references whose columns are equal.
#[derive(Clone, Copy)]
pub(crate) struct Link<'a> {
    /// The first reference.
    pub left: &'a str,
    /// The second reference.
    pub right: &'a str,
}

/// The two references that these values are, if they are.
fn link_of(values: &[Value]) -> Option<Link<'_>>
    ensures { option_map seen_link result ≡ link_of (map view values.now) }
{
    match values {
        [left, right] => {
            let left = reference_in(left)?;
            let right = reference_in(right)?;
            Some(Link { left, right })
        }
        _ => None,
    }
}

/// The links that these values are; none where one of them is none.
fn links_in(alloc: Global, values: &[Value]) -> Result<Option<Vec<Link<'_>>>, AllocError>
    ensures { IfOk result (λ found. option_map (λ links. map seen_link links.items) found ≡ links_in [] (map view values.now)) }
{
    let mut links = Vec::new(alloc);
    for value in values {
        let Some(parts) = array_of(value) else {
            return Ok(None);
        };
        let Some(link) = link_of(parts) else {
            return Ok(None);
        };
        links.push(link)?;
    }
    Ok(Some(links))
}

/// The links at the key, none where it is missing, else Key(Join).
fn links_written(alloc: Global, table: &Value) -> Result<Vec<Link<'_>>, LoadFault>
    ensures ok { IfOk result (λ links. links_written (get (codes "join") (view table.now)) ≡ Ok (map seen_link links.items)) }
    ensures err { IfErr result (λ f. (f ≡ LoadFault.Memory) ⊎ (links_written (get (codes "join") (view table.now)) ≡ Err f)) }
{
    let Some(value) = table.get("join") else {
        return Ok(Vec::new(alloc));
    };
    let Some(values) = array_of(value) else {
        return Err(LoadFault::Key(Key::Join));
    };
    match links_in(alloc, values)? {
        Some(links) => Ok(links),
        None => Err(LoadFault::Key(Key::Join)),
    }
}

/// The first of two references that names no column.
fn unknown_in_link<'a>(header: &Header, left: &'a str, right: &'a str) -> Option<&'a str>
    ensures { option_copied result ≡ unknown_in_link header.now.columns left.now right.now }
{
    match unknown(header, left) {
        Some(text) => Some(text),
        None => unknown(header, right),
    }
}

/// The first reference of these links that names no column.
fn unknown_in_links<'a>(header: &Header, links: &[Link<'a>]) -> Option<&'a str>
    ensures { option_copied result ≡ unknown_in_links header.now.columns (map seen_link links.now) }
{
    for link in links {
        if let Some(text) = unknown_in_link(header, link.left, link.right) {
            return Some(text);
        }
    }
    None
}

/// Whether the kinds are the same.
fn same_kind(left: Kind, right: Kind) -> bool
    ensures { result ≡ same_kind left right }
{
    match (left, right) {
        (Kind::Int, Kind::Int) => true,
        (Kind::Text, Kind::Text) => true,
        _ => false,
    }
}

/// The cell that a reference names, else Kind.
fn linked_cell(alloc: Global, header: &Header, reference: &str) -> Result<Cell, LoadFault>
    ensures ok { IfOk result (λ cell. linked_cell header.now reference.now ≡ Ok cell) }
    ensures err { IfErr result (λ f. (f ≡ LoadFault.Memory) ⊎ (linked_cell header.now reference.now ≡ Err f)) }
{
    match header.cell(reference) {
        Some(cell) => Ok(cell),
        None => Err(header.unfit(alloc)),
    }
}

/// The places that two references name, where their kinds are the same, else Kind.
fn joined_link(
    alloc: Global,
    header: &Header,
    left: &str,
    right: &str,
) -> Result<(usize, usize), LoadFault>
    ensures ok { IfOk result (λ places. joined_link header.now left.now right.now ≡ Ok places) }
    ensures err { IfErr result (λ f. (f ≡ LoadFault.Memory) ⊎ (joined_link header.now left.now right.now ≡ Err f)) }
{
    let left = linked_cell(alloc, header, left)?;
    let right = linked_cell(alloc, header, right)?;
    if !same_kind(left.kind, right.kind) {
        return Err(header.unfit(alloc));
    }
    Ok((left.place, right.place))
}

/// The places that these links name, or the first fault.
fn joined(
    alloc: Global,
    header: &Header,
    links: &[Link<'_>],
) -> Result<Vec<(usize, usize)>, LoadFault>
    ensures ok { IfOk result (λ places. joined header.now [] (map seen_link links.now) ≡ Ok places.items) }
    ensures err { IfErr result (λ f. (f ≡ LoadFault.Memory) ⊎ (joined header.now [] (map seen_link links.now) ≡ Err f)) }
{
    let mut places = Vec::new(alloc);
    for link in links {
        let own = joined_link(alloc, header, link.left, link.right)?;
        places.push(own)?;
    }
    Ok(places)
}

/// Returns the places that are equal in a joined row, or the first fault: Key(Join), then Column, then Kind.
pub(crate) fn join_of(
    alloc: Global,
    header: &Header,
    table: &Value,
) -> Result<Vec<(usize, usize)>, LoadFault>
    ensures ok { IfOk result (λ places. join_of header.now (view table.now) ≡ Ok places.items) }
    ensures err { IfErr result (λ f. (f ≡ LoadFault.Memory) ⊎ (join_of header.now (view table.now) ≡ Err f)) }
{
    let links = links_written(alloc, table)?;
    if let Some(text) = unknown_in_links(header, &links) {
        return Err(column_fault(alloc, text));
    }
    joined(alloc, header, &links)
}
