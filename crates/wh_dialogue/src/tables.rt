//! Writes how many rows all tables have.

ghost use Rattle.std.specs.Prelude.{◌≡◌, ◌⊎◌, ◌++◌, codes, decimal, IfOk, OnOk};
ghost use Rattle.std.specs.List.{flat_map};
ghost use Rattle.wh_core.specs.Log.{Log};
ghost use Rattle.wh_core.specs.Nights.{Setup};
ghost use Rattle.wh_core.specs.Standing.{StandsWith};
ghost use Rattle.wh_core.specs.Tables.{readable_now, sizes_now};
ghost use Rattle.wh_dialogue.specs.Said.{size_line, size_lines, tables_text, version_text};
ghost use Rattle.wh_replies.specs.ReplyText.{line};
ghost use Rattle.wh_stay.specs.Standing.{core_of, standing_of};

use std::alloc::{AllocError, Global};
use wh_formula::{RowTest, RowValue};
use wh_load::Names;
use wh_stay::Live;

/// Appends the line of a view.
fn append_size(alloc: Global, out: &mut Vec<u8>, name: &str, size: u128) -> Result<(), AllocError>
    ensures { OnOk result (out.new.items ≡ out.old.items ++ size_line name.now size) }
{
    let text = format!(in alloc; ",{size}\n")?;
    out.extend_from_slice(name.as_bytes())?;
    out.extend_from_slice(text.as_bytes())
}

/// Appends the lines of the views of these names.
fn append_sizes(
    alloc: Global,
    out: &mut Vec<u8>,
    names: &Names,
    sizes: &[u128],
) -> Result<(), AllocError>
    ensures { OnOk result (out.new.items ≡ out.old.items ++ size_lines names.now sizes.now) }
{
    for view in 0..names.len() {
        let Some(size) = sizes.get(view) else {
            return Ok(());
        };
        append_size(alloc, out, names.name(view), *size)?;
    }
    Ok(())
}

/// Appends a version behind a space.
fn append_version(alloc: Global, out: &mut Vec<u8>, version: u64) -> Result<(), AllocError>
    ensures { OnOk result (out.new.items ≡ out.old.items ++ version_text version) }
{
    let text = format!(in alloc; " {version}")?;
    out.extend_from_slice(text.as_bytes())
}

/// Appends versions, each behind a space.
fn append_versions(alloc: Global, out: &mut Vec<u8>, versions: &[u64]) -> Result<(), AllocError>
    ensures { OnOk result (out.new.items ≡ out.old.items ++ flat_map version_text versions.now) }
{
    for version in versions {
        append_version(alloc, out, *version)?;
    }
    Ok(())
}

/// The text of so many rows of all tables, and of these versions.
fn sizes_text(
    alloc: Global,
    names: &Names,
    sizes: &[u128],
    versions: &[u64],
) -> Result<Vec<u8>, AllocError>
    ensures { IfOk result (λ text. text.items ≡ tables_text names.now sizes.now versions.now) }
{
    let mut text = Vec::new(alloc);
    text.extend_from_slice(b"view,rows\n")?;
    append_sizes(alloc, &mut text, names, sizes)?;
    text.extend_from_slice(b"versions")?;
    append_versions(alloc, &mut text, versions)?;
    text.push(b'\n')?;
    Ok(text)
}

/// Returns what is printed of how many rows all tables have: `memory` where memory was refused to find it out.
/// Fails for want of memory.
pub(crate) fn tables_text<F: RowTest + Drop, G: RowValue + Drop>(
    alloc: Global,
    live: &Live<F, G>,
) -> Result<Vec<u8>, AllocError>
    ensures { IfOk result (λ text. (s : Setup) (log : Log) → StandsWith s log (core_of live.now)
        → (text.items ≡ tables_text (standing_of live.now).names (sizes_now s log) (readable_now s log)) ⊎ (text.items ≡ line (codes "memory"))) }
{
    let (Ok(sizes), Ok(versions)) = (live.sizes(), live.readable()) else {
        return b"memory\n".as_slice().to_vec(alloc);
    };
    sizes_text(alloc, live.names(), &sizes, &versions)
}
