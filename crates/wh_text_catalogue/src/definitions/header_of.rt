//! Makes the combined row of a view, of the columns of its children.
ghost use Rattle.std.specs.Prelude.{◌≡◌, ◌++◌, ◌∷◌, ◌<◌, map, flat_map, length, string_bytes, IfOk, OnOk};
ghost use Rattle.wh_dag.specs.Shape.{children_of};
ghost use Rattle.wh_text_catalogue.specs.Definitions.{child_columns, columns_of, header_of, qualified, shown_view};

use super::header::Header;
use super::views::WrittenView;
use std::alloc::{AllocError, Global};
use wh_dag::Shape;
use wh_text::Column;

/// The column under the reference that names it, `CHILD.COLUMN`.
fn qualified(alloc: Global, child: &str, column: &Column) -> Result<Column, AllocError>
    ensures { IfOk result (λ own. own ≡ qualified child.now column.now) }
{
    let mut name = String::from_str(alloc, child)?;
    name.push_str(".")?;
    name.push_str(column.name())?;
    Ok(Column::new(name, column.kind()))
}

/// Appends a child's columns, each under the reference that names it.
fn append_qualified(
    alloc: Global,
    columns: &mut Vec<Column>,
    child: &str,
    own: &[Column],
) -> Result<(), AllocError>
    ensures { OnOk result (columns.new.items ≡ columns.old.items ++ map (qualified child.now) own.now) }
{
    for column in own {
        let column = qualified(alloc, child, column)?;
        columns.push(column)?;
    }
    Ok(())
}

/// The columns of the view of this number; none where there is no such view.
fn columns_of(views: &[WrittenView], view: usize) -> &[Column]
    ensures { result.now ≡ columns_of (map shown_view views.now) view }
{
    match views.get(view) {
        Some(view) => view.columns.as_slice(),
        None => &[],
    }
}

/// The columns of these children side by side.
fn combined_columns(
    alloc: Global,
    shape: &Shape,
    views: &[WrittenView],
    children: &[usize],
) -> Result<Vec<Column>, AllocError>
    ensures { IfOk result (λ columns. columns.items ≡ flat_map (child_columns shape.now.names (map shown_view views.now)) children.now) }
{
    let mut columns = Vec::new(alloc);
    for child in children {
        let name = shape.name(*child);
        append_qualified(alloc, &mut columns, name, columns_of(views, *child))?;
    }
    Ok(columns)
}

/// Returns the combined row of the view over its children, which stand among these views.
pub(crate) fn header_of(
    alloc: Global,
    shape: &Shape,
    views: &[WrittenView],
    view: usize,
) -> Result<Header, AllocError>
    requires { view < length shape.now.children }
    ensures { IfOk result (λ header. header ≡ header_of shape.now (map shown_view views.now) view) }
{
    let columns = combined_columns(alloc, shape, views, shape.children(view))?;
    let name = String::from_str(alloc, shape.name(view))?;
    Ok(Header::new(name, columns))
}
