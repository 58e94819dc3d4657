//! Shapes by their views' names.

use std::alloc::{AllocError, Global};
use wh_dag::{Shape, ShapeFault};

/// The children of a view, by their names with spaces between: "-" for a base view.
fn children(alloc: Global, names: &str) -> Result<Option<Vec<String>>, AllocError> {
    if names == "-" {
        return Ok(None);
    }
    let mut children = Vec::new(alloc);
    for name in names.split_whitespace() {
        children.push(String::from_str(alloc, name)?)?;
    }
    Ok(Some(children))
}

/// The shape of these views, each by its name and the names of its children: "-" for a base view.
pub fn shaped(alloc: Global, rows: &[(&str, &str)]) -> Result<Shape, ShapeFault> {
    let mut names = Vec::new(alloc);
    let mut over = Vec::new(alloc);
    for (name, own) in rows {
        names.push(String::from_str(alloc, name)?)?;
        over.push(children(alloc, own)?)?;
    }
    // As many are pushed to one list as to the other.
    if names.len() != over.len() {
        return Err(ShapeFault::Memory);
    }
    Shape::new(alloc, names, over)
}
