//! Deals the parts of a catalogue out to the views in rising order, since they are given as two lists.
ghost use Rattle.std.specs.Prelude.{◌≡◌, ◌<◌, length, IfOk, OnErr};
ghost use Rattle.wh_dag.specs.CatalogParts.{dealt_definitions, dealt_widths};

use crate::child_lists::ChildLists;
use crate::definition::Definition;
use std::alloc::{AllocError, Global};
use wh_formula::{RowTest, RowValue};

/// Returns for each view its definition: each derived view has the next of those given, and a base view none.
pub(crate) fn definitions<F: RowTest + Drop, G: RowValue + Drop>(
    alloc: Global,
    shape: &ChildLists,
    given: Vec<Definition<F, G>>,
) -> Result<Vec<Option<Definition<F, G>>>, AllocError>
    ensures dealt { IfOk result (λ dealt. dealt.items ≡ dealt_definitions shape.now given.items) }
    ensures memory { OnErr result (0 < length shape.now) }
{
    let mut given = given.into_iter();
    let mut dealt = Vec::new(alloc);
    for view in 0..shape.len() {
        let own = if shape.of(view).is_empty() {
            None
        } else {
            given.next()
        };
        dealt.push(own)?;
    }
    Ok(dealt)
}

/// Returns for each view its number of columns: what its definition says, and where it has none the next of those given.
pub(crate) fn widths<F: RowTest, G: RowValue>(
    alloc: Global,
    definitions: &[Option<Definition<F, G>>],
    given: Vec<usize>,
) -> Result<Vec<usize>, AllocError>
    ensures dealt { IfOk result (λ dealt. dealt.items ≡ dealt_widths definitions.now given.items) }
    ensures memory { OnErr result (0 < length definitions.now) }
{
    let mut given = given.into_iter();
    let mut dealt = Vec::new(alloc);
    for definition in definitions {
        let width = match definition {
            Some(definition) => definition.columns(),
            None => given.next().unwrap_or(0),
        };
        dealt.push(width)?;
    }
    Ok(dealt)
}
