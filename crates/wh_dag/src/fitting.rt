//! Tests whether the parts of a catalogue fit together, before one is made of them.
ghost use Rattle.std.specs.Prelude.{◌≡◌, ◌<◌, ◌≤◌, ◌↔◌, length, IsTrue, All};
ghost use Rattle.wh_dag.specs.Catalog.{total_width};
ghost use Rattle.wh_dag.specs.CatalogParts.{FitTogether, FitIsShown};

use crate::definition::Definition;
use crate::limits::{MAX_COLUMNS, MAX_VIEWS};
use crate::shape::Shape;
use wh_formula::{RowTest, RowValue};

// How many cells a row of each of these views have together, none having more than 64.
fn total_width(widths: &[usize], views: &[usize]) -> usize
    requires within { All (λ view. view < length widths.now) views.now }
    requires few { All (λ width. width ≤ 64) widths.now }
    requires views { length views.now ≤ 6 }
    ensures { result ≡ total_width widths.now views.now }
{
    let mut total = 0;
    for view in views {
        total += widths[*view];
    }
    total
}

/// Returns whether these parts make a catalogue. There has to be a width for each base view and a definition for each derived one. Each
/// view needs 1 to 64 columns, and each definition has to be over rows of its view's combined width.
pub(crate) fn fits<F: RowTest, G: RowValue>(
    shape: &Shape,
    widths: &[usize],
    definitions: &[Definition<F, G>],
) -> bool
    ensures { IsTrue result ↔ FitTogether shape.now widths.now definitions.now }
{
    let mut widths = widths.iter();
    let mut definitions = definitions.iter();
    let mut seen = [0; MAX_VIEWS];
    for view in 0..shape.len() {
        let children = shape.children(view);
        let columns = if children.is_empty() {
            let Some(width) = widths.next() else {
                return false;
            };
            *width
        } else {
            let Some(definition) = definitions.next() else {
                return false;
            };
            if definition.width() != total_width(&seen, children) {
                return false;
            }
            definition.columns()
        };
        if columns < 1 || MAX_COLUMNS < columns {
            return false;
        }
        seen[view] = columns;
    }
    widths.len() == 0 && definitions.len() == 0
}

/// A law of the definitions: parts fit together exactly where a catalogue shows them.
pub fn fit_law()
    ensures { FitIsShown }
{}
