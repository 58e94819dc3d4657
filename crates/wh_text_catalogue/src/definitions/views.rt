//! Holds the views of a catalogue as they are written.
use super::output::WrittenOutput;
use wh_formula::Pred;
use wh_text::Column;

/// The way in which a derived view is made of combined rows: a row of each view that it is over, side by side. Places count from 0.
#[derive(Drop)]
pub struct WrittenDefinition {
    /// The number of cells of a combined row.
    pub width: usize,
    /// The pairs of places whose cells are equal.
    pub join: Vec<(usize, usize)>,
    /// The predicate that the combined rows meet.
    pub filter: Pred,
    /// The source of the view's columns.
    pub output: WrittenOutput,
}

/// A view's columns, and how it is defined.
#[derive(Drop)]
pub struct WrittenView {
    /// The columns, in their order.
    pub columns: Vec<Column>,
    /// The definition; a base view has none.
    pub definition: Option<WrittenDefinition>,
}

/// The columns and definitions of a catalogue's views, in the order of their numbers.
#[derive(Drop)]
pub struct Written {
    /// The views, in the order of their numbers.
    pub views: Vec<WrittenView>,
}
