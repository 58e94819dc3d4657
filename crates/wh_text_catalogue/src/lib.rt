//! Reads the text of a catalogue: the shape of its views, and their definitions.
//!
//! [`read_shape`] reads which views there are and which each is over. [`read_definitions`] reads the columns of each view and how the
//! derived ones are made.
#![tactic(auto)]

mod catalogue;
mod definitions;
mod laws;
mod name_form;

pub use catalogue::read_shape;
pub use definitions::output::WrittenOutput;
pub use definitions::views::{Written, WrittenDefinition, WrittenView};
pub use definitions::written_law::{
    bases_read_back_law, catalogues_read_back_law, exprs_read_back_law, filters_read_back_law,
    joins_read_back_law, outputs_read_back_law, preds_read_back_law, rows_are_references_law,
    views_read_back_law,
};
pub use definitions::{definitions_fit_law, read_definitions};
pub use laws::{definitions_end_by_first_law, shapes_end_by_first_law};
