//! Reads all input texts of the program, and writes its output texts: text to value or first fault, and value to text.
//!
//! [`read_all`] reads the bytes of an input, and [`parts`] cuts them into the parts of a bundle, which lends them. Each part has a reader:
//! [`read_shape`] and [`read_definitions`], [`read_strategy`], [`read_sizes`]. A reader answers the value that its text says, or the text's
//! first fault as a [`LoadFault`], whose number and printed line are exact.
//!
//! The readers and writers stand in crates below, which know nothing of one another.
#![tactic(auto)]

mod reading;

pub use reading::certify::read_for_certify;
pub use reading::check::read_for_check;
pub use reading::inputs::{
    CertifyInput, CheckInput, GivenNight, MeasuredViews, NightInput, Opening, ReplayInput,
};
pub use reading::night::read_for_night;
pub use reading::plan::read_for_plan;
pub use reading::replay::read_for_replay;
pub use wh_text::{Column, Dict, Key, Kind, LoadFault, Names, Word};
pub use wh_text_bundle::{
    Bundle, Heading, InputSlice, Nights, Part, PartFault, ReadFault, Scope, parts, read_all,
};
pub use wh_text_catalogue::{
    Written, WrittenDefinition, WrittenOutput, WrittenView, bases_read_back_law,
    catalogues_read_back_law, definitions_fit_law, exprs_read_back_law, filters_read_back_law,
    joins_read_back_law, outputs_read_back_law, preds_read_back_law, read_definitions, read_shape,
    rows_are_references_law, views_read_back_law,
};
pub use wh_text_lines::{
    Plan, Schedule, ScheduledEvent, line_grammar_law, plan_grammar_law, plan_reads_back_law,
    read_plan, read_schedule, read_strategy, reads_back_law, schedule_grammar_law,
    strategy_grammar_law, tree_lines_law, write_expression, write_plan, write_strategy,
};
pub use wh_text_tables::{
    ChunkedText, Content, LentChunks, RowsAhead, changes_read_back_law, read_ahead, read_changes,
    read_from, read_sizes, read_table, table_reads_back_law, write_table,
};
