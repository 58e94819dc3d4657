//! Reads and writes the texts in CSV: tables, changes and sizes.
//!
//! [`read_table`], [`read_changes`] and [`read_sizes`] read a record at a time; [`write_table`] writes a table. Several small parts are
//! read beside each other by [`read_ahead`], and one after another by [`read_from`].
#![tactic(auto)]

mod chunks;
mod cut;
mod laws;
mod part;
mod records;
mod sizes;
mod table;

pub use chunks::{ChunkedText, LentChunks};
pub use laws::{sizes_end_by_first_law, tables_end_by_first_law};
pub use sizes::{read_sizes, sizes_read_back_law};
pub use table::{
    Content, RowsAhead, changes_read_back_law, read_ahead, read_changes, read_from, read_table,
    table_reads_back_law, write_table,
};
