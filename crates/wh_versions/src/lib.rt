//! Keeps the rows of one view, each with its counts in the last versions, so that sessions read while a night writes.
#![tactic(auto)]

mod laws;
mod row;
mod shown;
mod table;
mod writing;

pub use laws::{
    added_unseen_law, begun_shown_law, dropped_law, given_up_law, given_up_shown_law, puts_law,
    puts_shown_law, tables_count_law, tables_written_law, unread_law,
};
pub use row::VersionRow;
pub use table::VersionTable;

#[cfg(test)]
mod tests;
