//! The commands of a warehouse that stays: lines that come as they are written.
//!
//! [`Lines`] takes one line after another and answers each [`Command`] once its last line is there. What lines say stands in
//! [`command_grammar_law`].
#![tactic(auto)]

mod block;
mod command;
mod line_reader;
mod request;

pub use command::{Command, Lines, command_grammar_law};
pub use line_reader::{LineFault, LineReader, first_lines_law};
pub use request::{Request, request_of};
