//! Does what the program `whview` does. It judges strategies of a warehouse's night, plans one of least work, judges the certificates of
//! plans, carries a night out, replays nights event by event, and keeps a warehouse that answers commands.
//!
//! [`run`] is the whole program over a source and a sink. Its words ask for a command, the source has a bundle, and what is written is the
//! command's answer, built whole. Where a warehouse is kept the source has its commands, and each is answered as it comes. [`run_watched`]
//! also tells a watch of a night's workers and readers. What stands above it, `whview_main`, hands it the words of the command line,
//! standard input and standard output, as [`CountedStream`] makes a source and a sink of them.
#![tactic(auto)]

mod answer;
mod budget;
mod catalogue;
mod certify;
mod check;
mod command_line;
mod data_input;
mod files;
mod laws;
mod live;
mod live_options;
mod night;
mod night_options;
mod plan;
mod program;
mod replay;
mod status;
mod tell;
mod words;

pub use laws::{
    a_printed_plan_is_certified, one_answer_law, taken_words_are_of_the_table,
    words_of_the_table_are_taken,
};
pub use program::{run, run_watched};
pub use tell::{want_of_memory, words_without_text};
pub use wh_night::{Gate, Watch};
pub use wh_stream::{CountedStream, Sink, Source};
