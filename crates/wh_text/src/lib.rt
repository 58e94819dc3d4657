//! What all texts of the program share: lines, words, names, columns, the dictionary of texts, and what is wrong with an input.
//!
//! Each reader of a text stands in a crate of its own above this one. It answers the value that its text says, or the text's first fault as
//! a [`LoadFault`], whose number and printed line are exact.
#![tactic(auto)]

mod columns;
mod dict;
mod fault;
pub mod line;
mod names;
mod word;

pub use columns::{Column, Kind};
pub use dict::Dict;
pub use fault::{Key, LoadFault};
pub use names::Names;
pub use word::Word;
