//! Reads of a bundle, by one call, what a command works on, or the first fault of the input.
//!
//! The order of the faults is the same for all commands: first that of the headings, from the top; then a part that is missing, the
//! catalogue before the others. Then come the texts' own faults, the catalogue's first.

mod ahead;
mod base;
pub mod certify;
pub mod check;
mod found;
mod given;
pub mod inputs;
pub mod night;
mod parts;
pub mod plan;
pub mod replay;
mod rows;
mod texts;
mod views;
