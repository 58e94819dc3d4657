//! Reads the opening of a warehouse that stays: its catalogue, the tables of its base views, and the strategy of nights that write none.
//!
//! [`read_opening`] answers what the nights begin from, or the first fault of the bytes.
#![tactic(auto)]

mod input;
mod opened;
mod opening;
mod parts;
mod strategy;
mod tables;

pub use input::OpeningInput;
pub use opening::read_opening;
