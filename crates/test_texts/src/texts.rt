//! The texts that are read and written: tables of texts, each with what it says or its first fault, worked out by hand
//! from the formats.

mod beside;
mod bundles;
mod cases;
mod catalogues;
mod cuts;
mod definitions;
mod faults;
mod formulas;
mod large;
mod plans;
mod reading;
mod replays;
mod schedules;
mod sizes;
mod strategies;
mod tables;
