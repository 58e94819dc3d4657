//! What the tests of several crates are given: shapes, catalogues and bags, by calls that tell little.
//!
//! The crates of tests stand side by side, so that they are proved at once; what more than one of them is given stands here and is
//! proved once.
#![tactic(auto)]

pub mod catalogs;
pub mod shapes;
pub mod tables;
