//! Holds what a night reports, and why it was refused.

use wh_maint::MaintFault;
use wh_row::Bag;
use wh_strategy::Expression;

/// The version that a night makes, and the rows that each expression reads or changes.
#[derive(Drop)]
pub struct Report {
    /// The number of the new contents; those before the first night have 0.
    pub version: u64,
    /// The expressions in their order, each with its rows: what a Comp reads in all its terms, and what an Inst
    /// changes; 2^128 - 1 stands for more.
    pub steps: Vec<(Expression, u128)>,
}

/// The tables that a night makes, and its report.
#[derive(Drop)]
pub struct Carried {
    /// The new table of each view.
    pub tables: Vec<Bag>,
    /// The report of what each expression did.
    pub report: Report,
}

/// The reason why a night was refused. The tables that it began from are as they were.
#[derive(Drop)]
pub struct CarryFault {
    /// The fault of the part that was refused.
    pub fault: MaintFault,
    /// Whether the first expression had begun: false where a base change is refused, true where an expression is.
    /// Beside a Memory that comes after the base changes it may be either.
    pub started: bool,
}
