//! The texts of strategies, plans and schedules, whose lines are words.
//!
//! [`read_strategy`], [`read_plan`] and [`read_schedule`] read them over the names of views, [`write_strategy`] and [`write_plan`] write
//! the first two. [`words_of`] and [`event_of`] read a line by itself, where lines come one after another.
#![tactic(auto)]

mod expression;
mod lines;
mod natural;
mod plan;
mod schedule;
mod strategy;
mod words;

pub use expression::write_expression;
pub use lines::line_grammar_law;
pub use plan::{
    Plan, plan_grammar_law, plan_reads_back_law, read_plan, tree_lines_law, write_plan,
};
pub use schedule::event::{ScheduledEvent, event_of};
pub use schedule::{Schedule, read_schedule, schedule_grammar_law};
pub use strategy::{read_strategy, reads_back_law, strategy_grammar_law, write_strategy};
pub use words::words_of;
