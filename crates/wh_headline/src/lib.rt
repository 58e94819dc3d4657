//! States what the whole comes to: a warehouse's events from the first to the last, by one call, and what desks beside running nights
//! answer.
#![tactic(auto)]

mod beside;
mod desks;
mod events;
mod runs;

pub use beside::night_with_readers;
pub use desks::{
    beginnings_are_running_nights, desks_answer_as_the_machine,
    desks_beside_nights_answer_as_the_machine, desks_that_lag_answer_as_the_machine, nights_go_on,
    running_nights_have_a_log, told_pages_are_of_contents,
};
pub use events::carry_out;
pub use runs::{all_in_one_run, calls_are_events, logs_grow, one_run_goes_on, rounds_are_calls};
