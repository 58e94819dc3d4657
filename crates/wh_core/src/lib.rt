//! Answers, as a machine over events, the nights, workers and readers of a warehouse in one list of events.
//!
//! An [`Event`] is answered by one [`Reply`], and a refused one changes nothing. What a legal run is, whatever the order in which the steps
//! of workers, readers and the writer follow one another, stands in the definitions. What follows of it stands in the laws.
#![tactic(auto)]

mod change;
mod event;
mod laws;
mod machine;
mod options;
mod page;
mod reply;
mod session;
mod sizes;
mod warehouse;

pub use event::Event;
pub use laws::{
    commits_make_contents, jobs_are_drawn_once, nights_come_later, pages_show_rows,
    published_are_nights, published_are_well_formed, refusals_are_told_in_turn, replies_are_one,
    runs_come_true, runs_go_on, runs_leave_legal_logs, sessions_read_tables, versions_are_contents,
    workers_do_their_jobs,
};
pub use options::MachineOptions;
pub use reply::{Cause, Reply};
pub use warehouse::Core;
