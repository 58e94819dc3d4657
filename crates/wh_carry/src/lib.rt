//! Carries out nights: strategies on tables.
//!
//! [`carry`] carries out any correct strategy on one thread. From the contents of a base it ends in the contents of the new base, in which
//! each view has a value; this is a law of all correct strategies. A caller with an order of its own goes by [`waves`], the stages of a
//! strategy, and keeps what is done in a [`NightState`].
//!
//! [`course_of`] carries the night out, expression by expression, as a machine over events goes through it, and says of each part what
//! becomes of it. Of each job of a wave it says why the job is refused, if it is, and of an Inst the pages of new counts that it puts. It
//! takes the tables, and gives back those that the night ends with.
#![tactic(auto)]

mod carrying;
mod course;
mod fit;
mod inst;
mod laws;
mod report;
mod stages;
mod state;
mod wave;

pub use carrying::{base_changes, carry};
pub use course::{Course, Part, course_of};
pub use fit::are_fit;
pub use laws::{
    contents_are_fit_for_nights, lists_have_one_stages, new_contents_have_values,
    new_counts_make_tables, new_rows_are_few, night_lists_end_in_contents,
    night_lists_write_tables, passed_expressions_have_values, refusals_are_one, steps_are_summands,
    strategies_end_in_contents, strategies_end_in_views, waves_are_side_by_side,
    waves_have_no_order,
};
pub use report::{Carried, CarryFault, Report};
pub use stages::{Job, Jobs, Stage, waves};
pub use state::NightState;
