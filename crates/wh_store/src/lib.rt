//! Keeps the versions of a warehouse: what sessions read while a night writes the next one. It also says what is asked of whatever keeps
//! the published list of a warehouse.
//!
//! A [`Store`] holds the rows of all views, each with what it counts in the last versions. It changes by one [`Op`] at a time, and what it
//! shows is what the list of all operations so far makes of its opening tables. A night publishes through [`Publish`].
#![tactic(auto)]

mod ended;
mod fault;
mod held;
mod laws;
mod operation;
mod page;
mod publish;
mod publish_fault;
mod refused_ends;
mod slots;
mod store;
mod tables;

pub use ended::Ended;
pub use fault::StoreFault;
pub use laws::{
    counts_given_law, pages_join_law, tables_stay_law, told_law, versions_stay_law,
    well_formed_goes_on_law, well_formed_law, window_law,
};
pub use operation::{MAX_KEYS, Op};
pub use page::Page;
pub use publish::Publish;
pub use publish_fault::PublishFault;
pub use refused_ends::RefusedEnds;
pub use slots::Slots;
pub use store::{MAX_VERSIONS, MIN_VERSIONS, Store};
