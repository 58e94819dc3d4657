//! Gives desks that do not wait: one writer publishes operations, and each desk reads the versions that they make, in a session of one
//! version at a time.
//!
//! All that a desk is answered rests on the published list, of which it sees longer and longer beginnings. Underneath, `left_right` keeps
//! two copies of the store, one to be read and one to be written; no contract speaks of either. Beside each copy stands a [`Told`], a
//! beginning of the one history that only grows. So what one desk has seen can be compared with what another was told.
#![tactic(auto)]

mod askers;
mod asks;
mod chair;
mod desk;
mod history;
mod inner;
mod kept;
mod laws;
mod reader;
mod rule;
mod steps;
mod warehouse;
mod writer;

pub use askers::{Answered, Asker, Watch, answer_each, are_had};
pub use asks::{Answer, Ask};
pub use chair::DeskFault;
pub use desk::Desk;
pub use history::Told;
pub use laws::seen_versions_stay_law;
pub use reader::{Place, Reader};
pub use warehouse::{MAX_DESKS, OpenFault, open_warehouse, open_with_copy};
pub use writer::Writer;
