//! Reads what is given of a night that comes later, over views and texts that were read before.
//!
//! [`read_later_night`] answers the changes and the strategy that the parts of a night say, or their first fault. A night that is not read
//! leaves the texts as they were.
#![tactic(auto)]

mod changes;
mod night;
mod parts;
mod standing;

pub use night::read_later_night;
pub use standing::StandingViews;
