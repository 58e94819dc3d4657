//! Keeps a warehouse that stays: nights come one after another, as they are written, and desks read between them.
//!
//! A [`Live`] is begun from the contents of a base. It begins a night from the bytes of its parts, carries it on event by event, and answers
//! the events of desks and of a night's end. Whatever is asked of it in which order, its replies are those of one legal run, as
//! [`lives_are_legal_runs`] says.
#![tactic(auto)]

mod laws;
mod live;
mod page;
mod reading;
mod standing;
mod told;

pub use laws::lives_are_legal_runs;
pub use standing::{Live, StandingTexts};
pub use told::NightTold;
