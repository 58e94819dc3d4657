//! Runs a night: carries a strategy out over whatever publishes, wave by wave, alone or beside readers.
//!
//! [`night`] publishes the night list of a correct strategy, operation by operation, from the tables of the current version; readers go
//! on meanwhile. A night that is refused once it has begun is given up. [`serve_night`] opens a warehouse, and runs a night in it
//! while readers go through the tables of before.
#![tactic(auto)]

mod alone;
mod beside;
mod cause;
mod gate;
mod insts;
mod laws;
mod left;
mod means;
mod opening;
mod outlet;
mod pages;
mod readers;
mod running;
mod serving;
mod stages;
mod tested;
mod watch;
mod waves;

pub use alone::night_alone;
pub use beside::{Beside, night_beside};
pub use cause::NightCause;
pub use gate::{Gate, NoGate};
pub use laws::nights_have_one_refusal;
pub use left::{Aftermath, NightFault};
pub use means::NightRequest;
pub use opening::current_tables;
pub use running::{night, night_from};
pub use serving::{Served, serve_night};
pub use tested::{are_fit_for, can_run_wave};
pub use watch::NoWatch;
pub use waves::run_wave;
pub use wh_desk::Watch;
