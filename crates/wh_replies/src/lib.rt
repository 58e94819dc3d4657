//! The events that a machine is asked, as they are written, and the lines that are printed of its replies.
//!
//! [`event_of`] takes an event of a schedule to the machine's. [`append_reply_line`] and [`replies_text`] print what the machine replied.
#![tactic(auto)]

mod event;
mod reply;

pub use event::event_of;
pub use reply::{append_reply_line, replies_text};
