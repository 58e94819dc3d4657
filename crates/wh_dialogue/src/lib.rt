//! Talks with a warehouse that stays: lines are read as commands, and each is answered at once.
//!
//! [`talk`] reads lines, answers the commands that they say, and writes the whole text of each answer before it reads on. What an answer is
//! stands in the definitions. Whatever is asked in which order, the machine's replies are those of one legal run, as
//! [`dialogues_are_legal_runs`] says.
#![tactic(auto)]

mod answer;
mod changes;
mod laws;
mod night;
mod page;
mod tables;
mod talking;

pub use laws::dialogues_are_legal_runs;
pub use talking::{TalkEnd, talk};
