//! Nights that are published: what they answer, what they leave, and the tables in the end.

mod alone;
mod beside;
mod gates;
mod journal;
mod published;
mod refusing;
mod run;
mod telling;
mod tested;
mod warehouse;
