//! The machine over events: the worked schedules with their replies, and the course of one night.

mod changes;
mod course;
mod given;
mod schedules;
mod worked;
