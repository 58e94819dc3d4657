//! Certificates by search by public calls, with verdicts from outside.

mod given;
mod limits;
mod texts;
mod verdicts;
