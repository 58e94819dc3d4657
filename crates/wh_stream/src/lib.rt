//! Sources and sinks of bytes: readers and writers whose failed calls are counted. So a contract can say that a failure is told only where
//! there was one.
//!
//! A [`Source`] is read and a [`Sink`] is written to; [`CountedStream`] makes one of a reader or a writer of `std`. A sink also counts its writes
//! that were not flushed.
#![tactic(auto)]

mod count;
mod counted;
mod sink;
mod source;

pub use counted::CountedStream;
pub use sink::Sink;
pub use source::Source;
