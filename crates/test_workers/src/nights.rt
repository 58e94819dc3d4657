//! Nights by several workers.

mod meeting;
mod refused;
mod workers;
