//! Shapes, catalogues, strategies, certificates and plans by public calls, with values from outside.

mod catalogues;
mod certificates;
mod given;
mod least;
mod searched;
pub(crate) mod shapes;
mod strategies;
