//! Holds what nights of a warehouse that stays begin from.

use wh_dag::Shape;
use wh_load::Opening;

/// What nights of a warehouse that stays begin from.
#[derive(Drop)]
pub struct OpeningInput {
    /// The shape of the views.
    pub shape: Shape,
    /// The views, tables and texts that the first night begins from.
    pub opening: Opening,
    /// The text of the strategy of nights that write none of their own, if there is one. It was read, and has no fault.
    pub strategy: Option<Vec<u8>>,
}
