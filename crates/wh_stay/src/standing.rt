//! Holds a warehouse that stays.

ghost use Rattle.std.specs.Prelude.{◌≡◌, length};

use wh_core::Core;
use wh_formula::{RowTest, RowValue};
use wh_load::{Dict, Names, WrittenView};

/// What the parts of later nights are read over, beside the names of the views.
#[derive(Drop)]
pub struct StandingTexts {
    /// The views, in the order of their numbers.
    pub views: Vec<WrittenView>,
    /// The texts that cells stand for.
    pub texts: Dict,
    /// The text of the strategy of nights that write none of their own, if there is one.
    pub strategy: Option<Vec<u8>>,
}

/// What the parts of later nights are read over.
#[derive(Drop)]
pub(crate) struct Standing {
    pub(crate) names: Names,
    pub(crate) views: Vec<WrittenView>,
    pub(crate) texts: Dict,
    pub(crate) strategy: Option<Vec<u8>>,
    pub(crate) ghost each: { length views.items ≡ length names },
}

/// A warehouse that stays: its machine, and what the parts of later nights are read over.
#[derive(Drop)]
pub struct Live<F: RowTest, G: RowValue> {
    pub(crate) core: Core<F, G>,
    pub(crate) standing: Standing,
}
