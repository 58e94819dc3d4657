//! Holds what commands work on, as it was read.

ghost use Rattle.std.specs.Prelude.{◌≡◌, length};

use wh_dag::Shape;
use wh_row::Bag;
use wh_strategy::{Sizes, Strategy};
use wh_text::Dict;
use wh_text_catalogue::WrittenView;
use wh_text_lines::{Plan, Schedule};

/// Views and their sizes, for which a strategy is planned.
#[derive(Drop)]
pub struct MeasuredViews {
    /// The shape of the views.
    pub shape: Shape,
    /// The sizes, in the order of the views.
    pub sizes: Sizes,
    pub ghost sized: { length sizes ≡ length shape.children },
}

/// A strategy, and the views and sizes that it is checked over.
#[derive(Drop)]
pub struct CheckInput {
    /// The views and their sizes.
    pub measured: MeasuredViews,
    /// The strategy, of which nothing is known but its form.
    pub strategy: Strategy,
}

/// A plan, and the views and sizes that it is for.
#[derive(Drop)]
pub struct CertifyInput {
    /// The views and their sizes.
    pub measured: MeasuredViews,
    /// The plan, of which nothing is known but its form.
    pub plan: Plan,
}

/// The views, tables and texts that nights begin from.
#[derive(Drop)]
pub struct Opening {
    /// The views, in the order of their numbers.
    pub views: Vec<WrittenView>,
    /// The texts that cells stand for, in formulas, tables and the changes of all nights.
    pub texts: Dict,
    /// A table for each view: of a base view as it was read, of a derived view without rows.
    pub tables: Vec<Bag>,
}

/// The changes and the strategy of one night.
#[derive(Drop)]
pub struct GivenNight {
    /// The changes of each view: of a base view as they were read, of a derived view none.
    pub changes: Vec<Bag>,
    /// The strategy, of which nothing is known but its form.
    pub strategy: Strategy,
}

/// One night: what it begins from, and what is given of it.
#[derive(Drop)]
pub struct NightInput {
    /// The shape of the views.
    pub shape: Shape,
    /// The views, tables and texts that the night begins from.
    pub opening: Opening,
    /// The night's changes and strategy.
    pub given: GivenNight,
}

/// Nights one after another, and the events in which they are carried out.
#[derive(Drop)]
pub struct ReplayInput {
    /// The shape of the views.
    pub shape: Shape,
    /// The views, tables and texts that the first night begins from.
    pub opening: Opening,
    /// The changes and the strategy of each night, in order.
    pub nights: Vec<GivenNight>,
    /// The machine's size and the events.
    pub schedule: Schedule,
}
