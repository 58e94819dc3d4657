//! Shapes of warehouses, the views by name and which views each is over, and catalogues, which define each view.
//!
//! A view is its number, counted from 0, and it is over views of lower numbers only, so no view is over itself. `Shape::new` reads a shape
//! as it is written, by names, or names its first fault. A `Catalog` has for each derived view a `Definition` over its combined rows: a row
//! of each child, one after another.
#![tactic(auto)]

mod catalog;
mod child_lists;
mod dealt;
mod definition;
mod fault;
mod fitting;
mod kinds;
mod level;
mod limits;
mod name;
mod output;
mod parents;
mod shape;
mod siblings;
mod views;
mod well_formed;
mod written;

pub use catalog::Catalog;
pub use child_lists::ChildLists;
pub use definition::Definition;
pub use fault::ShapeFault;
pub use fitting::fit_law;
pub use limits::{MAX_COLUMNS, MAX_VIEWS, half_power};
pub use name::Name;
pub use output::Output;
pub use shape::Shape;
pub use siblings::{Couple, SiblingPair, few_couples_law};
pub use views::has_view;
pub use well_formed::well_formed_law;
