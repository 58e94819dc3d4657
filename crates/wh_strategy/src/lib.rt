//! Strategies of a night: the rules that a correct one keeps, and its work.
//!
//! A [`Strategy`] is a list of [`Expression`]s: `Comp(V, Y)` computes changes of V from the changes of the views in Y, and `Inst(V)`
//! installs V's changes. [`check`] judges a list by the rules S1 to S6 and makes a [`Correct`], whose type keeps them: there is no other
//! way to one. [`work`] is what a correct list costs at given [`Sizes`] and [`Costs`].
#![tactic(auto)]

mod correct;
mod costs;
mod earlier;
mod expression;
mod prefix;
mod rule;
mod sizes;
mod terms;

pub use correct::{CheckFault, Correct, check, rules_agree};
pub use costs::Costs;
pub use expression::{Expression, Sources, Strategy};
pub use rule::Rule;
pub use sizes::{MAX_ROWS, MAX_WEIGHT, OutOfRange, Size, SizeRow, Sizes};
pub use terms::work;
