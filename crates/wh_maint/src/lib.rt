//! Views of tables, and what changes of the tables change in them.
//!
//! A view's value is made of the combined rows of its children's tables; a Comp adds what changes of some children
//! make different ([`comp`]), and a [`Pending`] keeps it. [`finish`] makes the view's change of that, and [`install`]
//! adds it. [`opening_contents`] works all views out from scratch. What this rests on are laws: functions that do nothing, on whose contracts a proof calls.
#![tactic(auto)]

mod alone;
mod asked;
mod base_change;
mod beside;
mod both_sums;
mod column;
mod combined;
mod comps;
mod evaluated;
mod fault;
mod finished;
mod group_change;
mod installed;
mod laws;
mod opening;
mod pending;
mod run;
mod size;
mod taken;
mod term;
mod wants;

pub use asked::{are_bags, are_sources, is_fit};
pub use base_change::changed;
pub use comps::{comp, comp_wide};
pub use evaluated::{evaluate, evaluate_wide};
pub use fault::{MaintFault, NamedRow};
pub use finished::finish;
pub use installed::install;
pub use laws::{
    adding_stays_within, catalogs_are_graphs, changes_are_differences, changes_are_whole,
    changes_go_by_groups, changes_have_width, columns_have_width, comps_are_differences,
    comps_in_any_order, contents_are_fit, contents_are_one, contents_are_told_by_values,
    contents_are_unique, contents_are_values, fit_is_told_by_rows, folds_add_up,
    groups_stand_together, met_rows_count, new_rows_have_values, new_sums_fit, products_are_linear,
    sizes_multiply, summaries_show_accumulators, tables_have_width, terms_are_within,
    terms_give_values, terms_meet_old_or_new_rows, values_are_fit,
};
pub use opening::opening_contents;
pub use pending::Pending;
pub use size::operand_rows;
pub use wants::Wants;
