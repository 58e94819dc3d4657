//! Laws of every correct strategy, which proofs call: the functions do nothing.

ghost use Rattle.wh_carry.specs.AnyOrder.{WavesHaveNoOrder};
ghost use Rattle.wh_carry.specs.Stages.{ListsHaveOneStages, WavesAreSideBySide};
ghost use Rattle.wh_carry.specs.NightLaws.{NewCountsMakeTables, NightListsEndInContents, NightListsWriteTables};
ghost use Rattle.wh_carry.specs.Laws.{ContentsAreFitForNights, NewContentsHaveValues, NewRowsAreFew, PassedHaveValues, RefusalsAreOne, StepsAreSummands, StrategiesEndInContents, StrategiesEndInViews};

/// A law of the definitions: every correct strategy, one-way or not, ends in the contents of the base with its changes, and that base has
/// contents. It is so where the strategy is carried out from the contents of a base, with a value at each expression.
pub fn strategies_end_in_contents()
    ensures { StrategiesEndInContents }
{}

/// A law of the definitions: from tables that the derived views make of their children's, every correct strategy ends in such tables over
/// the base with its changes. It does not matter whether all rows have values there.
pub fn strategies_end_in_views()
    ensures { StrategiesEndInViews }
{}

/// A law of the definitions: what the views make of base tables, as the contents of a base, is fit for every correct strategy and all
/// changes.
pub fn contents_are_fit_for_nights()
    ensures { ContentsAreFitForNights }
{}

/// A law of the definitions: an expression that is passed has a value.
pub fn passed_expressions_have_values()
    ensures { PassedHaveValues }
{}

/// A law of the definitions: from whatever tables a correct strategy is carried out, what each expression reads or writes is its part of
/// the work at the true sizes.
pub fn steps_are_summands()
    ensures { StepsAreSummands }
{}

/// A law of the definitions: memory aside, a night is refused for one reason at most. It is refused for none where each base change is
/// allowed and each expression is passed.
pub fn refusals_are_one()
    ensures { RefusalsAreOne }
{}

/// A law of the definitions: from the contents of a base, a night that has a value at each expression ends in contents whose views have
/// values.
pub fn new_contents_have_values()
    ensures { NewContentsHaveValues }
{}

/// A law of the definitions: from tables whose derived views have few combined rows, a night in which each expression is passed ends in
/// such tables.
pub fn new_rows_are_few()
    ensures { NewRowsAreFew }
{}

/// A law of the definitions: Comps that stand side by side in a correct list are of different views, and may be carried out in any order.
/// They stand so where none of them is from a view that one of them computes. When some of them are done, each other one adds what it adds
/// before them all. It is refused for the reasons that it has there.
pub fn waves_have_no_order()
    ensures { WavesHaveNoOrder }
{}

/// A law of the definitions: the stages of a list, joined, are the list. Each wave has a job, none is from a view that an earlier one of
/// its wave computes, and waves are as long as can be. No other stages are so.
pub fn lists_have_one_stages()
    ensures { ListsHaveOneStages }
{}

/// A law of the definitions: in a correct list the jobs of a wave stand side by side: none is from a view that a job of the wave computes.
pub fn waves_are_side_by_side()
    ensures { WavesAreSideBySide }
{}

/// A law of the definitions: the pages of a change's new counts, written over its table, make the table with the change. Each page may be
/// written by one operation where the new table counts no row below zero.
pub fn new_counts_make_tables()
    ensures { NewCountsMakeTables }
{}

/// A law of the definitions: what a night publishes up to a place of a correct list writes the tables that carrying out makes up to there.
pub fn night_lists_write_tables()
    ensures { NightListsWriteTables }
{}

/// A law of the definitions: a whole night list, written over the contents of a base, makes one version more: the contents of the changed
/// base. Each of its operations may come where it stands.
pub fn night_lists_end_in_contents()
    ensures { NightListsEndInContents }
{}
