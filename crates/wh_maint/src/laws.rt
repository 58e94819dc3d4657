//! Laws of all views, tables and changes, which proofs call: the functions do nothing.

ghost use Rattle.wh_maint.specs.Bounds.{AddingStaysWithin, SizesMultiply, TermsAreWithin};
ghost use Rattle.wh_maint.specs.Contents.{CatalogsAreGraphs, ContentsAreFit, ContentsAreOne, ContentsAreToldByValues, ContentsAreUnique, ContentsAreValues};
ghost use Rattle.wh_maint.specs.Laws.{CompsAreDifferences, CompsInAnyOrder, FoldsAddUp, ProductsAreLinear};
ghost use Rattle.wh_maint.specs.MetRows.{MetRowsCount, NewRowsHaveValues, NewSumsFit, TermsGiveValues, TermsMeetOldOrNewRows};
ghost use Rattle.wh_maint.specs.SummaryLaws.{ChangesAreDifferences, ChangesAreWhole, ChangesGoByGroups, FitIsToldByRows, GroupsStandTogether, SummariesShowAccumulators, ValuesAreFit};
ghost use Rattle.wh_maint.specs.Width.{ChangesHaveWidth, ColumnsHaveWidth, TablesHaveWidth};

/// A law of the definitions: a product is linear in each table.
pub fn products_are_linear()
    ensures { ProductsAreLinear }
{}

/// A law of the definitions: the fold of a sum is the sum of the folds.
pub fn folds_add_up()
    ensures { FoldsAddUp }
{}

/// A law of the definitions: a Comp adds what the changes of its sources make different, all terms together.
pub fn comps_are_differences()
    ensures { CompsAreDifferences }
{}

/// A law of the definitions: Comps of a view that have each child once, in whatever lists and order, add up to what its value gains.
pub fn comps_in_any_order()
    ensures { CompsInAnyOrder }
{}

/// A law of the definitions: a summary's table is fit exactly where it is what its own rows tell.
pub fn fit_is_told_by_rows()
    ensures { FitIsToldByRows }
{}

/// A law of the definitions: the table that accumulators show is fit and tells them, where no group counts below 0 and none of count 0 has
/// sums.
pub fn summaries_show_accumulators()
    ensures { SummariesShowAccumulators }
{}

/// A law of the definitions: the value of a view over tables is a fit table.
pub fn values_are_fit()
    ensures { ValuesAreFit }
{}

/// A law of the definitions: a fit table of a summary, with its change, is the table of the new accumulators.
pub fn changes_are_whole()
    ensures { ChangesAreWhole }
{}

/// A law of the definitions: the change of a view whose accumulators gain their differences is the difference of its values.
pub fn changes_are_differences()
    ensures { ChangesAreDifferences }
{}

/// A law of the definitions: the change of a summary may be made group by group.
pub fn changes_go_by_groups()
    ensures { ChangesGoByGroups }
{}

/// A law of the definitions: the rows of one group stand together in the order of rows.
pub fn groups_stand_together()
    ensures { GroupsStandTogether }
{}

/// A law of the definitions: over tables a view has its values exactly where each combined row that is met has its own.
pub fn met_rows_count()
    ensures { MetRowsCount }
{}

/// A law of the definitions: a Comp meets combined rows of old and new rows alone.
pub fn terms_meet_old_or_new_rows()
    ensures { TermsMeetOldOrNewRows }
{}

/// A law of the definitions: a Comp has its values where each of its terms has its own.
pub fn terms_give_values()
    ensures { TermsGiveValues }
{}

/// A law of the definitions: where the old combined rows and those of a Comp have their values, the new combined rows have theirs.
pub fn new_rows_have_values()
    ensures { NewRowsHaveValues }
{}

/// A law of the definitions: where the old sums fit, and the new sums of touched groups fit, all new sums fit.
pub fn new_sums_fit()
    ensures { NewSumsFit }
{}

/// A law of the definitions: the sizes of the lists of a product multiply.
pub fn sizes_multiply()
    ensures { SizesMultiply }
{}

/// A law of the definitions: all terms of a Comp are within the product of its states and changes together.
pub fn terms_are_within()
    ensures { TermsAreWithin }
{}

/// A law of the definitions: adding to a bag raises no count by more than is added.
pub fn adding_stays_within()
    ensures { AddingStaysWithin }
{}

/// A law of the definitions: what is worked out of a base has the base's own tables, and for each derived view what this makes of its
/// children's tables.
pub fn contents_are_values()
    ensures { ContentsAreValues }
{}

/// A law of the definitions: only the tables that are worked out of a base have its own tables and, for each derived view, what this makes
/// of its children's.
pub fn contents_are_unique()
    ensures { ContentsAreUnique }
{}

/// A law of the definitions: tables are what is worked out of their own base tables exactly where each derived view's is made of its
/// children's.
pub fn contents_are_told_by_values()
    ensures { ContentsAreToldByValues }
{}

/// A law of the definitions: a base has contents once at most, and these are what is worked out of it.
pub fn contents_are_one()
    ensures { ContentsAreOne }
{}

/// A law of the definitions: what views make of base tables is fit.
pub fn contents_are_fit()
    ensures { ContentsAreFit }
{}

/// A law of the definitions: each catalogue's views are over views of lower numbers, and its base views are kept as joined views are.
pub fn catalogs_are_graphs()
    ensures { CatalogsAreGraphs }
{}

/// A law of the definitions: each row of a view's columns has as many cells as are kept, or as a group has.
pub fn columns_have_width()
    ensures { ColumnsHaveWidth }
{}

/// A law of the definitions: the table that accumulators show has the view's columns, where each accumulator has as many cells as are kept
/// or as a group has.
pub fn tables_have_width()
    ensures { TablesHaveWidth }
{}

/// A law of the definitions: the change of a table with the view's columns has these columns too.
pub fn changes_have_width()
    ensures { ChangesHaveWidth }
{}
