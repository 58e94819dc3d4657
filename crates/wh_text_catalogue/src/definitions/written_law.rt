//! Laws of what the formulas of a catalogue mean, which proofs call: what is written is read back, and what is read is so written.
ghost use Rattle.wh_text_catalogue.specs.WrittenCatalogue.{BasesReadBack, CataloguesReadBack, ReadBasesAreWritten, ReadCataloguesAreWritten};
ghost use Rattle.wh_text_catalogue.specs.WrittenHeader.{ColumnsStandInRows, ReadShapesAreNamed, RowsAreReferences};
ghost use Rattle.wh_text_catalogue.specs.WrittenLaws.{ExprsReadBack, PredsReadBack, ReadExprsAreWritten, ReadPredsAreWritten};
ghost use Rattle.wh_text_catalogue.specs.WrittenOutput.{OutputsReadBack, ReadOutputsAreWritten};
ghost use Rattle.wh_text_catalogue.specs.WrittenView.{FiltersReadBack, JoinsReadBack, ReadFiltersAreWritten, ReadJoinsAreWritten, ReadViewsAreWritten, ViewsReadBack};

/// A law of the definitions: in a combined row a child's columns stand behind those of the children before it, each at its own place. Each
/// stands under its reference: the child's name, a dot and the column's name. No reference stands twice where the shape's views have
/// distinct names, and so have each view's columns. A shape that is read is such a shape, and what is read has such columns
/// ([`crate::definitions_fit_law`]). So the laws below, which ask for distinct references, speak of each view of a catalogue that is read.
pub fn rows_are_references_law()
    ensures places { ColumnsStandInRows }
    ensures rows { RowsAreReferences }
    ensures read { ReadShapesAreNamed }
{}

/// A law of the definitions: an expression that is written as the format says is read as that expression, and what is read as an expression
/// is so written. The left side comes first, and `+`, `-` or `*` stands before the two. A column stands as its reference, and a text in a
/// table of the key `text`.
/// It asks for columns with distinct references, texts of which none stands twice, and at most [`wh_formula::MAX_DEPTH`] levels.
pub fn exprs_read_back_law()
    ensures back { ExprsReadBack }
    ensures written { ReadExprsAreWritten }
{}

/// A law of the definitions: a predicate that is written as the format says is read as that predicate, and what is read as a predicate is
/// so written. It is `true`; or a comparison's sign before its two sides, the left one first; or `all`, `any` or `not` before its parts.
/// It asks for columns with distinct references, texts of which none stands twice, and at most [`wh_formula::MAX_DEPTH`] levels.
pub fn preds_read_back_law()
    ensures back { PredsReadBack }
    ensures written { ReadPredsAreWritten }
{}

/// A law of the definitions: places that are equal in a joined row, written as pairs of references of one kind, are read as these places in
/// their order. The pairs stand in an array. Where there are none, the array may be left out. What is read is so written.
/// It asks for columns with distinct references.
pub fn joins_read_back_law()
    ensures back { JoinsReadBack }
    ensures written { ReadJoinsAreWritten }
{}

/// A law of the definitions: a predicate at the key `where` is read as it was written, and a missing key as the predicate that every row
/// meets. What is read is so written.
/// It asks for columns with distinct references, texts of which none stands twice, and at most [`wh_formula::MAX_DEPTH`] levels.
pub fn filters_read_back_law()
    ensures back { FiltersReadBack }
    ensures written { ReadFiltersAreWritten }
{}

/// A law of the definitions: the columns of a derived view, written as the format says, are read as these columns and what they are made
/// of. What is read is so written. A joined view has `keep`, pairs of a column's name and its expression, and no `group`. A summary has no
/// `keep`, but `group`, pairs of a name and a reference, and `count`, a name. Where it has sums, it has `sum`, pairs of a name and an
/// expression of whole numbers. All stand in the order of the columns.
/// It asks for columns with distinct references, texts of which none stands twice, at most [`wh_formula::MAX_DEPTH`] levels, and 1 to 64
/// columns of distinct names.
pub fn outputs_read_back_law()
    ensures back { OutputsReadBack }
    ensures written { ReadOutputsAreWritten }
{}

/// A law of the definitions: a derived view that is written as the format says, by its keys `join`, `where` and those of its columns, is
/// read as that view. Its texts are numbered first in `where` and then in `keep`, from left to right. What is read is so written.
/// It asks for what [`outputs_read_back_law`] asks for.
pub fn views_read_back_law()
    ensures back { ViewsReadBack }
    ensures written { ReadViewsAreWritten }
{}

/// A law of the definitions: a base view that is written as the format says is read as that view, and what is read is so written. Its
/// `columns` are texts of a name, a colon and `int` or `text`, or of a name alone for whole numbers.
/// It asks for 1 to 64 columns of distinct names.
pub fn bases_read_back_law()
    ensures back { BasesReadBack }
    ensures written { ReadBasesAreWritten }
{}

/// A law of the definitions: views that the entries of a catalogue's text write one after another over its shape are read as these views.
/// Their texts are numbered view by view. Each derived view is written over the columns of its children. What is read is so written.
/// It asks for what [`bases_read_back_law`] and [`views_read_back_law`] ask of each view, but not for distinct references, which each
/// combined row has ([`rows_are_references_law`]).
pub fn catalogues_read_back_law()
    ensures back { CataloguesReadBack }
    ensures written { ReadCataloguesAreWritten }
{}
