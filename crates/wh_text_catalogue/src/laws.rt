//! Laws of which fault of a catalogue is told, which proofs call.
ghost use Rattle.wh_text_catalogue.specs.CatalogueFaults.{ShapesEndByFirst};
ghost use Rattle.wh_text_catalogue.specs.ViewFaults.{DefinitionsEndByFirst};

/// A law of the definitions: the shape of a catalogue ends by its first fault. This is of the document, then of its array of views, of the
/// keys `name` and `over` view by view, and of the shape view by view. Of a view's shape it is that it is the 65th, then its name, the list
/// that it is over, and its children from left to right. A shape without these faults is read.
pub fn shapes_end_by_first_law()
    ensures { ShapesEndByFirst }
{}

/// A law of the definitions: the definitions of a catalogue end by their first fault, view by view, and in each view key by key. These are
/// `columns`; or `join`, `where`, then `keep`, or `group`, `count` and `sum`. In each key the form comes first, then the names and
/// references from left to right, then the kinds. Definitions without these faults are read.
pub fn definitions_end_by_first_law()
    ensures { DefinitionsEndByFirst }
{}
