//! Laws of all versions, windows and pages, which proofs call: the functions do nothing.

ghost use Rattle.wh_store.specs.Laws.{CountsAreGiven, PagesJoin, TablesStay, VersionsStay, WellFormedAreAccepted, WellFormedGoesOn, WindowsFollow, WindowsTell};

/// A law of the definitions: what shows a list of operations shows, after one more that is not refused, the list with it behind it.
pub fn window_law()
    ensures { WindowsFollow }
{}

/// A law of the definitions: what shows a list of operations tells of its versions what a session can ask.
pub fn told_law()
    ensures { WindowsTell }
{}

/// A law of the definitions: a version has the same contents in every longer list of operations.
pub fn versions_stay_law()
    ensures { VersionsStay }
{}

/// A law of the definitions: the pages of a table from its beginning on, up to a last one, are the whole table. Each begins after the last
/// row of the one before.
pub fn pages_join_law()
    ensures { PagesJoin }
{}

/// A law of the definitions: where rising rows get new counts, each of them has its own, and every other row of the table the one that it
/// had.
pub fn counts_given_law()
    ensures { CountsAreGiven }
{}

/// A law of the definitions: a list of operations is well formed exactly where no operation of it is refused after those before it, but
/// because the numbers of versions are used up.
pub fn well_formed_law()
    ensures { WellFormedAreAccepted }
{}

/// A law of the definitions: where a well-formed list of operations is shown, and one more is not refused, the list with it is well formed.
pub fn well_formed_goes_on_law()
    ensures { WellFormedGoesOn }
{}

/// A law of the definitions: where no count of the opening tables is below zero, well-formed operations make none that is.
pub fn tables_stay_law()
    ensures { TablesStay }
{}
