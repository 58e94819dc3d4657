//! Laws of all rows, which proofs call: the functions do nothing.

ghost use Rattle.wh_versions.specs.Laws.{DroppedAreUnread, EachAddedIsUnseen, EachBeginKeeps, EachGivesUp, EachPutIsRead, EachPutIsShown, EachReadsBack, TablesAreWritten, TablesCount, UnreadIsTested};

/// A law of the definitions: a count that a night writes is read in its version, and in no other that can be read.
pub fn puts_law()
    ensures { EachPutIsRead }
{}

/// A law of the definitions: a night that is given up leaves its version what the version before it shows.
pub fn given_up_law()
    ensures { EachReadsBack }
{}

/// A law of the definitions: a row that is dropped is read by no session that can be read.
pub fn dropped_law()
    ensures { DroppedAreUnread }
{}

/// A law of the definitions: asking version by version tells whether any session that can be read reads something of a row.
pub fn unread_law()
    ensures { UnreadIsTested }
{}

/// A law of the definitions: a version's table has what its sessions read of each row.
pub fn tables_count_law()
    ensures { TablesCount }
{}

/// A law of the definitions: a version's table written out has the rows that the version shows.
pub fn tables_written_law()
    ensures { TablesAreWritten }
{}

/// A law of the definitions: counts that are written are shown by the version of their night, and by no other that can be read.
pub fn puts_shown_law()
    ensures { EachPutIsShown }
{}

/// A law of the definitions: the version of a night that is given up shows what the version before it shows.
pub fn given_up_shown_law()
    ensures { EachGivesUp }
{}

/// A law of the definitions: rows that are added with no pairs are shown by no version.
pub fn added_unseen_law()
    ensures { EachAddedIsUnseen }
{}

/// A law of the definitions: as a night begins, each version that can be read shows what it showed, and the night's own shows what the one
/// before it does.
pub fn begun_shown_law()
    ensures { EachBeginKeeps }
{}
