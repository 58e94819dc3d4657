//! Laws of every legal run, which proofs call: the functions do nothing.

ghost use Rattle.wh_core.specs.Headline.{RunsComeTrue};
ghost use Rattle.wh_core.specs.Laws.{CommitsMakeContents, JobsAreDrawnOnce, PublishedAreNights, PublishedAreWellFormed, RefusalsAreToldInTurn, RepliesAreOne, RunsLeaveLegalLogs, SessionsReadTables, VersionsAreContents, WorkersDoTheirJobs};
ghost use Rattle.wh_core.specs.Later.{NightsComeLater, RunsGoOn};
ghost use Rattle.wh_core.specs.Pages.{PagesShowRows};

use wh_carry::passed_expressions_have_values;
use wh_store::{pages_join_law, versions_stay_law};

/// A law of the definitions: the pages that an open session has read of a view, from its beginning up to a last page, are the view's whole
/// table in the session's version.
pub fn sessions_read_tables()
    ensures { SessionsReadTables }
{
    pages_join_law();
    versions_stay_law();
}

/// A law of the definitions: in a night the jobs are drawn in rising order, each once, and each is done once at most, after it was drawn.
/// No later stage is in turn before all jobs of a wave are done.
pub fn jobs_are_drawn_once()
    ensures { JobsAreDrawnOnce }
{}

/// A law of the definitions: a worker that is done with a job drew it, and did nothing since.
pub fn workers_do_their_jobs()
    ensures { WorkersDoTheirJobs }
{}

/// A law of the definitions: after what was done, an event has one legal reply, memory aside. Two legal replies are equal, or one of them
/// is the refusal for memory.
pub fn replies_are_one()
    ensures { RepliesAreOne }
{}

/// A law of the definitions: a refusal for a number of rows, a formula without a value, or rows that a base change lacks comes only in its
/// turn. A Begin has it for a base change or, where these are allowed, for an expression before the first turn. A Done has it for its own
/// job or, as the last of its wave, for an expression between the wave and the next turn. The last PageIn of an Inst has it for an
/// expression between the Inst and the next turn. All expressions before that one are passed, of a job all before its wave.
pub fn refusals_are_told_in_turn()
    ensures { RefusalsAreToldInTurn }
{}

/// A law of the definitions: what is done in a run from a legal log on is a legal log again.
pub fn runs_leave_legal_logs()
    ensures { RunsLeaveLegalLogs }
{}

/// A law of the definitions: what was done stays legal where more nights are given behind those of the run. Its published list and its open
/// night stay as they are. Each legal reply to the next event stays legal too, but for a refusal of a Begin that found no night left.
pub fn nights_come_later()
    ensures { NightsComeLater }
{}

/// A law of the definitions: a run without the Begins that found no night left is also one of more nights, and leaves the same log. With
/// what follows by these nights it is one run.
pub fn runs_go_on()
    ensures { RunsGoOn }
{}

/// A law of the definitions: the published list of a legal run is night lists and cut nights, one for each night that began and in their
/// order. The last may be unfinished.
pub fn published_are_nights()
    ensures { PublishedAreNights }
{
    passed_expressions_have_values();
}

/// A law of the definitions: each operation of the published list of a legal run may come where it stands, so a store can take them all.
pub fn published_are_well_formed()
    ensures { PublishedAreWellFormed }
{
    versions_stay_law();
}

/// A law of the definitions: each version of a legal run is the contents of a base.
pub fn versions_are_contents()
    ensures { VersionsAreContents }
{
    versions_stay_law();
}

/// A law of the definitions: where a night has come to its end, its commit makes the contents of the base with the night's changes.
pub fn commits_make_contents()
    ensures { CommitsMakeContents }
{
    versions_stay_law();
}

/// A law of the definitions: from the contents of a base and by correct strategies, each night of a legal run that ends makes one version.
/// A commit makes that of the views' definitions over the new base, and a night that is given up the one before it again. Each page is the
/// next one of the session's version. A Begin, a Take, a Commit, a GiveUp, an Open and a Read are refused only for a cause that is there.
/// So a night all of whose Comps are done and all of whose changed rows are put commits.
pub fn runs_come_true()
    ensures { RunsComeTrue }
{
    pages_join_law();
    versions_stay_law();
}

/// A law of the definitions: a page without a bookmark is the first rows of the view behind the row that is named, in the version of the
/// desk's session. The contents of that version are those of a base.
pub fn pages_show_rows()
    ensures { PagesShowRows }
{
    versions_stay_law();
}
