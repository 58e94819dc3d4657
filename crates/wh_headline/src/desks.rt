//! Laws of what a running desk answers, which proofs call: the functions do nothing.

ghost use Rattle.wh_headline.specs.Alike.{DesksAnswerAsTheMachine};
ghost use Rattle.wh_headline.specs.RunningNights.{BeginningsAreRunningNights, DesksBesideNightsAnswerAsTheMachine, DesksThatLagAnswerAsTheMachine, NightsGoOn, RunningNightsHaveALog};
ghost use Rattle.wh_headline.specs.Told.{ToldPagesAreOfContents};

use wh_desk::seen_versions_stay_law;
use wh_store::versions_stay_law;

/// A law of the definitions: a desk is answered as the desk of a legal run is: `open` as Open, `page` as Read. It is so where the desk has
/// the session that this run has given it. Readers must see no difference between the versions that it sees and those of the run. Away and
/// want of memory, which come from the running warehouse alone, are left out.
pub fn desks_answer_as_the_machine()
    ensures { DesksAnswerAsTheMachine }
{}

/// A law of the definitions: what running nights publish, one after another, has a legal run. Each night is whole, once all its expressions
/// were passed, or cut, and one more may be open; each goes by pages of a size of its own. As many nights have begun in the run, and
/// readers see no difference between its versions and those of the list. The desks may have sessions of whatever versions were current
/// once, and have read whatever pages in them. The run has one worker at least, and puts all its nights by one size.
pub fn running_nights_have_a_log()
    ensures { RunningNightsHaveALog }
{
    versions_stay_law();
}

/// A law of the definitions: a beginning of what running nights publish, wherever it ends, is again what running nights publish. No more
/// nights have begun in it, and the last has ended or is open. So the laws on such lists speak of what a desk sees that entered while a
/// night ran, or that lags.
pub fn beginnings_are_running_nights()
    ensures { BeginningsAreRunningNights }
{}

/// A law of the definitions: what a night publishes behind nights that have ended is again what running nights publish, whether it is done
/// or refused. A night that was left open stays so while want of memory puts its end off, and has ended once it is given up.
pub fn nights_go_on()
    ensures { NightsGoOn }
{}

/// A law of the definitions: desks that were told all that the writer of running nights has published are answered as the desks of one
/// legal run. They have seen no more. In that run each desk has the session that its reader's calls have left. So the run has what they
/// open, each page of a view, and why there is none. A page is the first one, or begins after the last row of one that the desk was given
/// in the session. No log is assumed. What is assumed, the clauses of a desk's calls say, and [`wh_desk::Writer::has`] of what
/// [`wh_desk::Desk::seen`] gives.
pub fn desks_beside_nights_answer_as_the_machine()
    ensures { DesksBesideNightsAnswerAsTheMachine }
{
    versions_stay_law();
    seen_versions_stay_law();
}

/// A law of the definitions: each desk of which the writer of running nights has all that it saw is answered as a desk of a legal run is.
/// Readers see this run's versions as those of the beginning that the desk sees, and in it the desk has the session that its reader's calls
/// have left. Desks may see a different beginning each.
pub fn desks_that_lag_answer_as_the_machine()
    ensures { DesksThatLagAnswerAsTheMachine }
{
    versions_stay_law();
    seen_versions_stay_law();
}

/// A law of the definitions: a page that a desk was given in a session of a version is a page of that version's contents in a writer's
/// list. These are the contents of a base. The desk was told that list, which is sound and has come to that version. So `learn` tells it
/// what `tell` says of a writer after its nights.
pub fn told_pages_are_of_contents()
    ensures { ToldPagesAreOfContents }
{
    seen_versions_stay_law();
}
