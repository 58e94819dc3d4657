//! Laws of the one legal run of running nights and the readers beside them, which proofs call: the functions do nothing.

ghost use Rattle.wh_headline.specs.Growing.{CallsAreEvents, LogsGrow};
ghost use Rattle.wh_headline.specs.OneLog.{AllInOneRun, OneRunGoesOn, RoundsAreCalls};

/// A law of the definitions: each log of a beginning of what running nights publish goes on to a log of the whole, by events of the night
/// alone. None of them is a desk's, and each desk keeps its session, so what is published next only adds to the log. Its workers may be at
/// work: those that have jobs are done with them first.
pub fn logs_grow()
    ensures { LogsGrow }
{}

/// A law of the definitions: a call of a desk is an event that can come next in a log of the list that the desk sees, unless it is answered
/// Away. In the log the desk has its session. What the desk was answered is the event's reply. The log stays one of the list, in which the
/// desk has the session that the call has left.
pub fn calls_are_events()
    ensures { CallsAreEvents }
{}

/// A law of the definitions: readers beside running nights may see what is published as late as they like, each what it does at each of its
/// calls. They may be told more in between. However all this came about, there is one legal run. Its log is one of what is published. Its
/// events of each desk are the calls of the desk's reader, in their order, each with what the desk was answered for its reply. Only a call
/// that was answered Away is no event. It has no events of other desks.
pub fn all_in_one_run()
    ensures { AllInOneRun }
{}

/// A law of the definitions: a run of all that readers beside running nights were answered goes on where more is published. Desks that were
/// told what there was are asked more. There is a run of all that begins with it, so what was answered stays as it was.
pub fn one_run_goes_on()
    ensures { OneRunGoesOn }
{}

/// A law of the definitions: the things that a reader is asked in a round, as by `answer_each`, come to calls of its desk behind those that
/// it had answered. So the laws on one run speak of readers that are asked round after round, while nights run or between them.
pub fn rounds_are_calls()
    ensures { RoundsAreCalls }
{}
