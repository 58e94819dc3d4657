//! A law of what comes of a warehouse that stays, which proofs call: the function does nothing.

ghost use Rattle.wh_stay.specs.Lives.{LivesAreLegalRuns};

use wh_core::nights_come_later;

/// A law of the definitions: what comes of a warehouse that stays is one legal run of a machine that had all the nights from the start.
pub fn lives_are_legal_runs()
    ensures { LivesAreLegalRuns }
{
    nights_come_later();
}
