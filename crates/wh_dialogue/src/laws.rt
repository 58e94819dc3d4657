//! A law of dialogues, which proofs call: the function does nothing.

ghost use Rattle.wh_dialogue.specs.Dialogue.{DialoguesAreLegalRuns};

use wh_stay::lives_are_legal_runs;

/// A law of the definitions: the machine's replies to the commands of a dialogue are one legal run, of a setup that had all the nights from
/// the start.
pub fn dialogues_are_legal_runs()
    ensures { DialoguesAreLegalRuns }
{
    lives_are_legal_runs();
}
