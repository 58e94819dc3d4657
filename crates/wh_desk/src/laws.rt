//! A law of all that a desk sees, which proofs call: the function does nothing.

ghost use Rattle.wh_desk.specs.Desks.{SeenVersionsStay};

use wh_store::versions_stay_law;

/// A law of the definitions: a version of a list that a desk saw has the same contents in each list that it sees later.
pub fn seen_versions_stay_law()
    ensures { SeenVersionsStay }
{
    versions_stay_law();
}
