//! States what the first fault says of a written shape, in words that name no order of tests.
ghost use Rattle.wh_dag.specs.WellFormed.{FaultlessIsWellFormed};
ghost use Rattle.wh_dag.specs.FirstFault.{FirstFaultByPlaces};

/// Two laws of the definitions: a written shape has no fault exactly where it is well formed, and its first fault is the first by places.
/// That is the one at a view and a step of it where nothing is wrong with the views and the steps before.
pub fn well_formed_law()
    ensures faultless { FaultlessIsWellFormed }
    ensures first { FirstFaultByPlaces }
{}
