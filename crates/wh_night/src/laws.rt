//! A law of every night that is refused, which proofs call: the function does nothing.

ghost use Rattle.wh_night.specs.Laws.{NightsHaveOneRefusal};

/// A law of the definitions: memory aside, a night is refused for one reason at most, which is met before anything is published or after
/// it. It is refused for none where each base change is allowed and each expression is passed.
pub fn nights_have_one_refusal()
    ensures { NightsHaveOneRefusal }
{}
